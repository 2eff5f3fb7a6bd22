// A step: the rules first, then the memory, then the disk.
ghost use Rattle.std.specs.Prelude.{◌≡◌, ◌<◌, ◌≤◌, ◌^◌, length, None, IsTrue, IfOk, IfErr, OnOk, false};
ghost use Rattle.ev_world.specs.Disk.{LeavesOnly};
ghost use Rattle.entry_codec.specs.Spelling.{IsEntry, entry_spelling};
ghost use Rattle.archive_chain.specs.Rules.{shape_rule, Keeps};
ghost use Rattle.archive_chain.specs.History.{leaves_of, state_of};
ghost use Rattle.archive_chain.specs.Held.{leaf_count, IsAsBefore};
ghost use Rattle.archive_store.specs.Told.{entries_of, is_closed};
ghost use Rattle.archive_store.specs.Images.{ReadsBeforeOrAfter};
ghost use Rattle.archive_store.specs.Answers.{IsDone, IsUndone};
ghost use Rattle.archive_store.specs.InsideListing.{HasRoomFor};
ghost use Rattle.archive_store.specs.InsideRows.{group_count, IsStored};
ghost use Rattle.archive_store.specs.InsideStore.{IsUnready};

use crate::catalogue::Catalogue;
use crate::places::stored;
use crate::row::{Row, Stored};
use crate::{Store, StoreFault};
use archive_chain::{Archive, Full, Ready, Refusal};
use entry_codec::{Entry, write_entry};
use ev_world::Disk;
use gate_journal::{Journal, JournalFault};
use hash_kit::HashValue;
use std::alloc::{AllocError, Global};

impl<D: Disk> Store<D> {
    /// Adds an entry whose tree has these leaves, and gives its number: Ok only once the entry is on the disk. It answers, in this order, the
    /// first rule that the entry breaks, Closed, Refused(Limit(Journal)) or DiskFault, and Memory before it comes to the disk.
    pub fn step(&mut self, entry: &Entry, leaves: &[HashValue]) -> Result<u64, StoreFault>
        requires spelled { IsEntry entry.now }
        requires leaves { shape_rule self.old.archive.kept entry.now ≡ None → length leaves.now ≡ leaf_count self.old.archive.kept entry.now }
        // Over a disk that tells its bytes they are the leaves over the entries that the store tells.
        requires true_leaves { IsTrue D.tells → shape_rule self.old.archive.kept entry.now ≡ None → leaves.now
            ≡ leaves_of self.old.archive.kept self.old.archive.trees (state_of (entries_of self.old.told)).documents entry.now }

        ensures done { IfOk result (λ number. IsDone D.tells D.images self.old entry.now leaves.now number self.new) }
        ensures undone { IfErr result (λ e. IsUndone D.tells D.images D.faults self.old entry.now leaves.now e self.new) }
        // A crash at any moment of the call leaves the entries of before, or these and the new one.
        ensures any_moment { IsTrue D.tells → is_closed self.old.told ≡ false → LeavesOnly D.clock D.since self.old.disk self.new.disk
            (ReadsBeforeOrAfter (entries_of self.old.told) entry.now) }
        ensures later { D.faults self.old.disk ≤ D.faults self.new.disk }
    {
        let ready = match reserve(self.alloc, &mut self.archive, entry, leaves) {
            Ok(ready) => ready,
            Err(fault) => return Err(fault),
        };
        if self.failed.is_some() {
            let place = self.catalogue.len();
            return Err(StoreFault::Closed { place });
        }
        let Ok(Prepared { payload, stored }) = prepare(
            self.alloc,
            entry,
            &mut self.journal,
            &mut self.catalogue,
        ) else {
            return Err(StoreFault::Memory);
        };
        match self.journal.append(&payload) {
            Ok(number) => {
                // With this one there are fewer frames than 2^32.
                let _ = self.journal.frames();
                self.catalogue.push(Row {
                    marks: self.here,
                    entry: stored,
                });
                self.here = 0;
                self.archive.commit(ready);
                Ok(number)
            }
            Err(fault) => match fault {
                JournalFault::Full(size) => {
                    Err(StoreFault::Refused(Refusal::Limit(Full::Journal(size))))
                }
                JournalFault::DiskFault => {
                    self.failed = Some(0);
                    Err(StoreFault::DiskFault)
                }
                _ => unreachable!(),
            },
        }
    }
}

// An entry that breaks no rule, or the first that it breaks.
fn reserve(
    alloc: Global,
    archive: &mut Archive,
    entry: &Entry,
    leaves: &[HashValue],
) -> Result<Ready, StoreFault>
    requires few { archive.old.kept.entries < 2 ^ 32 }
    requires spelled { IsEntry entry.now }
    requires leaves { shape_rule archive.old.kept entry.now ≡ None → length leaves.now ≡ leaf_count archive.old.kept entry.now }
    ensures ready { IfOk result (λ ready. ready ≡ record { entry = entry.now; leaves = leaves.now; archive = archive.new }) }
    ensures keeps { OnOk result (Keeps archive.old.kept archive.old.policy entry.now leaves.now) }
    ensures unready { IfErr result (IsUnready archive.old entry.now leaves.now) }
    ensures before { IsAsBefore archive.old archive.new }
{
    match archive.reserve(alloc, entry, leaves) {
        Ok(ready) => Ok(ready),
        Err(Refusal::Memory) => Err(StoreFault::Memory),
        Err(refusal) => Err(StoreFault::Refused(refusal)),
    }
}

// What a step has before it comes to the disk, with room in the lists.
#[derive(Drop)]
struct Prepared {
    payload: Vec<u8>,
    stored: Stored,
}

fn prepare<D: Disk>(
    alloc: Global,
    entry: &Entry,
    journal: &mut Journal<D>,
    catalogue: &mut Catalogue,
) -> Result<Prepared, AllocError>
    requires { IsEntry entry.now }
    ensures payload { IfOk result (λ p. p.payload.items ≡ entry_spelling entry.now) }
    ensures stored { IfOk result (λ p. IsStored entry.now p.stored) }
    ensures room { IfOk result (λ p. HasRoomFor catalogue.new (group_count p.stored)) }
    ensures spare { OnOk result (1 ≤ journal.new.spare) }
    ensures rows { catalogue.new.rows ≡ catalogue.old.rows }
    ensures disk { journal.new.disk ≡ journal.old.disk }
    ensures lengths { journal.new.lengths ≡ journal.old.lengths }
    ensures payloads { journal.new.payloads ≡ journal.old.payloads }
    ensures broken { journal.new.broken ≡ journal.old.broken }
{
    let payload = write_entry(alloc, entry)?;
    let stored = stored(alloc, entry)?;
    catalogue.reserve(stored.groups())?;
    journal.reserve()?;
    Ok(Prepared { payload, stored })
}
