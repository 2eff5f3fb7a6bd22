// An entry that was read is taken by the archive and the catalogue.
ghost use Rattle.std.specs.Prelude.{◌≡◌, ◌<◌, ◌^◌, Bool, List, [], ℕ, length, IsTrue, IfErr, OnOk, IsErrOf};
ghost use Rattle.ev_world.specs.Causes.{Rose};
ghost use Rattle.gate_journal.specs.View.{IsKept};
ghost use Rattle.entry_codec.specs.declared.entry.Entry.TheVariants.{Deposit};
ghost use Rattle.entry_codec.specs.Spelling.{IsEntry, IsDeposit};
ghost use Rattle.entry_codec.specs.Places.{LieAt};
ghost use Rattle.archive_chain.specs.Kept.{groups_of};
ghost use Rattle.archive_chain.specs.Held.{leaf_count};
ghost use Rattle.archive_store.specs.InsideFaults.{rule_fault};
ghost use Rattle.archive_store.specs.InsideRows.{homes_from, AreReadable};
ghost use Rattle.archive_store.specs.InsideReplay.{documents_in, IsTaken, IsTakenEntry, IsNotTaken, IsRuleOf};

use crate::StoreFault;
use crate::catalogue::Catalogue;
use crate::fault::of_outside;
use crate::leaves::leaves_of;
use crate::places::stored;
use crate::row::{Row, Stored};
use archive_chain::{Archive, Refusal};
use entry_codec::{DepositPlaces, Entry};
use ev_world::Disk;
use gate_journal::Journal;
use hash_kit::HashValue;
use std::alloc::Global;

/// Takes a deposit by its numbers and the places of its documents.
pub(crate) fn take_deposit(
    archive: &mut Archive,
    catalogue: &mut Catalogue,
    number: u64,
    places: DepositPlaces,
) -> Result<(), StoreFault>
    requires rows { length catalogue.old.rows < 2 ^ 32 }
    requires entries { archive.old.kept.entries < 2 ^ 32 }
    requires deposit { (groups : List (List (List ℕ))) × IsDeposit groups × LieAt groups places }
    ensures taken { (groups : List (List (List ℕ))) → IsDeposit groups → LieAt groups places
        → OnOk result (IsTaken archive.old catalogue.old.rows (Deposit groups) [] archive.new catalogue.new.rows) }
    ensures not_taken { (tells : Bool) (groups : List (List (List ℕ))) → IsDeposit groups → LieAt groups places
        → (documents : List (List (List ℕ))) → IfErr result (IsNotTaken tells archive.old documents (Deposit groups) number) }
    ensures not_disk { ¬ IsErrOf result StoreFault.DiskFault }
{
    let counts = places.counts.as_slice().len();
    let Ok(()) = catalogue.reserve(counts) else {
        return Err(StoreFault::Memory);
    };
    let documents = places.places.as_slice().len() as u64;
    match archive.take_deposit(counts as u32, documents, places.bytes) {
        Ok(()) => {
            catalogue.push(Row {
                marks: 0,
                entry: Stored::OnDisk(places),
            });
            Ok(())
        }
        Err(refusal) => Err(of_rule(number, refusal)),
    }
}

/// Takes an entry, with the leaves of its tree over the documents that can be read.
pub(crate) fn take_entry<D: Disk>(
    alloc: Global,
    journal: &mut Journal<D>,
    archive: &mut Archive,
    catalogue: &mut Catalogue,
    number: u64,
    entry: &Entry,
) -> Result<(), StoreFault>
    requires rows { length catalogue.old.rows < 2 ^ 32 }
    requires entries { archive.old.kept.entries < 2 ^ 32 }
    requires spelled { IsEntry entry.now }
    requires groups { length (homes_from 0 catalogue.old.rows) ≡ groups_of archive.old.kept }
    requires readable { AreReadable journal.old.lengths catalogue.old.rows }
    requires many { IsTrue D.tells → length journal.old.payloads ≡ length journal.old.lengths }
    ensures taken { OnOk result (IsTakenEntry D.tells archive.old (documents_in D.tells catalogue.old.rows journal.old.payloads)
        catalogue.old.rows entry.now archive.new catalogue.new.rows) }
    ensures not_taken { IfErr result (IsNotTaken D.tells archive.old (documents_in D.tells catalogue.old.rows journal.old.payloads)
        entry.now number) }
    ensures kept { IsKept D.tells D.reads D.images D.clock D.since D.faults journal.old journal.new }
    ensures failed { IsErrOf result StoreFault.DiskFault → Rose (D.faults journal.old.disk) (D.faults journal.new.disk) }
{
    if let Some(refusal) = archive.shape(entry) {
        return Err(of_rule(number, refusal));
    }
    let leaves = match leaves_of(alloc, journal, archive, catalogue, entry) {
        Ok(leaves) => leaves,
        Err(outside) => return Err(of_outside(outside)),
    };
    match add(alloc, archive, catalogue, entry, &leaves) {
        Ok(()) => Ok(()),
        Err(refusal) => Err(of_rule(number, refusal)),
    }
}

// Adds an entry whose tree has these leaves.
fn add(
    alloc: Global,
    archive: &mut Archive,
    catalogue: &mut Catalogue,
    entry: &Entry,
    leaves: &[HashValue],
) -> Result<(), Refusal>
    requires rows { length catalogue.old.rows < 2 ^ 32 }
    requires entries { archive.old.kept.entries < 2 ^ 32 }
    requires spelled { IsEntry entry.now }
    requires leaves { length leaves.now ≡ leaf_count archive.old.kept entry.now }
    ensures taken { OnOk result (IsTaken archive.old catalogue.old.rows entry.now leaves.now archive.new catalogue.new.rows) }
    ensures breaks { IfErr result (IsRuleOf archive.old entry.now leaves.now) }
{
    let Ok(stored) = stored(alloc, entry) else {
        return Err(Refusal::Memory);
    };
    let Ok(()) = catalogue.reserve(stored.groups()) else {
        return Err(Refusal::Memory);
    };
    let ready = archive.reserve(alloc, entry, leaves)?;
    archive.commit(ready);
    catalogue.push(Row {
        marks: 0,
        entry: stored,
    });
    Ok(())
}

// That the entry with this number breaks a rule, or want of memory.
fn of_rule(number: u64, refusal: Refusal) -> StoreFault
    ensures { result ≡ rule_fault number refusal }
{
    match refusal {
        Refusal::Memory => StoreFault::Memory,
        rule => StoreFault::Illegal {
            entry: number,
            rule,
        },
    }
}
