// The entries of an opened journal, taken one after another.
ghost use Rattle.std.specs.Prelude.{◌≡◌, ◌<◌, ◌+◌, ◌^◌, length, map, take, slice_get, Some, IsTrue, IfOk, IfErr, OnOk, IsErrOf};
ghost use Rattle.ev_world.specs.Causes.{Rose};
ghost use Rattle.gate_journal.specs.View.{IsKept};
ghost use Rattle.archive_chain.specs.Kept.{groups_of};
ghost use Rattle.archive_store.specs.declared.fault.Outside.TheVariants as outside;
ghost use Rattle.archive_store.specs.Opening.{Spoils, IsOpenFault};
ghost use Rattle.archive_store.specs.InsideFaults.{entry_fault};
ghost use Rattle.archive_store.specs.InsideRows.{homes_from, AreReadable};
ghost use Rattle.archive_store.specs.InsideReplay.{AreReplayed, documents_in, IsNext, IsNotNext};

use crate::StoreFault;
use crate::catalogue::Catalogue;
use crate::fault::{Outside, of_outside};
use crate::taking::{take_deposit, take_entry};
use archive_chain::Archive;
use der_values::zeros;
use entry_codec::{EntryFault, read_entry, read_places};
use ev_world::Disk;
use gate_journal::Journal;
use std::alloc::Global;

/// What the frames hold.
#[derive(Drop)]
pub(crate) struct Replayed {
    pub(crate) archive: Archive,
    pub(crate) catalogue: Catalogue,
}

/// Takes the entries of all frames, or says why the first isn't taken.
pub(crate) fn replay<D: Disk>(
    alloc: Global,
    journal: &mut Journal<D>,
) -> Result<Replayed, StoreFault>
    requires sizes { IsTrue D.tells → map length journal.old.payloads ≡ journal.old.lengths }
    ensures replayed { IfOk result (λ r. AreReplayed D.tells journal.new.lengths journal.new.payloads r.catalogue.rows r.archive) }
    ensures spoils { IfErr result (λ e. IsTrue D.tells → Spoils journal.old.payloads e) }
    ensures answers { IfErr result IsOpenFault }
    ensures kept { IsKept D.tells D.reads D.images D.clock D.since D.faults journal.old journal.new }
    ensures failed { IsErrOf result StoreFault.DiskFault → Rose (D.faults journal.old.disk) (D.faults journal.new.disk) }
{
    let Ok(empty) = Archive::new(alloc) else {
        return Err(StoreFault::Memory);
    };
    let mut archive = empty;
    let mut catalogue = Catalogue::new(alloc);
    let count = journal.frames();
    for entry in 0..count {
        match replay_one(alloc, journal, &mut archive, &mut catalogue, entry) {
            Ok(()) => {}
            Err(fault) => return Err(fault),
        }
    }
    Ok(Replayed { archive, catalogue })
}

// Takes the entry of a frame.
fn replay_one<D: Disk>(
    alloc: Global,
    journal: &mut Journal<D>,
    archive: &mut Archive,
    catalogue: &mut Catalogue,
    entry: u64,
) -> Result<(), StoreFault>
    requires entry { entry < length journal.old.lengths }
    requires few { length journal.old.lengths < 2 ^ 32 }
    requires sizes { IsTrue D.tells → map length journal.old.payloads ≡ journal.old.lengths }
    requires so_far { AreReplayed D.tells (take entry journal.old.lengths) (take entry journal.old.payloads) catalogue.old.rows archive.old }
    ensures more { OnOk result (AreReplayed D.tells (take (entry + 1) journal.old.lengths) (take (entry + 1) journal.old.payloads)
        catalogue.new.rows archive.new) }
    ensures spoils { IfErr result (λ e. IsTrue D.tells → Spoils journal.old.payloads e) }
    ensures answers { IfErr result IsOpenFault }
    ensures kept { IsKept D.tells D.reads D.images D.clock D.since D.faults journal.old journal.new }
    ensures failed { IsErrOf result StoreFault.DiskFault → Rose (D.faults journal.old.disk) (D.faults journal.new.disk) }
{
    let payload = match read_payload(alloc, journal, entry) {
        Ok(payload) => payload,
        Err(outside) => return Err(of_outside(outside)),
    };
    take_payload(
        alloc,
        journal,
        archive,
        catalogue,
        entry,
        payload.as_slice(),
    )
}

// The payload of a frame.
fn read_payload<D: Disk>(
    alloc: Global,
    journal: &mut Journal<D>,
    entry: u64,
) -> Result<Vec<u8>, Outside>
    requires entry { entry < length journal.old.lengths }
    requires sizes { IsTrue D.tells → map length journal.old.payloads ≡ journal.old.lengths }
    ensures size { IfOk result (λ payload. slice_get journal.old.lengths entry ≡ Some (length payload.items)) }
    ensures bytes { IfOk result (λ payload. IsTrue D.tells → slice_get journal.old.payloads entry ≡ Some payload.items) }
    ensures kept { IsKept D.tells D.reads D.images D.clock D.since D.faults journal.old journal.new }
    ensures failed { IsErrOf result outside.DiskFault → Rose (D.faults journal.old.disk) (D.faults journal.new.disk) }
{
    let mut payload = zeros(alloc, journal.length(entry) as usize)?;
    let Ok(()) = journal.read_frame(entry, 0, &mut payload) else {
        return Err(Outside::DiskFault);
    };
    Ok(payload)
}

// Takes the entry that a payload spells: of a deposit only its numbers and places are read.
fn take_payload<D: Disk>(
    alloc: Global,
    journal: &mut Journal<D>,
    archive: &mut Archive,
    catalogue: &mut Catalogue,
    entry: u64,
    payload: &[u8],
) -> Result<(), StoreFault>
    requires rows { length catalogue.old.rows < 2 ^ 32 }
    requires entries { archive.old.kept.entries < 2 ^ 32 }
    requires groups { length (homes_from 0 catalogue.old.rows) ≡ groups_of archive.old.kept }
    requires readable { AreReadable journal.old.lengths catalogue.old.rows }
    requires many { IsTrue D.tells → length journal.old.payloads ≡ length journal.old.lengths }
    ensures next { OnOk result (IsNext D.tells archive.old (documents_in D.tells catalogue.old.rows journal.old.payloads)
        catalogue.old.rows payload.now archive.new catalogue.new.rows) }
    ensures not_next { IfErr result (IsNotNext D.tells archive.old (documents_in D.tells catalogue.old.rows journal.old.payloads)
        payload.now entry) }
    ensures kept { IsKept D.tells D.reads D.images D.clock D.since D.faults journal.old journal.new }
    ensures failed { IsErrOf result StoreFault.DiskFault → Rose (D.faults journal.old.disk) (D.faults journal.new.disk) }
{
    match read_places(alloc, payload) {
        Ok(Some(places)) => take_deposit(archive, catalogue, entry, places),
        Ok(None) => match read_entry(alloc, payload) {
            Ok(other) => take_entry(alloc, journal, archive, catalogue, entry, &other),
            Err(fault) => Err(of_entry(entry, fault)),
        },
        Err(fault) => Err(of_entry(entry, fault)),
    }
}

// That the payload of the entry with this number is no entry, or want of memory.
fn of_entry(entry: u64, fault: EntryFault) -> StoreFault
    ensures { result ≡ entry_fault entry fault }
{
    match fault {
        EntryFault::Bad { place } => StoreFault::BadEntry { entry, place },
        EntryFault::Memory => StoreFault::Memory,
    }
}
