// Documents are read back from the journal, each at its place.
ghost use Rattle.std.specs.Prelude.{◌≡◌, ◌<◌, ℕ, List, length, map, slice_get, slice_index, Some, IsTrue, IfOk, IsErrOf};
ghost use Rattle.std.specs.List.{flat_map, AllByRecursion};
ghost use Rattle.ev_world.specs.Causes.{Rose};
ghost use Rattle.gate_journal.specs.View.{IsKept};
ghost use Rattle.entry_codec.specs.Places.{bytes_at};
ghost use Rattle.entry_codec.specs.Inside.{IsWithin};
ghost use Rattle.archive_chain.specs.History.{groups_in};
ghost use Rattle.archive_store.specs.declared.fault.Outside.TheVariants.{DiskFault};
ghost use Rattle.archive_store.specs.Told.{group_told};
ghost use Rattle.archive_store.specs.InsideRows.{entries_at, homes_from, AreReadable};

use crate::catalogue::Catalogue;
use crate::fault::Outside;
use der_values::{Bytes, Items, zeros};
use entry_codec::Place;
use ev_world::Disk;
use gate_journal::Journal;
use object_groups::Group;
use std::alloc::Global;

/// The documents of a group.
pub(crate) fn read_group<D: Disk>(
    alloc: Global,
    journal: &mut Journal<D>,
    catalogue: &Catalogue,
    id: u32,
) -> Result<Group, Outside>
    requires known { id < length (homes_from 0 catalogue.now.rows) }
    requires readable { AreReadable journal.old.lengths catalogue.now.rows }
    requires many { IsTrue D.tells → length journal.old.payloads ≡ length journal.old.lengths }
    ensures group { IfOk result (λ group. slice_get (flat_map groups_in (entries_at D.tells catalogue.now.rows journal.old.payloads)) id ≡ Some (group_told D.tells group)) }
    ensures kept { IsKept D.tells D.reads D.images D.clock D.since D.faults journal.old journal.new }
    ensures failed { IsErrOf result DiskFault → Rose (D.faults journal.old.disk) (D.faults journal.new.disk) }
{
    let home = catalogue.home(id);
    let entry = u64::from(home.entry);
    let documents = read_documents(alloc, journal, entry, catalogue.places(home))?;
    let Ok(group) = Group::new(documents) else {
        unreachable!()
    };
    Ok(group)
}

// The documents at these places of an entry's payload.
fn read_documents<D: Disk>(
    alloc: Global,
    journal: &mut Journal<D>,
    entry: u64,
    places: &[Place],
) -> Result<Items<Bytes>, Outside>
    requires entry { entry < length journal.old.lengths }
    requires within { AllByRecursion (IsWithin (slice_index journal.old.lengths entry)) places.now }
    ensures sizes { IfOk result (λ documents. map length documents ≡ map (λ p. p.size) places.now) }
    ensures bytes { IfOk result (λ documents. IsTrue D.tells → (payload : List ℕ) → slice_get journal.old.payloads entry ≡ Some payload
        → documents ≡ map (bytes_at payload) places.now) }
    ensures kept { IsKept D.tells D.reads D.images D.clock D.since D.faults journal.old journal.new }
    ensures failed { IsErrOf result DiskFault → Rose (D.faults journal.old.disk) (D.faults journal.new.disk) }
{
    let mut documents = Vec::new(alloc);
    for place in places {
        match read_document(alloc, journal, entry, *place) {
            Ok(document) => documents.push(document)?,
            Err(outside) => return Err(outside),
        }
    }
    Ok(Items::from_vec(documents))
}

// The document at a place of an entry's payload.
fn read_document<D: Disk>(
    alloc: Global,
    journal: &mut Journal<D>,
    entry: u64,
    place: Place,
) -> Result<Bytes, Outside>
    requires entry { entry < length journal.old.lengths }
    requires within { IsWithin (slice_index journal.old.lengths entry) place }
    ensures size { IfOk result (λ document. length document ≡ place.size) }
    ensures bytes { IfOk result (λ document. IsTrue D.tells → (payload : List ℕ) → slice_get journal.old.payloads entry ≡ Some payload
        → document ≡ bytes_at payload place) }
    ensures kept { IsKept D.tells D.reads D.images D.clock D.since D.faults journal.old journal.new }
    ensures failed { IsErrOf result DiskFault → Rose (D.faults journal.old.disk) (D.faults journal.new.disk) }
{
    let mut bytes = zeros(alloc, place.size as usize)?;
    let Ok(()) = journal.read_frame(entry, u64::from(place.from), &mut bytes) else {
        return Err(Outside::DiskFault);
    };
    Ok(Bytes::from_vec(bytes))
}
