// Where the documents of a deposit will stand in its payload: behind the kind and the number of groups, in five bytes, for each group
// the number of its documents in four, and for each document its length in four before its bytes.
ghost use Rattle.std.specs.Prelude.{◌≡◌, ◌≤◌, ◌+◌, ◌*◌, ◌^◌, ◌++◌, length, IfOk};
ghost use Rattle.object_groups.specs.Groups.{IsGroup, bytes_in};
ghost use Rattle.entry_codec.specs.Spelling.{IsDeposit, IsEntry};
ghost use Rattle.entry_codec.specs.Places.{document_places, LieAt};
ghost use Rattle.archive_store.specs.InsideRows.{IsStored};

use crate::row::Stored;
use der_values::{Bytes, Items};
use entry_codec::{DepositPlaces, Entry, Place};
use object_groups::Group;
use std::alloc::{AllocError, Global};
use std::snapshot::Snapshot;

/// What is kept of an entry.
pub(crate) fn stored(alloc: Global, entry: &Entry) -> Result<Stored, AllocError>
    requires { IsEntry entry.now }
    ensures { IfOk result (λ stored. IsStored entry.now stored) }
{
    match entry {
        Entry::Deposit { groups } => Ok(Stored::OnDisk(deposit_places(alloc, groups.as_slice())?)),
        _ => Ok(Stored::Whole(Snapshot::of(entry))),
    }
}

// The places of a deposit's documents.
fn deposit_places(alloc: Global, groups: &[Group]) -> Result<DepositPlaces, AllocError>
    requires { IsDeposit groups.now }
    ensures { IfOk result (LieAt groups.now) }
{
    let mut counts = Vec::new(alloc);
    let mut places = Vec::new(alloc);
    let mut bytes = 0;
    let mut place = 5;
    for group in groups {
        let documents = group.documents();
        counts.push(documents.len() as u8)?;
        let size = put_places(&mut places, place + 4, documents)?;
        bytes += u64::from(size);
        place += 4 + 4 * documents.len() as u32 + size;
    }
    Ok(DepositPlaces {
        counts: Bytes::from_vec(counts),
        places: Items::from_vec(places),
        bytes,
    })
}

// Adds the places of a group's documents, where the length of the first stands at this place. It answers how many bytes they have.
fn put_places(places: &mut Vec<Place>, place: u32, documents: &[Bytes]) -> Result<u32, AllocError>
    requires group { IsGroup documents.now }
    requires place { place ≤ 2 ^ 31 }
    ensures places { IfOk result (λ size. places.new.items ≡ places.old.items ++ document_places place documents.now) }
    ensures size { IfOk result (λ size. size ≡ bytes_in documents.now) }
{
    let mut size = 0;
    let mut next = place;
    for document in documents {
        let length = document.as_slice().len() as u32;
        places.push(Place {
            from: next + 4,
            size: length,
        })?;
        next += 4 + length;
        size += length;
    }
    Ok(size)
}
