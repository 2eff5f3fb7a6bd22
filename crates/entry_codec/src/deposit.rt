// A deposit is read as the places of its documents. Groups are made of it where somebody asks for them.
ghost use Rattle.std.specs.Prelude.{◌≡◌, ◌<◌, ◌≤◌, ◌+◌, ◌*◌, ◌^◌, ℕ, List, length, map, IfOk, IfErr, Ok, Err, Some};
ghost use Rattle.std.specs.List.{AllByRecursion};
ghost use Rattle.der_values.specs.Reading.{Unless};
ghost use Rattle.object_groups.specs.Groups.{IsGroup, most_bytes};
ghost use Rattle.entry_codec.specs.declared.entry.Entry.TheVariants.{Deposit};
ghost use Rattle.entry_codec.specs.Fault.{documents_form, group_form, groups_form, deposit_form, is_memory, IsFaultOf};
ghost use Rattle.entry_codec.specs.Spelling.{most_groups, most_deposited};
ghost use Rattle.entry_codec.specs.Places.{LieAt, ArePlaces};
ghost use Rattle.entry_codec.specs.Inside.{read_at, bytes_at, place_of, TakesDocuments, TakesGroup, IsWithin, groups_at, FitIn};

use crate::fault::EntryFault;
use crate::kind::Kind;
use crate::limits::{MOST_DEPOSITED, MOST_GROUPS};
use crate::payload::Payload;
use crate::places::{DepositPlaces, Place};
use der_values::{Bytes, Items};
use object_groups::{Group, LONGEST_DOCUMENT, MOST_BYTES, MOST_DOCUMENTS};
use std::alloc::{AllocError, Global};

/// The places of a deposit's documents in its payload, without a copy of any; None where the bytes begin with another kind of
/// entry, of which nothing is said then. Errors are those of `read_entry`.
pub fn read_places(alloc: Global, bytes: &[u8]) -> Result<Option<DepositPlaces>, EntryFault>
    ensures places { IfOk result (ArePlaces bytes.now) }
    ensures fault { IfErr result (IsFaultOf bytes.now) }
{
    let mut payload = Payload::new(bytes);
    let Kind::Deposit = payload.kind()? else {
        return Ok(None);
    };
    let places = deposit_places(alloc, &mut payload)?;
    payload.finish()?;
    Ok(Some(places))
}

/// The places of a deposit whose kind was read.
#[tactic(auto, unfolding(crate::specs::Fault::deposit_form, crate::specs::Form::reads), using(crate::proofs::Forms::reads_followed))]
pub(crate) fn deposit_places(
    alloc: Global,
    payload: &mut Payload<'_>,
) -> Result<DepositPlaces, EntryFault>
    requires { payload.old.place ≡ 1 }
    ensures ok { IfOk result (λ p. (groups : List (List (List ℕ))) × (read_at deposit_form payload.old ≡ Ok (Deposit groups, payload.new)) × LieAt groups p) }
    ensures fault { IfErr result (λ e. Unless (is_memory e) (read_at deposit_form payload.old ≡ Err (place_of e))) }
{
    let count = payload.ranged(1, MOST_GROUPS)?;
    groups(alloc, payload, count)
}

// So many groups.
fn groups(alloc: Global, payload: &mut Payload<'_>, count: u32) -> Result<DepositPlaces, EntryFault>
    requires few { count ≤ most_groups }
    requires place { payload.old.place ≡ 5 }
    ensures ok { IfOk result (λ p. (groups : List (List (List ℕ))) × (read_at (groups_form count most_deposited) payload.old ≡ Ok (groups, payload.new)) × LieAt groups p) }
    ensures fault { IfErr result (λ e. Unless (is_memory e) (read_at (groups_form count most_deposited) payload.old ≡ Err (place_of e))) }
{
    let mut counts = Vec::new(alloc);
    let mut places = Vec::new(alloc);
    let mut further = count;
    let mut room = MOST_DEPOSITED;
    while further > 0 {
        further -= 1;
        room = group(payload, room, &mut counts, &mut places)?;
    }
    Ok(DepositPlaces {
        counts: Bytes::from_vec(counts),
        places: Items::from_vec(places),
        bytes: MOST_DEPOSITED - room,
    })
}

// A group of at most `room` bytes: the number of its documents and their places. It answers how many bytes are left.
#[tactic(auto, unfolding(crate::specs::Fault::group_form), using(crate::proofs::Forms::reads_followed))]
fn group(
    payload: &mut Payload<'_>,
    room: u64,
    counts: &mut Vec<u8>,
    places: &mut Vec<Place>,
) -> Result<u64, EntryFault>
    requires room { room ≤ most_deposited }
    requires place { payload.old.place + 260 + room < 2 ^ 32 }
    ensures ok { IfOk result (TakesGroup room payload.old payload.new counts.old.items counts.new.items places.old.items places.new.items) }
    ensures fault { IfErr result (λ e. Unless (is_memory e) (read_at (group_form room) payload.old ≡ Err (place_of e))) }
{
    let count = payload.ranged(1, MOST_DOCUMENTS as u64)?;
    let most = MOST_BYTES.min(room);
    let left = documents(payload, count, most, places)?;
    counts.push(count as u8)?;
    Ok(room - (most - left))
}

// So many documents, of at most `room` bytes together: their places. It answers how many bytes are left.
fn documents(
    payload: &mut Payload<'_>,
    count: u32,
    room: u64,
    places: &mut Vec<Place>,
) -> Result<u64, EntryFault>
    requires few { count ≤ 64 }
    requires room { room ≤ most_bytes }
    requires place { payload.old.place + 4 * count + room < 2 ^ 32 }
    ensures ok { IfOk result (TakesDocuments count room payload.old payload.new places.old.items places.new.items) }
    ensures fault { IfErr result (λ e. Unless (is_memory e) (read_at (documents_form count room) payload.old ≡ Err (place_of e))) }
{
    let mut further = count;
    let mut left = room;
    while further > 0 {
        further -= 1;
        let document = payload.counted((LONGEST_DOCUMENT as u64).min(left))?;
        let size = document.len() as u64;
        places.push(Place {
            from: (payload.place() - size) as u32,
            size: size as u32,
        })?;
        left -= size;
    }
    Ok(left)
}

// ---- groups at their places

/// The groups at these places of a payload, with copies of their documents.
pub(crate) fn groups_at(
    alloc: Global,
    payload: &[u8],
    deposit: &DepositPlaces,
) -> Result<Items<Group>, AllocError>
    requires { FitIn payload.now deposit.now.counts deposit.now.places }
    ensures { IfOk result (λ groups. groups ≡ groups_at payload.now deposit.now.counts deposit.now.places) }
{
    let mut groups = Vec::new(alloc);
    let mut places = deposit.places.as_slice();
    for count in deposit.counts.as_slice() {
        let (here, later) = places.split_at(usize::from(*count));
        groups.push(group_at(alloc, payload, here)?)?;
        places = later;
    }
    Ok(Items::from_vec(groups))
}

fn group_at(alloc: Global, payload: &[u8], places: &[Place]) -> Result<Group, AllocError>
    requires within { AllByRecursion (IsWithin (length payload.now)) places.now }
    requires group { IsGroup (map (bytes_at payload.now) places.now) }
    ensures { IfOk result (λ group. group ≡ map (bytes_at payload.now) places.now) }
{
    let documents = documents_at(alloc, payload, places)?;
    let Ok(group) = Group::new(documents) else {
        unreachable!()
    };
    Ok(group)
}

fn documents_at(alloc: Global, payload: &[u8], places: &[Place]) -> Result<Items<Bytes>, AllocError>
    requires { AllByRecursion (IsWithin (length payload.now)) places.now }
    ensures { IfOk result (λ documents. documents ≡ map (bytes_at payload.now) places.now) }
{
    let mut documents = Vec::new(alloc);
    for place in places {
        documents.push(document_at(alloc, payload, *place)?)?;
    }
    Ok(Items::from_vec(documents))
}

fn document_at(alloc: Global, payload: &[u8], place: Place) -> Result<Bytes, AllocError>
    requires { place.from + place.size ≤ length payload.now }
    ensures { IfOk result (λ document. document ≡ bytes_at payload.now place) }
{
    let (_, rest) = payload.split_at(place.from as usize);
    let (document, _) = rest.split_at(place.size as usize);
    Ok(Bytes::from_vec(Vec::from_slice(alloc, document)?))
}
