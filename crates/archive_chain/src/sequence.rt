// The chains of a group, from the rows of its cohorts.
ghost use Rattle.std.specs.Prelude.{◌≡◌, ◌<◌, ◌≤◌, ◌+◌, ◌*◌, ◌^◌, [], ◌∷◌, length, map, true, Some, IfOk, slice_index_or};
ghost use Rattle.std.specs.List.{AllByRecursion, flat_map};
ghost use Rattle.archive_chain.specs.Kept.{has_name, place_of};
ghost use Rattle.archive_chain.specs.Sequence.{stamp_of, sequence_of};
ghost use Rattle.evidence_syntax.specs.Stamps.{stamp_seen, chain_seen, chains_seen};
ghost use Rattle.evidence_syntax.specs.Text.{stamp_text, chain_text};
ghost use Rattle.evidence_syntax.specs.Valid.{IsHash};
ghost use Rattle.archive_chain.specs.InsideRows.{begun, walk};
ghost use Rattle.archive_chain.specs.InsideTable.{IsShort, ids_seen, leaves_in, stamp_at, later_seen, row_seen, rows_seen};
ghost use Rattle.hash_kit.specs.Digest.{digest_of};
ghost use Rattle.evidence_syntax.specs.DocumentValue.{values_after};
ghost use Rattle.archive_chain.specs.declared.time_stamp.TimeStamp.{TimeStamp};
ghost use Rattle.archive_chain.specs.InsideReadable.{Rises, IsTreed, IsTreedLater, AreReadable, stamp_made, chain_made};

use crate::row::{Later, Members, Row};
use crate::time_stamp::{Slot, TimeStamp};
use der_values::{AlgName, Items};
use evidence_syntax::{Ats, Chain};
use hash_kit::{HashValue, digest};
use object_groups::Group;
use std::alloc::{AllocError, Global};
use tree_renewal::{lists_of, renewed_values};

// The place of a number that stands in the list.
pub(crate) fn search(ids: &[u32], id: u32) -> usize
    requires rising { Rises ids.now }
    requires member { has_name ids.now id ≡ true }
    ensures { result ≡ place_of ids.now id }
{
    let mut low = 0;
    let mut high = ids.len();
    while high - low > 1 {
        let middle = low + (high - low) / 2;
        if ids[middle] <= id {
            low = middle;
        } else {
            high = middle;
        }
    }
    low
}

fn place_in(members: &Members, id: u32) -> u32
    requires rising { Rises (ids_seen members.now) }
    requires few { length (ids_seen members.now) ≤ 65536 }
    requires member { has_name (ids_seen members.now) id ≡ true }
    ensures place { result ≡ place_of (ids_seen members.now) id }
    ensures within { result < length (ids_seen members.now) }
{
    match members {
        Members::Run { first, count: _ } => id - *first,
        Members::Listed(ids) => search(ids.as_slice(), id) as u32,
    }
}

// The time-stamp of an entry that has one.
pub(crate) fn stamp_in<'a>(stamps: &'a [Slot], entry: u32) -> &'a TimeStamp
    requires within { entry < length stamps.now }
    requires some { (t : TimeStamp) × (stamp_at stamps.now entry ≡ Some t) }
    ensures { stamp_at stamps.now entry ≡ Some result.now }
{
    match stamps[entry as usize].get() {
        Some(stamp) => stamp,
        None => unreachable!(),
    }
}

// Each of them has 1 to 64 bytes, as each hash value has.
fn are_hashes(values: &[HashValue])
    ensures { AllByRecursion IsHash values.now }
{
    for value in values {
        let _ = value.bytes();
    }
}

// The archive time-stamp that covers these values, whose leaf has this place.
fn made<'a>(
    alloc: Global,
    stamp: &'a TimeStamp,
    values: Items<HashValue>,
    place: u32,
) -> Result<Ats<'a>, AllocError>
    requires some { 0 < length values }
    requires few { length values ≤ 64 }
    requires hashes { AllByRecursion IsHash values }
    requires place { place < length stamp.now.tree.leaves }
    requires small { IsShort stamp.now }
    ensures made { IfOk result (λ ats. stamp_seen ats ≡ stamp_made stamp.now values place) }
    ensures short { IfOk result (λ ats. length (stamp_text (stamp_seen ats)) ≤ 72600) }
{
    let path = stamp.tree.path(alloc, place)?;
    are_hashes(path.as_slice());
    let lists = lists_of(alloc, values, path)?;
    Ok(Ats {
        algorithm: Some(AlgName {
            oid: stamp.alg.oid(),
            params: None,
        }),
        attributes: None,
        lists,
        token: stamp.token.as_slice(),
    })
}

// A further archive time-stamp after this token.
fn further<'a>(
    alloc: Global,
    stamps: &'a [Slot],
    later: &Later,
    token: &[u8],
) -> Result<Ats<'a>, AllocError>
    requires { IsTreedLater stamps.now later.now }
    ensures made { IfOk result (λ ats. stamp_seen ats
        ≡ stamp_of (map leaves_in stamps.now) (later_seen stamps.now later.now) (digest_of (later_seen stamps.now later.now).alg token.now ∷ [])) }
    ensures short { IfOk result (λ ats. length (stamp_text (stamp_seen ats)) ≤ 72600) }
{
    let stamp = stamp_in(stamps, later.stamp);
    let mut values = Vec::new(alloc);
    values.push(digest(stamp.alg, token))?;
    made(alloc, stamp, Items::from_vec(values), later.place)
}

// The first archive time-stamp of the chain in a row.
fn first<'a>(
    alloc: Global,
    stamps: &'a [Slot],
    row: &Row,
    id: u32,
    group: &Group,
    older: &[Chain<'a>],
) -> Result<Ats<'a>, AllocError>
    requires treed { IsTreed stamps.now row.now }
    requires member { has_name (ids_seen row.now.members) id ≡ true }
    requires short { length (flat_map chain_text (chains_seen older.now)) < 2 ^ 32 }
    ensures made { IfOk result (λ ats. stamp_seen ats
        ≡ stamp_of (map leaves_in stamps.now) (begun (row_seen stamps.now row.now) id)
        (values_after (begun (row_seen stamps.now row.now) id).alg (chains_seen older.now) group.now)) }
    ensures short { IfOk result (λ ats. length (stamp_text (stamp_seen ats)) ≤ 72600) }
{
    let stamp = stamp_in(stamps, row.stamp);
    let _ = group.documents();
    let values = renewed_values(alloc, stamp.alg, group, older)?;
    made(alloc, stamp, values, place_in(&row.members, id))
}

// The chain in a row, for this group.
fn chain<'a>(
    alloc: Global,
    stamps: &'a [Slot],
    row: &Row,
    id: u32,
    group: &Group,
    older: &[Chain<'a>],
) -> Result<Chain<'a>, AllocError>
    requires treed { IsTreed stamps.now row.now }
    requires member { has_name (ids_seen row.now.members) id ≡ true }
    requires short { length (flat_map chain_text (chains_seen older.now)) < 2 ^ 32 }
    ensures made { IfOk result (λ chain. chain_seen chain
        ≡ chain_made (map leaves_in stamps.now) group.now (chains_seen older.now) (begun (row_seen stamps.now row.now) id) (map (later_seen stamps.now) row.now.later.items)) }
    ensures short { IfOk result (λ chain. length (chain_text (chain_seen chain)) ≤ 72606 * (length row.now.later.items + 1)) }
{
    let begin = first(alloc, stamps, row, id, group, older)?;
    let mut token = begin.token;
    let mut all = Vec::new(alloc);
    all.push(begin)?;
    for later in &row.later {
        let next = further(alloc, stamps, later, token)?;
        token = next.token;
        all.push(next)?;
    }
    Ok(Chain {
        stamps: Items::from_vec(all),
    })
}

/// The chains of a group from this row on, if these are its documents.
pub(crate) fn sequence<'a>(
    alloc: Global,
    stamps: &'a [Slot],
    rows: &[Row],
    start: u32,
    id: u32,
    group: &Group,
) -> Result<Items<Chain<'a>>, AllocError>
    requires { AreReadable stamps.now rows.now id start }
    ensures made { IfOk result (λ chains. chains_seen chains
        ≡ sequence_of (map leaves_in stamps.now) group.now (walk id 0 (Some start) (rows_seen stamps.now rows.now))) }
    ensures short { IfOk result (λ chains. length (flat_map chain_text (chains_seen chains)) ≤ 14521200) }
{
    let mut chains = Vec::new(alloc);
    let mut at = Some(start);
    while let Some(place) = at {
        let row = &rows[place as usize];
        let chain = chain(alloc, stamps, row, id, group, chains.as_slice())?;
        chains.push(chain)?;
        at = row.next;
    }
    Ok(Items::from_vec(chains))
}
