// Which values the archive time-stamps cover.
ghost use Rattle.std.specs.Prelude.{◌≡◌, ◌<◌, ◌≤◌, not, ◌&&◌, length, map, IfOk};
ghost use Rattle.std.specs.List.{position_from};
ghost use Rattle.std.specs.Str.{bytes_eq};
ghost use Rattle.reduced_tree.specs.Reduced.{AreFull, first_of};
ghost use Rattle.evidence_verify.specs.Covers.{has, is_other, is_root, covers, not_covered, uncovered, cover_fault};
ghost use Rattle.evidence_verify.specs.Inside.{checked_seen, owed_seen};

use crate::owed::Owed;
use crate::stamps::Checked;
use crate::verdict::Verdict;
use der_values::Items;
use hash_kit::{HashAlg, HashValue};
use reduced_tree::{contains_first, roots};
use std::alloc::{AllocError, Global};

/// The first value that its time-stamp does not cover.
pub(crate) fn cover_fault(
    alloc: Global,
    all_owed: &[Owed<'_, '_>],
) -> Result<Option<Verdict>, AllocError>
    ensures { IfOk result (λ fault. fault ≡ cover_fault (map owed_seen all_owed.now)) }
{
    for owed in all_owed {
        let fault = uncovered(alloc, owed)?;
        if let Some(verdict) = fault {
            return Ok(Some(verdict));
        }
    }
    Ok(None)
}

// The first value that is not covered.
#[tactic(auto, unfolding(crate::specs::Covers::uncovered))]
fn uncovered(alloc: Global, owed: &Owed<'_, '_>) -> Result<Option<Verdict>, AllocError>
    ensures { IfOk result (λ fault. fault ≡ uncovered (owed_seen owed.now)) }
{
    let first = first_uncovered(alloc, owed)?;
    match first {
        Some(number) => Ok(Some(not_covered(&owed.stamp, number))),
        None => Ok(None),
    }
}

// The document is blamed where the time-stamp is the first of its chain.
fn not_covered(stamp: &Checked<'_, '_>, number: u32) -> Verdict
    ensures { result ≡ not_covered (checked_seen stamp.now) number }
{
    let document = if stamp.place.stamp == 0 {
        Some(number)
    } else {
        None
    };
    Verdict::NotCovered {
        chain: stamp.place.chain,
        stamp: stamp.place.stamp,
        document,
    }
}

fn first_uncovered(alloc: Global, owed: &Owed<'_, '_>) -> Result<Option<u32>, AllocError>
    ensures { IfOk result (λ number. number
        ≡ position_from (λ v. not (covers (checked_seen owed.now.stamp) v)) 0 owed.now.values.items) }
{
    let says = &owed.stamp.says;
    match &owed.stamp.place.ats.lists {
        Some(lists) => {
            let rooted = is_root(alloc, says.alg, lists, says.imprint)?;
            Ok(first_outside(lists, rooted, owed.values.as_slice()))
        }
        None => Ok(first_other(says.imprint, owed.values.as_slice())),
    }
}

// The first value that is not this one.
fn first_other(imprint: &[u8], values: &[HashValue]) -> Option<u32>
    requires { length values.now ≤ 64 }
    ensures { result ≡ position_from (λ v. not (bytes_eq imprint.now v)) 0 values.now }
{
    let mut number = 0;
    for value in values {
        if imprint != value.bytes() {
            return Some(number);
        }
        number += 1;
    }
    None
}

// The first value that is not in the first list, or the first of all where the lists lead elsewhere.
fn first_outside(lists: &Items<Items<HashValue>>, rooted: bool, values: &[HashValue]) -> Option<u32>
    requires some { 0 < length lists.now }
    requires few { length values.now ≤ 64 }
    ensures { result ≡ position_from (λ v. not (has (first_of lists.now) v && rooted)) 0 values.now }
{
    let mut number = 0;
    for value in values {
        if !(has(lists, value) && rooted) {
            return Some(number);
        }
        number += 1;
    }
    None
}

fn has(lists: &Items<Items<HashValue>>, value: &HashValue) -> bool
    requires { 0 < length lists.now }
    ensures { result ≡ has (first_of lists.now) value.now }
{
    contains_first(lists, value)
}

// Whether the lists lead to this value.
fn is_root(
    alloc: Global,
    alg: HashAlg,
    lists: &Items<Items<HashValue>>,
    imprint: &[u8],
) -> Result<bool, AllocError>
    requires some { 0 < length lists.now }
    requires full { AreFull lists.now }
    ensures { IfOk result (λ rooted. rooted ≡ is_root alg lists.now imprint.now) }
{
    let roots = roots(alloc, alg, lists)?;
    Ok(imprint == roots.plain.bytes() || is_other(&roots.other, imprint))
}

fn is_other(root: &Option<HashValue>, imprint: &[u8]) -> bool
    ensures { result ≡ is_other root.now imprint.now }
{
    match root {
        Some(root) => imprint == root.bytes(),
        None => false,
    }
}
