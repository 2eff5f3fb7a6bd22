// Whether the chains cover nothing but the documents.
ghost use Rattle.std.specs.Prelude.{◌≡◌, map};
ghost use Rattle.evidence_verify.specs.Covers.{is_whole, not_whole, first_not_whole, whole_fault};
ghost use Rattle.evidence_verify.specs.Inside.{owed_seen};
ghost use Rattle.evidence_verify.specs.InsideChains.{IsTree};

use crate::owed::Owed;
use crate::verdict::{Mode, Verdict};
use der_values::Items;
use hash_kit::HashValue;

/// The first chain whose first list has a value that is no document's, where that is asked.
pub(crate) fn whole_fault(mode: Mode, all_owed: &[Owed<'_, '_>]) -> Option<Verdict>
    ensures { result ≡ whole_fault mode (map owed_seen all_owed.now) }
{
    match mode {
        Mode::Member => None,
        Mode::Whole => first_not_whole(all_owed),
    }
}

fn first_not_whole(all_owed: &[Owed<'_, '_>]) -> Option<Verdict>
    ensures { result ≡ first_not_whole (map owed_seen all_owed.now) }
{
    for owed in all_owed {
        if let Some(fault) = not_whole(owed) {
            return Some(fault);
        }
    }
    None
}

fn not_whole(owed: &Owed<'_, '_>) -> Option<Verdict>
    ensures { result ≡ not_whole (owed_seen owed.now) }
{
    let place = &owed.stamp.place;
    if place.stamp == 0 && !is_whole(&place.ats.lists, owed.values.as_slice()) {
        Some(Verdict::NotWhole { chain: place.chain })
    } else {
        None
    }
}

fn is_whole(lists: &Option<Items<Items<HashValue>>>, values: &[HashValue]) -> bool
    requires { IsTree lists.now }
    ensures { result ≡ is_whole lists.now values.now }
{
    match lists {
        Some(lists) => reduced_tree::is_whole(lists, values),
        None => true,
    }
}
