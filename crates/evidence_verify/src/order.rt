// The order of times.
ghost use Rattle.std.specs.Prelude.{◌≡◌, map};
ghost use Rattle.evidence_verify.specs.Order.{order_after, order_fault, early_fault};
ghost use Rattle.evidence_verify.specs.Inside.{checked_seen};

use crate::stamps::Checked;
use crate::verdict::Verdict;
use civil_moment::{Moment, is_before};

/// The first time-stamp that is before the one before it.
pub(crate) fn order_fault(stamps: &[Checked<'_, '_>]) -> Option<Verdict>
    ensures { result ≡ order_fault (map checked_seen stamps.now) }
{
    match stamps.split_first() {
        Some((first, later)) => order_after(first.says.time, later),
        None => None,
    }
}

fn order_after(first: Moment, stamps: &[Checked<'_, '_>]) -> Option<Verdict>
    ensures { result ≡ order_after first (map checked_seen stamps.now) }
{
    let mut before = first;
    for stamp in stamps {
        if is_before(&stamp.says.time, &before) {
            return Some(Verdict::OutOfOrder {
                chain: stamp.place.chain,
                stamp: stamp.place.stamp,
            });
        }
        before = stamp.says.time;
    }
    None
}

/// The moment, where it is before the last time.
pub(crate) fn early_fault(moment: Moment, stamps: &[Checked<'_, '_>]) -> Option<Verdict>
    ensures { result ≡ early_fault moment (map checked_seen stamps.now) }
{
    let stamp = stamps.last()?;
    let last = stamp.says.time;
    if is_before(&moment, &last) {
        Some(Verdict::Early { moment, last })
    } else {
        None
    }
}
