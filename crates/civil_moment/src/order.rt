ghost use Rattle.std.specs.Prelude.{◌≡◌};
ghost use Rattle.civil_moment.specs.Moment.{moment_order, is_before};

use crate::moment::Moment;
use std::cmp::Ordering;

/// Which of two moments is earlier: the seconds decide, and else the billionths.
pub fn moment_cmp(a: &Moment, b: &Moment) -> Ordering
    ensures { result ≡ moment_order a.now b.now }
{
    a.seconds.cmp(&b.seconds).then(a.nanos.cmp(&b.nanos))
}

/// Whether the first moment is earlier.
pub fn is_before(a: &Moment, b: &Moment) -> bool
    ensures { result ≡ is_before a.now b.now }
{
    moment_cmp(a, b) == Ordering::Less
}
