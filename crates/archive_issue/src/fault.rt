ghost use Rattle.std.specs.Prelude.{◌≡◌};
ghost use Rattle.archive_issue.specs.declared.fault.IssueFault.TheVariants.{Memory};

use civil_moment::Moment;
use evidence_verify::Lapse;
use std::alloc::AllocError;

/// Why the record of a group isn't given. The causes are tried in this order.
#[derive(Clone, Copy, Debug, PartialEq, Eq)]
pub enum IssueFault {
    /// The archive has only so many groups.
    Unknown { id: u32, groups: u32 },
    /// No entry covers the group yet.
    Pending { id: u32 },
    /// The moment is before the group's last time-stamp.
    Early { moment: Moment, last: Moment },
    /// The successor of this time-stamp came too late; it is the first such.
    Lapsed(Lapse),
    /// There was no memory.
    Memory,
}

impl From<AllocError> for IssueFault {
    ghost from_gives = { λ _ fault. fault ≡ Memory };

    fn from(_error: AllocError) -> IssueFault {
        IssueFault::Memory
    }
}
