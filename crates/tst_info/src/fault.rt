ghost use Rattle.std.specs.Prelude.{◌≡◌};

use civil_moment::TimeFault;
use der_values::{DerFault, DerKind};

/// What is wrong with the bytes of a time-stamp info or request.
#[derive(Clone, Copy, Debug, PartialEq, Eq)]
pub enum TstKind {
    /// The encoding; a BOOLEAN that says FALSE, which is a default, is a bad value.
    Der(DerKind),
    /// The version is an INTEGER, and not 1. The place is that of its tag.
    Version,
    /// The time is no generalized time, by its text. The place is that of its tag. Memory is never the fault, since
    /// reading takes none.
    Time(TimeFault),
}

/// The first fault, and the place where it stands.
#[derive(Clone, Copy, Debug, PartialEq, Eq)]
pub struct TstFault {
    pub place: u64,
    pub kind: TstKind,
}

impl TstFault {
    pub(crate) fn at(place: u64, kind: TstKind) -> TstFault
        ensures { result ≡ record { place = place; kind = kind } }
    {
        TstFault { place, kind }
    }
}

impl From<DerFault> for TstFault {
    ghost use Rattle.tst_info.specs.Checks.{der};

    ghost from_gives = { λ e f. f ≡ der e };

    fn from(e: DerFault) -> TstFault {
        TstFault::at(e.place, TstKind::Der(e.kind))
    }
}

/// Why a response has no token.
#[derive(Clone, Copy, Debug, PartialEq, Eq)]
pub enum RespFault {
    /// The encoding; a status that is not one octet below 128 is a bad value.
    Der(DerFault),
    /// The status is neither granted (0) nor granted with modifications (1). Nothing behind it is looked at.
    NotGranted(u8),
    /// The status grants, and nothing follows it.
    NoToken,
}

impl From<DerFault> for RespFault {
    ghost use Rattle.tst_info.specs.declared.fault.RespFault.TheVariants.{Der};

    ghost from_gives = { λ e f. f ≡ Der e };

    fn from(e: DerFault) -> RespFault {
        RespFault::Der(e)
    }
}
