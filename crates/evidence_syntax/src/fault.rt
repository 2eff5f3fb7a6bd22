ghost use Rattle.std.specs.Prelude.{◌≡◌};
ghost use Rattle.evidence_syntax.specs.declared.fault.SyntaxFault.TheVariants.{At, Memory};

use der_values::{DerFault, DerKind};
use std::alloc::{AllocError, AllocFailed};

/// What is wrong with the bytes of an evidence record.
#[derive(Clone, Copy, Debug, PartialEq, Eq)]
pub enum SyntaxKind {
    /// The encoding.
    Der(DerKind),
    /// The version is an INTEGER, and not 1. The place is that of its tag.
    Version,
    /// A sequence, a chain, a reduced hash tree or a list of it is empty. The place is that of its tag.
    Empty,
    /// A value of a reduced hash tree has not 1 to 64 bytes. The place is that of its tag.
    ValueLength,
    /// The time-stamp is the 201st of the record. The place is that of its tag.
    TooMany,
    /// The bytes are more than 16,777,216. The place is 0.
    TooLong,
}

/// Why there is no evidence record.
#[derive(Clone, Copy, Debug, PartialEq, Eq)]
pub enum SyntaxFault {
    /// The first fault of the bytes, and the place where it stands.
    At { place: u64, kind: SyntaxKind },
    /// There was no memory. It says nothing of the bytes.
    Memory,
}

impl SyntaxFault {
    pub(crate) fn at(place: u64, kind: SyntaxKind) -> SyntaxFault
        ensures { result ≡ At place kind }
    {
        SyntaxFault::At { place, kind }
    }
}

impl From<DerFault> for SyntaxFault {
    ghost use Rattle.evidence_syntax.specs.Checks.{der};

    ghost from_gives = { λ e f. f ≡ der e };

    fn from(e: DerFault) -> SyntaxFault {
        SyntaxFault::at(e.place, SyntaxKind::Der(e.kind))
    }
}

impl From<AllocError> for SyntaxFault {
    ghost from_gives = { λ _ e. e ≡ Memory };

    fn from(_e: AllocError) -> SyntaxFault {
        SyntaxFault::Memory
    }
}

impl<T: Drop> From<AllocFailed<T>> for SyntaxFault {
    ghost from_gives = { λ _ e. e ≡ Memory };

    fn from(_e: AllocFailed<T>) -> SyntaxFault {
        SyntaxFault::Memory
    }
}
