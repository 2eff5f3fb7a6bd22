ghost use Rattle.std.specs.Prelude.{◌≡◌};
ghost use Rattle.verdict_rows.specs.declared.fault.Unmade.TheVariants.{Memory};

use std::alloc::{AllocError, AllocFailed};

/// Why evidence was not made.
#[derive(Clone, Copy, Debug, PartialEq, Eq)]
pub enum Unmade {
    /// The authority gave no token.
    Token,
    /// The record would have 2^32 bytes or more.
    TooLong,
    /// A row names a token or a value that was not made, or has not 1 to 64 documents.
    Row,
    /// The policy of a row is none.
    Policy,
    /// There was no memory.
    Memory,
}

impl From<AllocError> for Unmade {
    ghost from_gives = { λ _ f. f ≡ Memory };

    fn from(_e: AllocError) -> Unmade {
        Unmade::Memory
    }
}

impl<T: Drop> From<AllocFailed<T>> for Unmade {
    ghost from_gives = { λ _ f. f ≡ Memory };

    fn from(_e: AllocFailed<T>) -> Unmade {
        Unmade::Memory
    }
}
