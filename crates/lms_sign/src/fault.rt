ghost use Rattle.std.specs.Prelude.{◌≡◌};
ghost use Rattle.lms_sign.specs.declared.fault.SignFault.TheVariants.{Memory};

use std::alloc::AllocError;
use thiserror::Error;

/// Why a key gave no signature.
#[derive(Clone, Copy, Debug, PartialEq, Eq, Drop, Error)]
pub enum SignFault {
    /// The index isn't below the number of the key's leaves.
    #[error("the key has no leaf for this index")]
    Exhausted,
    /// Memory was wanting.
    #[error("out of memory")]
    Memory,
}

impl From<AllocError> for SignFault {
    ghost from_gives = { λ _ e. e ≡ Memory };

    fn from(_: AllocError) -> Self {
        SignFault::Memory
    }
}
