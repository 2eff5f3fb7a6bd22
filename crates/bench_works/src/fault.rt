ghost use Rattle.std.specs.Prelude.{◌≡◌};
ghost use Rattle.bench_works.specs.declared.fault.BenchFault.TheVariants.{Memory};
ghost use Rattle.bench_works.specs.Faults.{of_input, of_policy, of_key};

use algorithm_policy::PolicyFault;
use lms_sign::SignFault;
use session_text::ShapeFault;
use std::alloc::AllocError;
use thiserror::Error;

/// Why nothing was repeated.
#[derive(Clone, Copy, Debug, PartialEq, Eq, Drop, Error)]
pub enum BenchFault {
    /// The input is no verification.
    #[error("the input is no verification")]
    NoVerification,
    /// The text of the policy is none.
    #[error("the policy is none")]
    NoPolicy,
    /// The record is none, or its first token is none, or the policy has no authority of the token's signer.
    #[error("the record has no first token of an authority of the policy")]
    NoSignature,
    /// The key has fewer leaves than signatures were asked for.
    #[error("the key has no leaf for this index")]
    NoLeaf,
    /// Memory was wanting.
    #[error("out of memory")]
    Memory,
}

impl From<AllocError> for BenchFault {
    ghost from_gives = { λ _ e. e ≡ Memory };

    fn from(_: AllocError) -> Self {
        BenchFault::Memory
    }
}

impl From<ShapeFault> for BenchFault {
    ghost from_gives = { λ fault e. e ≡ of_input fault };

    fn from(fault: ShapeFault) -> Self {
        match fault {
            ShapeFault::At { .. } => BenchFault::NoVerification,
            ShapeFault::Memory => BenchFault::Memory,
        }
    }
}

impl From<PolicyFault> for BenchFault {
    ghost from_gives = { λ fault e. e ≡ of_policy fault };

    fn from(fault: PolicyFault) -> Self {
        match fault {
            PolicyFault::At { .. } => BenchFault::NoPolicy,
            PolicyFault::Memory => BenchFault::Memory,
        }
    }
}

impl From<SignFault> for BenchFault {
    ghost from_gives = { λ fault e. e ≡ of_key fault };

    fn from(fault: SignFault) -> Self {
        match fault {
            SignFault::Exhausted => BenchFault::NoLeaf,
            SignFault::Memory => BenchFault::Memory,
        }
    }
}
