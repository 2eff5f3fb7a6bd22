ghost use Rattle.std.specs.Prelude.{◌≡◌};
ghost use Rattle.algorithm_policy.specs.Inside.{fault_at};

use std::alloc::AllocError;

/// What is wrong with a line of a policy text, in the order of the checks on it.
#[derive(Clone, Copy, Debug, PartialEq, Eq, Drop)]
pub enum PolicyKind {
    /// The first line is not `evidence policy 1`, ended by a line feed.
    Header,
    /// The line is of none of the two forms, it names an unknown hash algorithm, or no line feed ends it.
    Form,
    /// The name is not 1 to 32 of a to z, 0 to 9 and the hyphen.
    Name,
    /// The identifier, the key or the certificate's hash is not in lower-case hexadecimal digits, two a byte.
    Hex,
    /// The identifier is not one DER value of tag 30 or 80 and of at most 1,024 bytes.
    Sid,
    /// The key is no HSS public key.
    Key,
    /// The certificate's hash has not 32 bytes.
    Cert,
    /// The end is no generalized time.
    Date,
    /// The line stands after an equal or greater name, after an equal or later hash algorithm, or it is one of a hash
    /// algorithm after one of an authority.
    Order,
    /// The identifier stands in an earlier line.
    Twice,
    /// It is the 65th authority.
    TooMany,
}

/// Why no policy was read.
#[derive(Clone, Copy, Debug, PartialEq, Eq, Drop)]
pub enum PolicyFault {
    /// The first fault of the text. Lines count from 1.
    At { line: u32, kind: PolicyKind },
    /// Memory ran out.
    Memory,
}

/// Why a line, or the authority that it would name, can't be taken in.
#[derive(Clone, Copy, Debug, PartialEq, Eq, Drop)]
pub enum LineFault {
    /// The line's first fault.
    Is(PolicyKind),
    /// Memory ran out.
    Memory,
}

impl LineFault {
    /// The fault of the text, of which this is the line's.
    pub(crate) fn at(self, line: u32) -> PolicyFault
        ensures { result ≡ fault_at line self }
    {
        match self {
            LineFault::Is(kind) => PolicyFault::At { line, kind },
            LineFault::Memory => PolicyFault::Memory,
        }
    }
}

impl From<AllocError> for LineFault {
    ghost use Rattle.std.specs.Prelude.{◌≡◌};
    ghost use Rattle.algorithm_policy.specs.declared.fault.LineFault.TheVariants.{Memory};

    ghost from_gives = { λ _ f. f ≡ Memory };

    fn from(_e: AllocError) -> LineFault {
        LineFault::Memory
    }
}

impl From<AllocError> for PolicyFault {
    ghost use Rattle.std.specs.Prelude.{◌≡◌};
    ghost use Rattle.algorithm_policy.specs.declared.fault.PolicyFault.TheVariants.{Memory};

    ghost from_gives = { λ _ f. f ≡ Memory };

    fn from(_e: AllocError) -> PolicyFault {
        PolicyFault::Memory
    }
}
