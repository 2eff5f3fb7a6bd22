ghost use Rattle.std.specs.Prelude.{◌≡◌};

/// What is wrong with the bytes, in the order of the checks on a value.
#[derive(Clone, Copy, Debug, PartialEq, Eq)]
pub enum DerKind {
    /// The bytes end inside a value, or where one has to stand. The place is after the last byte.
    Truncated,
    /// The length is of the indefinite form, which DER does not have (X.690, 10.1).
    Indefinite,
    /// The length says that more than four octets of it follow.
    LongForm,
    /// The tag goes on in further octets.
    HighTag,
    /// A length or an INTEGER is not in the fewest octets (X.690, 8.3.2 and 10.1).
    NotMinimal,
    /// Bytes are left after the last value. The place is that of the first of them.
    Trailing,
    /// The value has another tag than the one that has to stand there.
    WrongTag,
    /// The contents are none of the value's type.
    BadValue,
}

/// The first fault, and the place where it stands.
#[derive(Clone, Copy, Debug, PartialEq, Eq)]
pub struct DerFault {
    pub place: u64,
    pub kind: DerKind,
}

impl DerFault {
    /// The fault of this kind at the place.
    pub fn at(place: u64, kind: DerKind) -> DerFault
        ensures { result ≡ record { place = place; kind = kind } }
    {
        DerFault { place, kind }
    }
}
