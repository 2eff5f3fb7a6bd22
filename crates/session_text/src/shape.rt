// What is wrong with the text of an input, and where.
ghost use Rattle.std.specs.Prelude.{◌≡◌};
ghost use Rattle.session_text.specs.declared.shape.ShapeFault.TheVariants.{At, Memory};

use std::alloc::{AllocError, AllocFailed};

/// What is wrong with the text of an input.
#[derive(Clone, Copy, Debug, PartialEq, Eq)]
pub enum ShapeKind {
    /// The word is none of those that may stand there, or a separator is another byte than the space or line feed that has
    /// to stand there.
    Word,
    /// The word is no number: one to twenty decimal digits without a sign or a leading zero.
    Number,
    /// The number is out of its range, or there is one part too many. The place is that of the number, or of the part's word.
    Limit,
    /// The word is no generalized time.
    Moment,
    /// The input ends where something has to stand. The place is its length.
    Cut,
    /// Behind counted bytes stands another byte than a line feed.
    Mark,
}

/// Why an input is not of its form.
#[derive(Clone, Copy, Debug, PartialEq, Eq)]
pub enum ShapeFault {
    /// The first fault from the left, and the place where it stands.
    At { place: u64, kind: ShapeKind },
    /// There was no memory. It says nothing of the input.
    Memory,
}

impl ShapeFault {
    pub(crate) fn at(place: u64, kind: ShapeKind) -> ShapeFault
        ensures { result ≡ At place kind }
    {
        ShapeFault::At { place, kind }
    }
}

impl From<AllocError> for ShapeFault {
    ghost from_gives = { λ _ e. e ≡ Memory };

    fn from(_e: AllocError) -> ShapeFault {
        ShapeFault::Memory
    }
}

impl<T: Drop> From<AllocFailed<T>> for ShapeFault {
    ghost from_gives = { λ _ e. e ≡ Memory };

    fn from(_e: AllocFailed<T>) -> ShapeFault {
        ShapeFault::Memory
    }
}
