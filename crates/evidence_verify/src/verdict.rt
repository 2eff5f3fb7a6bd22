use civil_moment::Moment;
use evidence_syntax::SyntaxKind;
use token_check::Check;

/// Whether documents have to be all that the first lists of the chains have.
#[derive(Clone, Copy, Debug, PartialEq, Eq)]
pub enum Mode {
    /// They are members: the first list of a chain may have further values.
    Member,
    /// They are the whole: each value of a chain's first list is that of a document.
    Whole,
}

/// What ended before the time-stamp after it came.
#[derive(Clone, Copy, Debug, PartialEq, Eq)]
pub enum Cause {
    /// The key of the authority.
    Key,
    /// The hash of the chain, of which the time-stamp is the last.
    Hash,
}

/// A time-stamp whose successor came too late: not before this end.
#[derive(Clone, Copy, Debug, PartialEq, Eq)]
pub struct Lapse {
    /// The number of its chain.
    pub chain: u32,
    /// Its number in the chain.
    pub stamp: u32,
    pub cause: Cause,
    pub end: Moment,
}

/// What becomes of an evidence record. The faults are tried in this order; the first time-stamp is blamed, by chain and
/// then by its number in the chain, and of that one the first document. Numbers count from 0.
#[derive(Clone, Copy, Debug, PartialEq, Eq)]
pub enum Verdict {
    /// The record holds.
    Valid,
    /// The bytes are no evidence record. This is their first fault.
    Syntax {
        place: u64,
        kind: SyntaxKind,
    },
    /// The token fails this check.
    BadStamp {
        chain: u32,
        stamp: u32,
        check: Check,
    },
    /// The hash of the imprint is not the one that the archive time-stamp names, or not that of the chain's first.
    MixedHash {
        chain: u32,
        stamp: u32,
    },
    /// The time is before that of the time-stamp before it.
    OutOfOrder {
        chain: u32,
        stamp: u32,
    },
    /// The first time-stamp of a chain does not cover the value of this document, or a later one not the time-stamp
    /// before it.
    NotCovered {
        chain: u32,
        stamp: u32,
        document: Option<u32>,
    },
    /// The first list of the chain's first time-stamp has a value that is no document's.
    NotWhole {
        chain: u32,
    },
    /// The moment is before the time of the last time-stamp.
    Early {
        moment: Moment,
        last: Moment,
    },
    /// The successor of a time-stamp came too late, or the moment, for the last.
    Lapsed(Lapse),
}
