ghost use Rattle.std.specs.Prelude.{◌≡◌};
ghost use Rattle.archive_store.specs.declared.fault.Outside.TheVariants as outside;
ghost use Rattle.archive_store.specs.InsideFaults.{outside_fault};

use archive_chain::Refusal;
use hash_kit::HashValue;
use std::alloc::{AllocError, AllocFailed};

/// Why a call of the store was refused. Entries are numbered from 0, lengths are in bytes.
#[derive(Debug, Drop)]
pub enum StoreFault {
    /// The disk failed in this call, and counted it.
    DiskFault,
    /// A journal with an entry is there.
    Occupied,
    /// There are fewer than 17 bytes, or another header.
    NotFormatted,
    /// Behind an open gate the length passes the greatest one, or its frame with the next gate passes the end of the file or the limit
    /// of a journal.
    BadLength {
        entry: u64,
        length: u64,
    },
    /// The digest that the frame keeps is not that of its payload.
    Damaged {
        entry: u64,
        kept: HashValue,
        found: HashValue,
    },
    /// The payload is no entry: this is the place of the first byte that no spelling of an entry has after the bytes before it.
    BadEntry {
        entry: u64,
        place: u64,
    },
    /// The entry breaks this rule first after those before it.
    Illegal {
        entry: u64,
        rule: Refusal,
    },
    /// The entry breaks this rule first, or the journal would pass its limit.
    Refused(Refusal),
    /// The step with this number has failed. No more is taken until the store is opened again.
    Closed {
        place: u64,
    },
    /// There are so many groups, and none with this number.
    Unknown {
        id: u32,
        groups: u32,
    },
    /// Memory was wanting.
    Memory,
}

/// What comes from the outside and not from what was asked.
#[derive(Clone, Copy, Debug, Drop)]
pub(crate) enum Outside {
    /// The disk failed.
    DiskFault,
    /// Memory was wanting.
    Memory,
}

impl From<AllocError> for Outside {
    ghost from_gives = { λ _ e. e ≡ outside.Memory };

    fn from(_: AllocError) -> Self {
        Outside::Memory
    }
}

impl<T: Drop> From<AllocFailed<T>> for Outside {
    ghost from_gives = { λ _ e. e ≡ outside.Memory };

    fn from(_: AllocFailed<T>) -> Self {
        Outside::Memory
    }
}

/// What came from the outside, as an answer of the store.
pub(crate) fn of_outside(outside: Outside) -> StoreFault
    ensures { result ≡ outside_fault outside }
{
    match outside {
        Outside::DiskFault => StoreFault::DiskFault,
        Outside::Memory => StoreFault::Memory,
    }
}
