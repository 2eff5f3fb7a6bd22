use entry_codec::{DepositPlaces, Entry};
use std::snapshot::Snapshot;

/// What is kept of an entry: of a deposit the places of its documents, of another kind nothing at run time.
#[derive(Drop)]
pub(crate) enum Stored {
    OnDisk(DepositPlaces),
    Whole(Snapshot<Entry>),
}

/// An entry, and how many reads failed between the one before and it.
#[derive(Drop)]
pub(crate) struct Row {
    pub(crate) marks: u32,
    pub(crate) entry: Stored,
}

/// Where a group is found: the number of its deposit, and its number there.
#[derive(Clone, Copy, Debug, Drop)]
pub(crate) struct Home {
    pub(crate) entry: u32,
    pub(crate) number: u8,
}
