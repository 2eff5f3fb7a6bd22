use der_values::{Bytes, Items};

/// Where a document lies in the payload of its deposit: the place of its first byte, and how many there are.
#[derive(Clone, Copy, Debug, PartialEq, Eq, Drop)]
pub struct Place {
    pub from: u32,
    pub size: u32,
}

/// The groups of a deposit by the places of their documents in its payload.
#[derive(Debug, Drop)]
pub struct DepositPlaces {
    /// How many documents each group has, 1 to 64.
    pub counts: Bytes,
    /// The places of all documents, group by group.
    pub places: Items<Place>,
    /// How many bytes the documents have together.
    pub bytes: u64,
}
