/// Why documents are no group.
#[derive(Clone, Copy, Debug, PartialEq, Eq, Drop)]
pub enum GroupFault {
    /// There is none.
    NoDocuments,
    /// There are so many, and not at most 64.
    TooMany(u32),
    /// The first document that has more than 1,048,576 bytes, by its place.
    DocumentLong(u32),
    /// They have so many bytes together, and not at most 4,194,304.
    TooLong(u64),
}
