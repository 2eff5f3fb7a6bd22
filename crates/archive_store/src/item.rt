use entry_codec::Entry;

/// What a store tells, in the order in which it came. Contracts speak of it; no value of it is made.
#[derive(Debug, Drop)]
pub enum Item {
    /// An entry that was on the disk when the store was opened, or that a step has put there.
    Entry(Entry),
    /// A fetch that the disk failed.
    ReadFault,
    /// The step that the disk failed. Its entry is on the disk, or it isn't.
    StepFault,
}
