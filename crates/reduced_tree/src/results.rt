use hash_kit::HashValue;

/// The roots that the lists of a reduced hash tree lead to.
#[derive(Clone, Copy, Debug, Drop)]
pub struct Roots {
    /// From the node of the first list.
    pub plain: HashValue,
    /// From the digest of the first list's value, where it has one alone.
    pub other: Option<HashValue>,
}
