/// What an entry does.
#[derive(Clone, Copy, Debug, PartialEq, Eq)]
pub(crate) enum Kind {
    Deposit,
    Seal,
    RenewStamps,
    RenewTrees,
    SetPolicy,
}
