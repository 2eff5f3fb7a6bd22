use der_values::{Bytes, Items};
use hash_kit::HashAlg;
use object_groups::Group;

/// One step of the archive.
#[derive(Debug, Drop)]
pub enum Entry {
    /// Groups of documents: 1 to 64, of at most 8,388,608 bytes together.
    Deposit {
        groups: Items<Group>,
    },
    /// The first time-stamp of so many pending groups, which are the leaves of its tree in their order.
    Seal {
        hash: HashAlg,
        count: u32,
        token: Bytes,
    },
    /// A further time-stamp in the chains of these cohorts, which ascend strictly (RFC 4998, 5.2).
    RenewStamps {
        hash: HashAlg,
        cohorts: Items<u32>,
        token: Bytes,
    },
    /// A new chain for the groups of these cohorts, which ascend strictly (RFC 4998, 5.2).
    RenewTrees {
        hash: HashAlg,
        cohorts: Items<u32>,
        token: Bytes,
    },
    /// The text of the policy that is in force from here on.
    SetPolicy {
        text: Bytes,
    },
}
