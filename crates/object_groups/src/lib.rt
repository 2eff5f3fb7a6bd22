//! Groups of documents within the archive's limits, with their hash values and their node.
#![tactic(auto)]

mod fault;
mod group;
mod hashes;
pub mod laws;
mod limits;

pub use fault::GroupFault;
pub use group::Group;
pub use hashes::{group_node, hash_values};
pub use limits::{LONGEST_DOCUMENT, MOST_BYTES, MOST_DOCUMENTS};

#[cfg(test)]
mod tests;
