//! The leaves of new chains: a group's leaf in the tree of a seal or of a renewal, and the lists that lead from its values to
//! the root.
#![tactic(auto)]

pub mod laws;
mod leaves;
mod lists;

pub use leaves::{renewed_values, seal_leaf};
pub use lists::lists_of;

#[cfg(test)]
mod tests;
