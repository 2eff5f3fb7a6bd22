//! The leaves of a time-stamp renewal: the digest of the last token of each chain that is renewed.
#![tactic(auto)]

mod leaves;

pub use leaves::stamp_leaves;

#[cfg(test)]
mod tests;
