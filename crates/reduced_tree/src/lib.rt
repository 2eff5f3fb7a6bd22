//! Reduced hash trees: the roots that lists of hash values lead to, and what their first list has.
#![tactic(auto)]

mod folding;
mod members;
mod results;

pub use folding::roots;
pub use members::{contains_first, is_whole};
pub use results::Roots;

#[cfg(test)]
mod tests;
