//! Hash trees over leaves: their root, and the path of each leaf.
#![tactic(auto)]

pub mod laws;
mod levels;
mod tree;

pub use tree::LevelTree;

#[cfg(test)]
mod tests;
