//! Archives that are filled by spelled entries over tokens of trial authorities, and what is issued of their groups.
#![tactic(auto)]

mod filling;

pub use filling::{add, payload};

#[cfg(test)]
mod tests;
