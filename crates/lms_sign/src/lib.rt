//! HSS/LMS signing: a key comes from a seed, and each of its signatures is the one that RFC 8554 describes and verifies
//! under its public key.
#![tactic(auto)]

mod fault;
mod key;
pub mod laws;
mod ots;
mod secret;
#[cfg(test)]
mod tests;
mod tree;

pub use fault::SignFault;
pub use key::{HssKey, from_seed};
