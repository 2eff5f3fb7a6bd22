//! Policies as texts: until when each hash algorithm and each authority is good, each policy in its one spelling.
#![tactic(auto)]

mod fault;
mod keeping;
pub mod laws;
mod line;
mod policy;
mod policy_line;
mod reading;
mod signer;
#[cfg(test)]
mod tests;
mod word;
mod writing;

pub use fault::{LineFault, PolicyFault, PolicyKind};
pub use keeping::keeps;
pub use policy::Policy;
pub use reading::{LONGEST_POLICY, read_policy};
pub use signer::Signer;
pub use writing::write_policy;
