//! The evidence record of a group of an archive (RFC 4998, 3.1): when it is given, and when it holds.
#![tactic(auto)]

mod fault;
mod hashes;
mod issuing;
pub mod laws;
mod marks;
mod reason;

pub use fault::IssueFault;
pub use issuing::issue;
