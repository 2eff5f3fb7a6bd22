//! Signed time-stamps in CMS: bytes are one exactly where the grammar holds, else the first fault is named, and what
//! is written is read again.
#![tactic(auto)]

mod algorithms;
mod attributes;
mod certificate;
mod fault;
pub mod laws;
mod signers;
mod token;
mod writing;

pub use algorithms::known_hash;
pub use fault::{AttrKind, CmsFault};
pub use token::{Signed, read_signed, signed_bytes};
pub use writing::{Unsigned, attrs_to_sign, write_signed};

#[cfg(test)]
mod fault_tests;
#[cfg(test)]
mod order_tests;
#[cfg(test)]
mod pieces;
#[cfg(test)]
mod tests;
#[cfg(test)]
mod writing_tests;
