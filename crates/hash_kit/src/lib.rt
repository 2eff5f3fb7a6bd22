//! Hash algorithms, hash values, digests, hash tree nodes and HSS public keys: a digest is the standard's function of
//! the message, a node hashes its values in ascending order, and bytes are a key exactly where they have its shape.
#![tactic(auto)]

mod algorithm;
mod hashing;
mod key;
pub mod laws;
mod nodes;
#[cfg(test)]
mod tests;
mod value;

pub use algorithm::HashAlg;
pub use hashing::{Hasher, digest};
pub use key::{HssPublic, KeyFault, has_types, u32_at};
pub use nodes::node;
pub use value::HashValue;
