//! HSS/LMS signatures: a signature verifies under a key exactly where RFC 8554 says so, for every string of bytes.
#![tactic(auto)]

mod hashing;
mod hss;
mod key;
mod lms;
mod ots;
#[cfg(test)]
mod tests;

pub use hashing::{INNER, LEAF, MESSAGE, ONE_TIME_KEY, hash, marked};
pub use hss::hss_verify;
pub use key::height_of;
pub use ots::{OtsSet, after_steps, coef, greatest, set_of, with_checksum};
