//! Verification of evidence records: the verdict is the first fault of any bytes, for given documents, mode, policy and
//! moment, or that the record holds.
#![tactic(auto)]

mod covering;
mod hashes;
mod judging;
mod lapse;
pub mod laws;
mod mark;
mod order;
mod owed;
mod place;
mod places;
mod stamps;
mod values;
mod verdict;
mod whole;

pub use judging::verify;
pub use lapse::first_lapse;
pub use mark::Mark;
pub use verdict::{Cause, Lapse, Mode, Verdict};

#[cfg(test)]
mod tests;
#[cfg(test)]
mod tokens;
