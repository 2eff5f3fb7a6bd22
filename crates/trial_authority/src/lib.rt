//! An authority for trials: it stamps with a key from a public seed, each time by an index that was never used, and what it grants is
//! a sound token; and a pair of authorities that takes turns at a moment.
#![tactic(auto)]

mod asked;
mod authority;
mod indexes;
mod key;
mod pair;
mod reply;
mod signer;
mod stamping;

pub use authority::TrialAuthority;
pub use key::{TRIAL_SEED, trial_public};
pub use pair::TrialPair;
pub use signer::trial_signer;

#[cfg(test)]
mod tests;
