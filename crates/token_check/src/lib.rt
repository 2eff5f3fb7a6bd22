//! Sound time-stamp tokens: a token is accepted exactly where it is sound under a policy, with what it says, and is
//! else refused for the first condition that fails.
#![tactic(auto)]

mod fault;
pub mod laws;
mod token;

pub use cms_signed::known_hash;
pub use fault::{Check, ReplyFault, TokenFault};
pub use token::{CheckedStamp, check_token};

#[cfg(test)]
mod tests;
