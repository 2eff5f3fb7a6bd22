//! The archive in memory: a history of deposits, seals, renewals and policies, the rules by which an entry may follow, and
//! what an archive keeps of them without the documents.
#![tactic(auto)]

mod archive;
mod changes;
mod cohort;
mod counting;
mod coverings;
mod covers;
mod deposits;
mod joining;
mod latest;
pub mod laws;
mod lengthening;
mod peak;
mod pieces;
mod policy_rules;
mod ready;
mod refusal;
mod reserve;
mod room;
mod row;
mod sequence;
mod shape;
mod stamped;
mod time_stamp;
mod token_rules;

pub use archive::Archive;
pub use coverings::Covering;
pub use ready::Ready;
pub use refusal::{Full, Refusal};

#[cfg(test)]
mod tests;
