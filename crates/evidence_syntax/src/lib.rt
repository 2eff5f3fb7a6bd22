//! Evidence records of RFC 4998: bytes are one exactly where the grammar says so, each has one meaning, and what is
//! written is the one spelling and is read again.
#![tactic(auto)]

mod checks;
mod fault;
pub mod laws;
mod lists;
mod record_bytes;
mod sizes;
mod stamps;
mod values;
mod writing;

pub use checks::MOST_STAMPS;
pub use fault::{SyntaxFault, SyntaxKind};
pub use record_bytes::{EvRecord, LONGEST_RECORD, read_record};
pub use sizes::{record_size, sequence_size};
pub use stamps::{Ats, Chain};
pub use values::{OlderChains, document_values};
pub use writing::{write_record, write_sequence};

#[cfg(test)]
mod tests;
