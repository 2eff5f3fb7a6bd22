//! The entries of a journal, each with its one spelling: a payload is read exactly where it spells an entry, and else refused at
//! the first byte that no spelling goes on with.
#![tactic(auto)]

mod deposit;
mod entry;
mod fault;
mod kind;
pub mod laws;
mod limits;
mod payload;
mod places;
mod reading;
mod writing;

pub use deposit::read_places;
pub use entry::Entry;
pub use fault::EntryFault;
pub use limits::{LONGEST_POLICY, LONGEST_TOKEN, MOST_DEPOSITED, MOST_GROUPS};
pub use places::{DepositPlaces, Place};
pub use reading::read_entry;
pub use writing::write_entry;

#[cfg(test)]
mod tests;
