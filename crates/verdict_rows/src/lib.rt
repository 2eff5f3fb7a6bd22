//! Evidence records over tokens of trial authorities, written around them by rows of plain data, and the verdict that each
//! row has to have.
#![tactic(auto)]

mod fault;
mod policies;
mod records;
mod rows;
mod tokens;
mod values;

pub use fault::Unmade;
pub use policies::{EARLY_CERTIFICATE, LATE_CERTIFICATE, Terms, USUAL, policy};
pub use records::{StampRow, record, sequence};
pub use rows::{ABC, IN_2027, MEMBER, Row, found, judged};
pub use tokens::{FIRST, Made, SECOND, THIRD, at, authority, pair};
pub use values::{ascending, later_value, root, sha256, sha512};

#[cfg(test)]
mod cover_tests;
#[cfg(test)]
mod lapse_tests;
#[cfg(test)]
mod renewal_tests;
#[cfg(test)]
mod syntax_tests;
#[cfg(test)]
mod tests;
#[cfg(test)]
mod token_tests;
