//! The texts of a session: an input is read exactly as it is spelled, or refused for its first fault from the left, and a
//! verdict or a refusal is written as its one text.
#![tactic(auto)]

mod fault_text;
pub mod laws;
mod line;
mod refusal_text;
mod shape;
mod text;
mod verdict_text;
mod verify_input;

pub use fault_text::{write_policy_fault, write_shape_fault};
pub use line::{
    LONGEST_LINE, add_counted, add_hash, add_hex, add_moment, add_number, add_numbers, add_words,
    end_line,
};
pub use refusal_text::{add_full, add_refusal};
pub use shape::{ShapeFault, ShapeKind};
pub use verdict_text::write_verdict;
pub use verify_input::{VerifyInput, read_verify};

#[cfg(test)]
mod refusal_tests;
#[cfg(test)]
mod tests;
