//! Moments as generalized time: each moment from 1970 to 9999 has one text, which is read and written exactly.
#![tactic(auto)]

mod fault;
pub mod laws;
mod moment;
mod order;
mod reading;
#[cfg(test)]
mod tests;
mod writing;

pub use fault::TimeFault;
pub use moment::Moment;
pub use order::{is_before, moment_cmp};
pub use reading::read_generalized;
pub use writing::{add_generalized, write_generalized};
