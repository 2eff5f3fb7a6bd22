//! Time-stamp infos, requests and responses of RFC 3161: bytes are one exactly where the grammar says so, each has one
//! meaning, and what is written is the one spelling and is read again.
#![tactic(auto)]

mod checks;
mod fault;
mod imprint;
mod info;
pub mod laws;
mod request;
mod response;
mod writing;

pub use fault::{RespFault, TstFault, TstKind};
pub use info::{TstInfo, read_tst, write_tst};
pub use request::{StampRequest, read_request, write_request};
pub use response::{read_response, write_response};

#[cfg(test)]
mod tests;
