//! DER values: each has one spelling, and bytes that spell none have a first fault with its place.
#![tactic(auto)]

mod algorithm;
mod bytes;
pub mod example;
mod fault;
mod header;
mod items;
pub mod laws;
mod order;
mod reader;
mod tlv;
mod typed;
mod writing;

pub use algorithm::{AlgName, read_algorithm};
pub use bytes::{Bytes, are_octets, zeros};
pub use fault::{DerFault, DerKind};
pub use items::Items;
pub use order::set_order;
pub use reader::Reader;
pub use tlv::{Tlv, content_of, whole_of};
pub use typed::{read_boolean, read_integer, read_oid};
pub use writing::{tlv_bytes, write_algorithm, write_if_there, write_tlv};

#[cfg(test)]
mod tests;
