//! An archive on a disk: each step is acknowledged once its entry is on the disk, documents are read back from there, and a crash at any
//! moment leaves the steps that were acknowledged and at most one more.
#![tactic(auto)]

mod catalogue;
mod empty;
mod fault;
mod fetching;
mod item;
pub mod laws;
mod leaves;
mod opening;
mod places;
mod reading;
mod replay;
mod row;
mod stepping;
mod store;
mod taking;

pub use empty::create;
pub use fault::StoreFault;
pub use item::Item;
pub use store::Store;

#[cfg(test)]
mod tests;
