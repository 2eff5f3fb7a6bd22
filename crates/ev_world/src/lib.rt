//! What stands outside the archive: a source and a sink of bytes and a disk, each with a count of its faults; an authority that
//! stamps, with the list of its calls; and a pace for its clients.
#![tactic(auto)]

mod authority;
mod calls;
mod disk;
pub mod laws;
mod pace;
mod quiet;
mod streams;
mod synced;

pub use authority::{Authority, StampCall, StampFault};
pub use calls::StampCalls;
pub use disk::Disk;
pub use pace::Pace;
pub use quiet::{read, settle, size_of};
pub use streams::{Sink, Source};
pub use synced::write_synced;

/// The device has failed in this call, and has counted it.
#[derive(Clone, Copy, Debug, PartialEq, Eq, Drop)]
pub struct Failed;
