//! Devices in memory for trials and tests: a source, a sink, a disk with its crashes, and authorities; each keeps its trait, tells
//! its content, and fails exactly where it is told to or finds no memory.
#![tactic(auto)]

mod bent;
mod calls;
mod content;
mod crash;
mod disk;
mod pace;
mod scripted;
mod sink;
mod source;
mod written;

pub use bent::{BendAt, Bent};
pub use crash::Crash;
pub use disk::MemDisk;
pub use pace::FreePace;
pub use scripted::Scripted;
pub use sink::MemSink;
pub use source::MemSource;
pub use written::Written;

#[cfg(test)]
mod tests;
