//! The outside of a node as its other crates see it: sources and sinks of bytes, disks, links and clocks,
//! each by a trait whose contracts say what a call does, and devices in memory that keep these contracts.
//!
//! Each trait but `Clock` counts its faults. A call answers `Failed` only where that count rose in the call.
#![tactic(auto)]

mod calls;
mod clock;
mod disk;
mod failed;
mod link;
mod mem_clock;
mod mem_link;
mod mem_sink;
mod mem_source;
mod sink;
mod source;
#[cfg(test)]
mod tests;

pub use calls::Calls;
pub use clock::Clock;
pub use disk::{Disk, Stopping};
pub use failed::Failed;
pub use link::{Came, Link};
pub use mem_clock::MemClock;
pub use mem_link::MemLink;
pub use mem_sink::MemSink;
pub use mem_source::MemSource;
pub use sink::{Sink, write_all};
pub use source::Source;
