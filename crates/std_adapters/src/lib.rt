//! What a running program has outside of it: standard input and output, a file, a socket and a clock, each by one thin adapter. They
//! tell no content: what the system does with bytes, packets and time is outside of what is proved. Each counts its faults.
#![tactic(auto)]

mod clock;
mod disk;
mod growing;
mod link;
mod sink;
mod source;

pub use clock::TickClock;
pub use disk::FileDisk;
pub use link::{UdpLink, address_of};
pub use sink::StdSink;
pub use source::StdSource;

#[cfg(test)]
mod tests;
