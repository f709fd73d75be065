//! The journal of a member: groups of records in one file, each of which is on the disk before it counts, and the reading of
//! such a file, whole or cut short by a crash.
#![tactic(auto)]

mod create;
mod fault;
mod groups;
mod header;
mod journal;
mod laws;
mod open;
mod outline;
mod owner;
mod reading;
mod records;
mod span;
mod steady;
#[cfg(test)]
mod tests;
mod walk;

pub use fault::OpenFault;
pub use groups::Groups;
pub use journal::Journal;
pub use laws::{read_in_one_way, stops_one_way};
pub use owner::Owner;
