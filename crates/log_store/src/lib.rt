//! The log of a member in memory, with its term, its vote and how far it is committed: what the records of its journal leave.
#![tactic(auto)]

mod replay;
mod store;
#[cfg(test)]
mod tests;

pub use store::LogStore;
