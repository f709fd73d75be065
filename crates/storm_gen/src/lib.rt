//! Schedules that a number makes: the storm of a cluster, line by line.
#![tactic(auto)]

mod making;
mod storm;

pub use storm::{MOST_EVENTS, Storm};

#[cfg(test)]
mod tests;
