//! When a member grants its vote, and when it stands for election.
#![tactic(auto)]

mod due;
mod verdict;

pub use due::starts;
pub use verdict::vote_verdict;

#[cfg(test)]
mod tests;
