//! A storm: a schedule that a number makes, run in a whole cluster in memory, and what it came to in numbers.
#![tactic(auto)]

mod storm_end;
mod storming;
#[cfg(test)]
mod tests;
mod text;

pub use storm_end::StormEnd;
pub use storming::storm;
