//! What a member does with the entries that a leader sends.
#![tactic(auto)]

mod compared;
mod forms;
mod plan;
mod taking;

pub use plan::Plan;
pub use taking::take_append;

#[cfg(test)]
mod tests;
