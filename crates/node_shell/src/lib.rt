//! A member over its journal: it makes a turn, the turn's records are synced, and only then its outputs are told.
#![tactic(auto)]

mod fault;
mod outputs;
mod shell;
#[cfg(test)]
mod tests;

pub use fault::StepFault;
pub use node_core::{Core, Event, Output, Role};
pub use outputs::Outputs;
pub use shell::Shell;
pub use synced_log::OpenFault;
