//! The words of the command line: what they ask for.
#![tactic(auto)]

mod command;
mod laws;
mod node;
mod place;
mod places;
mod reading;
mod request;
mod shape;
mod storm;

pub use command::{AskCommand, Command, NodeCommand, StormCommand};
pub use laws::words_are_spelled_once;
pub use places::Places;
pub use reading::{path_of, plan};

#[cfg(test)]
mod tests;
