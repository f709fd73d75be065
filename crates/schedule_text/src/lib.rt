//! The text of schedules and of runs: a line of a schedule as what it asks for, what a member tells as a line, and what
//! outlives its crash as lines.
#![tactic(auto)]

mod forms;
mod line_fault;
mod message;
mod output;
mod reading;
mod reply;
mod show;
mod words;

pub use line_fault::LineFault;
pub use output::line_of;
pub use reading::read_line;
pub use show::show_of;
pub use world_model::{Inner, Line};

#[cfg(test)]
mod call_tests;
#[cfg(test)]
mod kept_log;
#[cfg(test)]
mod tests;
