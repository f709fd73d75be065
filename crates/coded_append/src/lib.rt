//! What a leader of coded replication sends, after CRaft: in which mode, from where on, and which entries in which form. And which
//! entries a member shows of its log.
#![tactic(auto)]

mod batches;
mod choice;
mod forms;
mod laws;
mod modes;
mod parts;
mod start;

pub use batches::{coded_batch, page_from, whole_batch};
pub use choice::mode;
pub use laws::{a_batch_is_as_much_as_has_room, a_start_is_as_late_as_what_is_held};
pub use modes::Mode;
pub use start::start_for;

#[cfg(test)]
mod kept_log;
#[cfg(test)]
mod tests;
