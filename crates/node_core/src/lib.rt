//! The turn of a member: the rule that an event calls for, the records that have to be in its journal before anything is told,
//! and what is told.
#![tactic(auto)]

mod act;
mod event;
mod member;
mod rules;
mod running;
mod telling;
mod turn;

pub use event::Event;
pub use peer_frames::{Output, Role};
pub use running::Core;
pub use turn::Turned;

#[cfg(test)]
mod tests;
