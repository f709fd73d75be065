//! The replay of a schedule: a whole cluster in memory, each member of which runs over a journal on a disk of its own, through the
//! very calls that a running member makes.
#![tactic(auto)]

mod counting;
mod event_text;
mod happened;
mod lines;
mod network;
mod replay_end;
mod replaying;
mod seat;
#[cfg(test)]
mod tests;
mod world;

pub use replay_end::ReplayEnd;
pub use replaying::replay;
pub use world::World;
pub use world_model::{Line, Tally};
