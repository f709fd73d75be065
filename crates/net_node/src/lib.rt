//! A running node: turn by turn it reads its clock or takes a packet, and tells what follows only once that is in its journal.
#![tactic(auto)]

mod cluster;
mod event_text;
#[cfg(test)]
mod fault_tests;
mod heard;
mod packets;
mod sending;
mod serve_end;
mod serving;
#[cfg(test)]
mod tests;
mod turns;

pub use serve_end::ServeEnd;
pub use turns::serve;
