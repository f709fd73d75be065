//! A client of a cluster: it asks the members for the reply to one request, over any link.
#![tactic(auto)]

mod asking;
mod client_fault;
mod listening;
mod request_frame;
mod told;

pub use asking::ask_group;
pub use client_fault::ClientFault;

#[cfg(test)]
mod tests;
