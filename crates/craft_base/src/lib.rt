//! The types that every part of a CRaft cluster speaks of: its shape, its members, entries, requests and replies.
#![tactic(auto)]

mod blob;
mod command;
mod known;
mod member;
mod memory;
mod part;
mod shape;

pub use blob::Blob;
pub use command::{Entry, Form, Head, Held, Op, Reply, Request};
pub use known::Known;
pub use member::{MemberId, MemberSet};
pub use memory::OutOfMemory;
pub use part::part_len;
pub use shape::{Shape, ShapeError};

#[cfg(test)]
mod heard_list;
#[cfg(test)]
mod tests;
