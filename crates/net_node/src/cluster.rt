//! The cluster of a node, and its own place in it.
use craft_base::{MemberId, Shape};
use std::alloc::Global;

/// The cluster that a node is a member of.
#[derive(Clone, Copy)]
pub struct Cluster<'a> {
    pub alloc: Global,
    pub shape: &'a Shape,
    /// The node itself.
    pub me: MemberId,
    /// Where each member listens.
    pub places: &'a [u64],
}
