//! What the program is asked to do.

use crate::places::Places;
use craft_base::{MemberId, Request, Shape};

/// What the program is asked to do, and for a cluster of which shape.
#[derive(Debug, Drop)]
pub enum Command {
    /// Run the schedule that comes in, and print it.
    Replay(Shape),
    /// Be a member of a cluster.
    Node(NodeCommand),
    /// Ask a cluster for the reply to a request.
    Ask(AskCommand),
    /// Print the fragments of the value that comes in.
    Split(Shape),
    /// Rebuild a value from the fragments that come in.
    Join(Shape),
    /// Run a schedule that a number makes, and print what it came to.
    Storm(StormCommand),
}

/// A member that is to run.
#[derive(Debug, Drop)]
pub struct NodeCommand {
    /// The cluster.
    pub shape: Shape,
    /// Which member of it.
    pub me: MemberId,
    /// What its timer's words are made from.
    pub seed: u64,
    /// How many turns it makes: 1 to 1,000,000,000,000.
    pub turns: u64,
    /// Where each member listens.
    pub places: Places,
}

/// A request that is to be asked.
#[derive(Debug, Drop)]
pub struct AskCommand {
    /// The cluster.
    pub shape: Shape,
    /// What is asked: one that a client can ask for.
    pub request: Request,
    /// Where each member listens.
    pub places: Places,
}

/// A made schedule that is to be run.
#[derive(Debug, Drop)]
pub struct StormCommand {
    /// The cluster.
    pub shape: Shape,
    /// The number that makes the schedule.
    pub seed: u64,
    /// How many lines it has: 1 to 100,000.
    pub count: u64,
}
