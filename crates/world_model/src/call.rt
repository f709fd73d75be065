//! What is kept of a client's request until it is answered, and the answer.

use craft_base::Reply;

/// A request that a leader hasn't answered yet: it was added to its log, or it was applied and waits for the value that it found.
#[derive(Clone, Copy, Debug, PartialEq, Eq)]
pub struct Called {
    /// The index of its entry; of one that waits for a value, the version of that value.
    pub index: u64,
    /// From where it came.
    pub place: u64,
    /// Who asked, and its number for the request: both are 1 to 2^62.
    pub client: u64,
    pub seq: u64,
}

/// What a client is told, at the place from which it asked.
#[derive(Debug, Drop)]
pub struct ClientReply {
    /// Where it goes.
    pub place: u64,
    /// Whom it is for, and which request of its: both are 1 to 2^62.
    pub client: u64,
    pub seq: u64,
    /// What it says.
    pub reply: Reply,
}
