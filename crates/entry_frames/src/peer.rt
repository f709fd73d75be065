//! What members tell each other.

use crate::batch::Batch;

/// What a message of one member to another says, after Raft's remote calls and CRaft's. Indexes are those of a log, from 1
/// on; the ranges stand in docs/FORMATS.md, "Messages".
#[derive(Debug, Drop)]
pub enum Peer {
    /// A candidate asks for a vote, and shows the term and the index of its log's last entry.
    Vote {
        last_term: u64,
        last: u64,
    },
    /// Whether the vote is granted.
    VoteReply {
        granted: bool,
    },
    /// A leader sends the entries behind `prev`, and says which term stands there and how far it has committed.
    Append {
        prev: u64,
        prev_term: u64,
        commit: u64,
        entries: Batch,
    },
    /// A follower's log is the leader's up to `count` entries behind `prev`; bit b of the mask is set where it holds the
    /// entry at `prev + 1 + b` whole.
    Matched {
        prev: u64,
        count: u8,
        mask: u8,
    },
    /// It isn't; the leader may go on from `next`.
    Refused {
        next: u64,
    },
    /// A leader, or one that prepares to lead, asks for a log from `start` on.
    Ask {
        start: u64,
    },
    /// The entries of a log from `start` on, and the index of its last one.
    Answer {
        start: u64,
        last: u64,
        slots: Batch,
    },
}
