//! What a member tells after a turn.

use crate::message::Message;
use crate::role::Role;
use craft_base::Reply;

/// What a member tells.
#[derive(Debug, Drop)]
pub enum Output {
    /// Its role and its term, where one of them changed.
    Role {
        role: Role,
        term: u64,
    },
    /// Entries were removed from `index` on: in a preparation (`prep`), or since a leader's log differs there.
    Cut {
        index: u64,
        prep: bool,
    },
    /// The entry at `index`, which was held as a fragment, became whole.
    Whole {
        index: u64,
    },
    /// The log is committed up to `index`.
    Commit {
        index: u64,
    },
    /// A reply to a client's request, for the place from which that came.
    Reply {
        place: u64,
        client: u64,
        seq: u64,
        reply: Reply,
    },
    /// A message to another member.
    Send {
        message: Message,
    },
}
