//! All that members and clients tell each other.

use crate::peer::Peer;
use craft_base::{MemberId, Reply, Request};

/// All that travels.
#[derive(Debug, Drop)]
pub enum Message {
    /// A message of one member to another, with the sender's term.
    Peer {
        from: MemberId,
        to: MemberId,
        term: u64,
        body: Peer,
    },
    /// A client's request to a member.
    Request {
        to: MemberId,
        request: Request,
    },
    /// A member's reply to the request of that number of that client.
    Answered {
        from: MemberId,
        client: u64,
        seq: u64,
        reply: Reply,
    },
}
