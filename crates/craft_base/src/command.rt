use crate::{Blob, MemberId};

/// What an entry does to the map.
#[derive(Clone, Copy, Debug, PartialEq, Eq)]
pub enum Op {
    /// Nothing: a leader's first entry of its term.
    Noop,
    /// Sets the key's value.
    Put,
    /// Sets it where the key's version is this one (0: the key is absent).
    PutIf(u64),
    /// Removes the key.
    Del,
    /// Reads the key.
    Get,
}

/// What every member that holds an entry knows of it.
#[derive(Debug, Drop)]
pub struct Head {
    /// Who asked, from 1 on; 0 for a Noop.
    pub client: u64,
    /// The client's number for the request, from 1 on; 0 for a Noop.
    pub seq: u64,
    pub op: Op,
    /// 1 to 255 bytes; none for a Noop.
    pub key: Blob,
    /// The length of the value, 0 to 32,768.
    pub vlen: u32,
}

/// What a member holds of an entry's value, after CRaft's two ways of replication.
#[derive(Debug, Drop)]
pub enum Form {
    /// All of its bytes.
    Whole(Blob),
    /// The fragment of the member that holds it.
    Part(Blob),
}

/// An entry of the log.
#[derive(Debug, Drop)]
pub struct Entry {
    /// The term of the leader that proposed it, from 1 on.
    pub term: u64,
    pub head: Head,
    pub form: Form,
}

/// What a client asks for.
#[derive(Debug, Drop)]
pub struct Request {
    /// 1 to 2^62.
    pub client: u64,
    /// 1 to 2^62, rising from request to request of one client.
    pub seq: u64,
    pub op: Op,
    /// 1 to 255 bytes.
    pub key: Blob,
    /// At most 32,768 bytes; none but for a Put or a PutIf.
    pub value: Blob,
}

/// In which form a member is known to hold an entry.
#[derive(Clone, Copy, Debug, PartialEq, Eq)]
pub enum Held {
    Nothing,
    Part,
    Whole,
}

/// What a client is told. A version is the log index of the key's last write.
#[derive(Debug, Drop)]
pub enum Reply {
    /// The write was done, at this version.
    Done(u64),
    /// The condition failed: the key's version is this one.
    Differs(u64),
    /// The key is gone; whether it was there.
    Gone(bool),
    /// The key's version and value.
    Value(u64, Blob),
    /// The key is absent.
    Nothing,
    /// A request of this client with a greater number was applied.
    Old,
    /// This member doesn't lead; the member that it takes for the leader.
    Elsewhere(Option<MemberId>),
    /// This member is about to lead.
    Preparing,
    /// Too much isn't committed yet.
    Busy,
    /// The log is full.
    Full,
}
