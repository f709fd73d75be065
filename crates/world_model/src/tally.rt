//! What happened in a run, in numbers.

/// What happened in a run so far. A number stands still at the greatest of 64 bits.
#[derive(Clone, Copy, Debug, PartialEq, Eq)]
pub struct Tally {
    /// The events.
    pub events: u64,
    /// The frames that were sent.
    pub frames: u64,
    /// The replies to clients.
    pub replies: u64,
    /// How often a member told that it leads.
    pub leaders: u64,
    /// The greatest commit index on any disk.
    pub commit: u64,
    /// How often a member told that it took entries out of its log.
    pub cuts: u64,
}
