/// What a member does with an Append of its term's leader.
#[derive(Debug, Drop)]
pub enum Plan {
    /// Its log isn't the leader's up to where the entries begin: it refuses, and the leader may go on from `next`, behind what
    /// is committed.
    Refuse {
        next: u64,
    },
    /// The log has another term at an index that is committed, which no leader of a term asks for: it is passed over.
    Clash,
    /// The log becomes the leader's, as far as the message tells it.
    Take {
        /// From where on the log is cut first, if it is.
        cut: Option<u64>,
        /// At which indexes the log holds a part whose value the message has, in order.
        wholes: Vec<u64>,
        /// The number in the message of the first entry that is added, or how many it has where none is.
        first_new: u8,
        /// Which of the message's entries the log then holds whole: bit b for that at `prev + 1 + b`.
        mask: u8,
        /// Up to where the log then is committed.
        commit: u64,
    },
}
