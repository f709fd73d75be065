//! How a storm ends.

/// How a storm ends.
#[derive(Clone, Copy, Debug, PartialEq, Eq)]
pub enum StormEnd {
    /// All its lines were carried out, and the tally was written.
    End,
    SinkFault,
    NoMemory,
}
