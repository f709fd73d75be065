//! How a run of a node ends.

/// How a run of a node ends. Each fault comes only where that device failed.
#[derive(Clone, Copy, Debug, PartialEq, Eq)]
pub enum ServeEnd {
    /// All of its turns were made.
    Turns,
    /// What it tells couldn't be written.
    SinkFault,
    /// Its journal couldn't be written.
    DiskFault,
    /// A packet couldn't be taken or sent.
    LinkFault,
    /// No memory was left.
    NoMemory,
}
