//! The two ways of replication.

/// In which of CRaft's two ways a leader replicates.
#[derive(Clone, Copy, Debug, PartialEq, Eq)]
pub enum Mode {
    /// Each member is sent its own fragment of a value.
    Coded,
    /// Each member is sent all bytes of a value.
    Complete,
}
