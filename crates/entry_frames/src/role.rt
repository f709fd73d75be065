//! The role of a member in its term.

/// The role of a member in its term, after Raft; a member that prepares has won its term, and rebuilds or removes what it
/// holds in fragments before it leads.
#[derive(Clone, Copy, Debug, PartialEq, Eq)]
pub enum Role {
    Follower,
    Candidate,
    Preparing,
    Leader,
}
