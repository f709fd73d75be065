//! Whether a line of a schedule was carried out.

/// What a line of a schedule came to.
#[derive(Clone, Copy, Debug, PartialEq, Eq)]
pub enum Verdict {
    /// It was carried out.
    Done,
    /// Its frame isn't sent yet.
    NoFrame,
    /// Its member is down, or is to start and runs.
    Skip,
    /// Its member stopped while it was carried out.
    Stop,
}
