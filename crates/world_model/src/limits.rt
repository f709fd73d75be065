//! How long a schedule can be.

/// The most lines of a schedule.
pub const MOST_LINES: u64 = 1_000_000;

/// The most bytes of a line, its line feed counted.
pub const LONGEST_LINE: usize = 70_000;
