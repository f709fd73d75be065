//! How great the numbers of a log and of its entries can be.

/// The greatest term, client's number, request's number and expected version.
pub const GREATEST: u64 = 1 << 62;

/// The greatest index of a log, and so the greatest version.
pub const LAST_PLACE: u64 = 1_000_000;

/// The most bytes of a value.
pub const LONGEST_VALUE: u32 = 32_768;

/// The most entries of a message.
pub const MOST_ENTRIES: usize = 8;

/// The most bytes of the entries of a message, together.
pub const MOST_ENTRY_BYTES: usize = 56_000;
