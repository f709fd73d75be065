//! How a split ends.
ghost use Rattle.std.specs.Prelude.{◌≡◌};
ghost use Rattle.fragment_text.specs.declared.split_end.SplitEnd.TheVariants.{NoMemory};

use craft_base::OutOfMemory;
use std::alloc::{AllocError, AllocFailed};

/// How a split ends.
#[derive(Clone, Copy, Debug, PartialEq, Eq)]
pub enum SplitEnd {
    /// The input was read to its end, and its text was written.
    End,
    /// The input has more bytes than a value may have.
    TooLong,
    SourceFault,
    SinkFault,
    NoMemory,
}

impl From<OutOfMemory> for SplitEnd {
    ghost from_gives = { λ _ end. end ≡ NoMemory };

    fn from(_: OutOfMemory) -> Self {
        SplitEnd::NoMemory
    }
}

impl From<AllocError> for SplitEnd {
    ghost from_gives = { λ _ end. end ≡ NoMemory };

    fn from(_: AllocError) -> Self {
        SplitEnd::NoMemory
    }
}

impl<T: Drop> From<AllocFailed<T>> for SplitEnd {
    ghost from_gives = { λ _ end. end ≡ NoMemory };

    fn from(_: AllocFailed<T>) -> Self {
        SplitEnd::NoMemory
    }
}
