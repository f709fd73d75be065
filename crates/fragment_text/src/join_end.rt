//! How a join ends.
ghost use Rattle.std.specs.Prelude.{◌≡◌};
ghost use Rattle.fragment_text.specs.Faults.{end_of_fault};
ghost use Rattle.fragment_text.specs.declared.join_end.JoinEnd.TheVariants.{NoMemory};

use craft_base::OutOfMemory;
use line_input::InputFault;
use std::alloc::{AllocError, AllocFailed};

/// How a join ends.
#[derive(Clone, Copy, Debug, PartialEq, Eq)]
pub enum JoinEnd {
    /// The input was read to its end, and its value was written.
    End,
    /// The first bad line.
    Bad { line: u64 },
    /// No line is bad, and there are `index` parts, fewer than are needed.
    TooFew { index: u64 },
    SourceFault,
    SinkFault,
    NoMemory,
}

impl From<InputFault> for JoinEnd {
    ghost from_gives = { λ fault end. end ≡ end_of_fault fault };

    fn from(fault: InputFault) -> Self {
        match fault {
            InputFault::SourceFault => JoinEnd::SourceFault,
            InputFault::NoMemory => JoinEnd::NoMemory,
        }
    }
}

impl From<OutOfMemory> for JoinEnd {
    ghost from_gives = { λ _ end. end ≡ NoMemory };

    fn from(_: OutOfMemory) -> Self {
        JoinEnd::NoMemory
    }
}

impl From<AllocError> for JoinEnd {
    ghost from_gives = { λ _ end. end ≡ NoMemory };

    fn from(_: AllocError) -> Self {
        JoinEnd::NoMemory
    }
}

impl<T: Drop> From<AllocFailed<T>> for JoinEnd {
    ghost from_gives = { λ _ end. end ≡ NoMemory };

    fn from(_: AllocFailed<T>) -> Self {
        JoinEnd::NoMemory
    }
}
