//! How a replay ends.
ghost use Rattle.std.specs.Prelude.{◌≡◌};
ghost use Rattle.schedule_replay.specs.declared.replay_end.ReplayEnd.TheVariants.{NoMemory};
ghost use Rattle.schedule_replay.specs.Faults.{end_of_fault};

use craft_base::OutOfMemory;
use line_input::InputFault;
use std::alloc::{AllocError, AllocFailed};

/// How a replay ends.
#[derive(Clone, Copy, Debug, PartialEq, Eq)]
pub enum ReplayEnd {
    /// The input was read to its end.
    End,
    /// The first bad line.
    Bad { line: u64 },
    SourceFault,
    SinkFault,
    NoMemory,
}

impl From<InputFault> for ReplayEnd {
    ghost from_gives = { λ fault end. end ≡ end_of_fault fault };

    fn from(fault: InputFault) -> Self {
        match fault {
            InputFault::SourceFault => ReplayEnd::SourceFault,
            InputFault::NoMemory => ReplayEnd::NoMemory,
        }
    }
}

impl From<OutOfMemory> for ReplayEnd {
    ghost from_gives = { λ _ end. end ≡ NoMemory };

    fn from(_: OutOfMemory) -> Self {
        ReplayEnd::NoMemory
    }
}

impl From<AllocError> for ReplayEnd {
    ghost from_gives = { λ _ end. end ≡ NoMemory };

    fn from(_: AllocError) -> Self {
        ReplayEnd::NoMemory
    }
}

impl<T: Drop> From<AllocFailed<T>> for ReplayEnd {
    ghost from_gives = { λ _ end. end ≡ NoMemory };

    fn from(_: AllocFailed<T>) -> Self {
        ReplayEnd::NoMemory
    }
}
