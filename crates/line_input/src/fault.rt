//! Why a line can't be taken.
ghost use Rattle.std.specs.Prelude.{◌≡◌};
ghost use Rattle.line_input.specs.declared.fault.InputFault.TheVariants.{NoMemory};

use std::alloc::AllocFailed;
use std::error::Error;
use std::fmt;

/// Why a line can't be taken.
#[derive(Clone, Copy, Debug, PartialEq, Eq)]
pub enum InputFault {
    /// The source failed.
    SourceFault,
    /// No memory was left for the line.
    NoMemory,
}

impl fmt::Display for InputFault {
    fn fmt<W: fmt::Write>(&self, f: &mut fmt::Formatter<W>) -> fmt::Result {
        match self {
            InputFault::SourceFault => write!(f, "source failed"),
            InputFault::NoMemory => write!(f, "out of memory"),
        }
    }
}

impl Error for InputFault {}

impl<T: Drop> From<AllocFailed<T>> for InputFault {
    ghost from_gives = { λ _ fault. fault ≡ NoMemory };

    fn from(_: AllocFailed<T>) -> Self {
        InputFault::NoMemory
    }
}
