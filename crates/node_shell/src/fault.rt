//! Why a step wasn't made.
ghost use Rattle.std.specs.Prelude.{◌≡◌};

use std::error::Error;
use std::fmt;

/// Why a step wasn't made. The member is then gone, and its disk is handed back.
#[derive(Clone, Copy, Debug, PartialEq, Eq)]
pub enum StepFault {
    /// A call of the disk failed. The journal may have the step's records or not.
    DiskFault,
    /// No memory was left. No call of the disk was made.
    OutOfMemory,
}

impl fmt::Display for StepFault {
    fn fmt<W: fmt::Write>(&self, f: &mut fmt::Formatter<W>) -> fmt::Result {
        match self {
            StepFault::DiskFault => write!(f, "the disk failed"),
            StepFault::OutOfMemory => write!(f, "out of memory"),
        }
    }
}

impl Error for StepFault {}
