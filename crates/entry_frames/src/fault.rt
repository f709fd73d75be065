//! Why bytes are no frame.
ghost use Rattle.std.specs.Prelude.{Some};
ghost use Rattle.entry_frames.specs.Faults.{fault_text};

use std::error::Error;
use std::fmt;

/// The first fault of some bytes, from left to right.
#[derive(Clone, Copy, Debug, PartialEq, Eq)]
pub enum FrameFault {
    /// The bytes end before a field does, and every earlier field is in range.
    Short,
    /// A field stands whole and is out of range, and every earlier one is in range; the offset at which it begins.
    Bad(usize),
}

impl fmt::Display for FrameFault {
    ghost output = { λ fault. Some (fault_text fault) };

    fn fmt<W: fmt::Write>(&self, f: &mut fmt::Formatter<W>) -> fmt::Result {
        match self {
            FrameFault::Short => write!(f, "short frame"),
            FrameFault::Bad(offset) => write!(f, "bad frame at byte {offset}"),
        }
    }
}

impl Error for FrameFault {}
