//! How a picture ends.
ghost use Rattle.std.specs.Prelude.{◌≡◌};
ghost use Rattle.run_picture.specs.Pictures.{end_of};

use crate::fault::ReadFault;

/// How a picture ends.
#[derive(Clone, Copy, Debug, PartialEq, Eq)]
pub enum PictureEnd {
    /// The inputs were read, and the picture was written.
    End,
    /// The first bad line of the schedule, as far as the text speaks of it. Nothing was written.
    BadSchedule { line: u64 },
    /// The first line of the text that the run of this schedule can't print there. Nothing was written.
    BadText { line: u64 },
    /// The schedule can't be read. Nothing was written.
    ScheduleFault,
    /// The text can't be read. Nothing was written.
    TextFault,
    /// The sink failed; what it took before stands.
    SinkFault,
    /// No memory was left. Nothing was written.
    NoMemory,
}

impl From<ReadFault> for PictureEnd {
    ghost from_gives = { λ fault end. end ≡ end_of fault };

    fn from(fault: ReadFault) -> Self {
        match fault {
            ReadFault::BadSchedule { line } => PictureEnd::BadSchedule { line },
            ReadFault::BadText { line } => PictureEnd::BadText { line },
            ReadFault::ScheduleFault => PictureEnd::ScheduleFault,
            ReadFault::TextFault => PictureEnd::TextFault,
            ReadFault::NoMemory => PictureEnd::NoMemory,
        }
    }
}
