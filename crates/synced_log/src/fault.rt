//! Why a file wasn't opened.
ghost use Rattle.std.specs.Prelude.{◌≡◌, Some};
ghost use Rattle.synced_log.specs.Faults.{fault_text};

use crate::owner::Owner;
use craft_edge::Failed;
use std::alloc::AllocError;
use std::error::Error;
use std::fmt;

/// Why a journal wasn't opened.
#[derive(Clone, Copy, Debug, PartialEq, Eq)]
pub enum OpenFault {
    /// A call of the disk failed.
    DiskFault,
    /// The file is no journal, and this is the offset of the gate at which that shows, or 0 for the header.
    BadJournal(u64),
    /// The journal is another member's.
    WrongOwner { found: Owner, wanted: Owner },
    /// No memory was left.
    OutOfMemory,
}

impl fmt::Display for OpenFault {
    ghost output = { λ fault. Some (fault_text fault) };

    fn fmt<W: fmt::Write>(&self, f: &mut fmt::Formatter<W>) -> fmt::Result {
        match self {
            OpenFault::DiskFault => write!(f, "the disk failed"),
            OpenFault::BadJournal(offset) => write!(f, "bad journal at byte {offset}"),
            OpenFault::WrongOwner { found, wanted } => {
                write!(f, "wrong owner {found}, wanted {wanted}")
            }
            OpenFault::OutOfMemory => write!(f, "out of memory"),
        }
    }
}

impl Error for OpenFault {}

impl From<Failed> for OpenFault {
    ghost use Rattle.synced_log.specs.declared.fault.OpenFault.TheVariants.{DiskFault};

    ghost from_gives = { λ _ e. e ≡ DiskFault };

    fn from(_: Failed) -> Self {
        OpenFault::DiskFault
    }
}

impl From<AllocError> for OpenFault {
    ghost use Rattle.synced_log.specs.declared.fault.OpenFault.TheVariants.{OutOfMemory};

    ghost from_gives = { λ _ e. e ≡ OutOfMemory };

    fn from(_: AllocError) -> Self {
        OpenFault::OutOfMemory
    }
}

impl From<craft_base::OutOfMemory> for OpenFault {
    ghost use Rattle.synced_log.specs.declared.fault.OpenFault.TheVariants.{OutOfMemory};

    ghost from_gives = { λ _ e. e ≡ OutOfMemory };

    fn from(_: craft_base::OutOfMemory) -> Self {
        OpenFault::OutOfMemory
    }
}
