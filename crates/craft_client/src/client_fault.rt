//! Why a client has no reply.
ghost use Rattle.std.specs.Prelude.{◌≡◌};
ghost use Rattle.craft_client.specs.declared.client_fault.ClientFault.TheVariants as faults;

use craft_base::OutOfMemory;
use craft_edge::Failed;
use std::alloc::{AllocError, AllocFailed};
use std::error::Error;
use std::fmt;

/// Why a client has no reply.
#[derive(Clone, Copy, Debug, PartialEq, Eq)]
pub enum ClientFault {
    /// All tries were made, and none of them had a final reply; `sent` requests were sent.
    NoAnswer { sent: u64 },
    /// The link failed.
    LinkFault,
    /// No memory was left for what was to be sent or for a reply.
    OutOfMemory,
}

impl fmt::Display for ClientFault {
    fn fmt<W: fmt::Write>(&self, f: &mut fmt::Formatter<W>) -> fmt::Result {
        match self {
            ClientFault::NoAnswer { sent } => write!(f, "no answer to {sent} requests"),
            ClientFault::LinkFault => write!(f, "the link failed"),
            ClientFault::OutOfMemory => write!(f, "out of memory"),
        }
    }
}

impl Error for ClientFault {}

impl From<Failed> for ClientFault {
    ghost from_gives = { λ _ fault. fault ≡ faults.LinkFault };

    fn from(_: Failed) -> Self {
        ClientFault::LinkFault
    }
}

impl From<OutOfMemory> for ClientFault {
    ghost from_gives = { λ _ fault. fault ≡ faults.OutOfMemory };

    fn from(_: OutOfMemory) -> Self {
        ClientFault::OutOfMemory
    }
}

impl From<AllocError> for ClientFault {
    ghost from_gives = { λ _ fault. fault ≡ faults.OutOfMemory };

    fn from(_: AllocError) -> Self {
        ClientFault::OutOfMemory
    }
}

impl<T: Drop> From<AllocFailed<T>> for ClientFault {
    ghost from_gives = { λ _ fault. fault ≡ faults.OutOfMemory };

    fn from(_: AllocFailed<T>) -> Self {
        ClientFault::OutOfMemory
    }
}
