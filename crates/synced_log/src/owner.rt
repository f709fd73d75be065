//! Whose journal a file is.
ghost use Rattle.std.specs.Prelude.{Some};
ghost use Rattle.synced_log.specs.Faults.{owner_text};

use std::fmt;

/// The member that a journal is of: the cluster's F and k, and the member's number.
#[derive(Clone, Copy, Debug, PartialEq, Eq)]
pub struct Owner {
    pub f: u8,
    pub k: u8,
    pub me: u8,
}

impl fmt::Display for Owner {
    ghost output = { λ owner. Some (owner_text owner) };

    fn fmt<W: fmt::Write>(&self, f: &mut fmt::Formatter<W>) -> fmt::Result {
        write!(f, "{} {} {}", self.f, self.k, self.me)
    }
}
