//! Where the members of a cluster listen.
ghost use Rattle.std.specs.Prelude.{◌≡◌};

use std::marker::Model;

/// Where the members of a cluster listen, by their numbers. A place is the IPv4 address as a 32-bit number times 65,536, plus the
/// port. Contracts see the places as a list.
#[derive(Debug, Drop)]
pub struct Places {
    list: Vec<u64>,
}

impl Model for Places {
    ghost use Rattle.std.specs.Prelude.{List, ℕ};

    ghost Value = { List ℕ };

    ghost view = { λ places. places.list.items };
}

impl Places {
    /// These places, which it takes over.
    pub(crate) fn of(list: Vec<u64>) -> Places
        ensures { result ≡ list.items }
    {
        Places { list }
    }

    /// The places.
    pub fn as_slice(&self) -> &[u64]
        ensures { result.now ≡ self.now }
    {
        &self.list
    }
}
