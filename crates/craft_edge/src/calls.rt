//! The calls of a device in memory.
use std::marker::Model;

/// The calls that a device in memory has had, those that are to fail, and the count of those that failed.
/// The counts stand still at `u64::MAX`.
#[derive(Drop)]
pub struct Calls {
    fail: Vec<u64>,
    made: u64,
    faults: u64,
}

impl Model for Calls {
    ghost use Rattle.craft_edge.specs.Calls.{CallBook};

    ghost Value = { CallBook };

    ghost view = { λ c. record { fail = c.fail.items; made = c.made; faults = c.faults } };
}

impl Calls {
    ghost use Rattle.std.specs.Prelude.{◌≡◌, ◌≤◌};
    ghost use Rattle.craft_edge.specs.Calls.{after_call, next_fails, counted};

    /// No call so far; those with the numbers in `fail` are to fail, counted from 1.
    pub fn new(fail: Vec<u64>) -> Self
        ensures { result ≡ record { fail = fail.items; made = 0; faults = 0 } }
    {
        Calls {
            fail,
            made: 0,
            faults: 0,
        }
    }

    /// Counts one call more and says whether it is listed to fail; if so, counts the fault too.
    pub fn next_fails(&mut self) -> bool
        ensures listed { result ≡ next_fails self.old }
        ensures counted { self.new ≡ after_call self.old (next_fails self.old) }
        ensures later { self.old.faults ≤ self.new.faults }
    {
        self.made = self.made.saturating_add(1);
        let listed = self.fail.contains(&self.made);
        if listed {
            self.faults = self.faults.saturating_add(1);
        }
        listed
    }

    /// Counts a fault of the last call that isn't listed.
    pub fn count_fault(&mut self)
        ensures counted { self.new ≡ record self.old { faults = counted self.old.faults } }
        ensures later { self.old.faults ≤ self.new.faults }
    {
        self.faults = self.faults.saturating_add(1);
    }
}
