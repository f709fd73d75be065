//! A clock in memory.
use crate::clock::Clock;
use std::marker::Model;

/// A clock that shows the readings that it was made with, and then the last of them again and again.
#[derive(Drop)]
pub struct MemClock {
    readings: Vec<u64>,
    at: usize,
    shown: u64,
}

impl Model for MemClock {
    ghost use Rattle.std.specs.Prelude.{◌≤◌, ◌<◌, ◌+◌, drop, length, slice_index};
    ghost use Rattle.std.specs.List.Sorted.{IsNonDecreasing};
    ghost use Rattle.craft_edge.specs.MemClock.{ClockState};

    ghost Value = { ClockState };

    ghost view = { λ c. record { shown = c.shown; next = slice_index c.readings.items c.at; later = drop (c.at + 1) c.readings.items } };

    ghost invariant = { λ c. (c.at < length c.readings.items) × (c.shown ≤ slice_index c.readings.items c.at) × IsNonDecreasing c.readings.items };
}

impl MemClock {
    ghost use Rattle.std.specs.Prelude.{◌≡◌, ◌<◌, vec_len};
    ghost use Rattle.std.specs.List.Sorted.{IsNonDecreasing};
    ghost use Rattle.craft_edge.specs.MemClock.{readings_of};

    /// A clock with these readings, of which there is at least one, and of which none is less than the one
    /// before it.
    pub fn new(readings: Vec<u64>) -> MemClock
        requires some { 0 < vec_len readings }
        requires rising { IsNonDecreasing readings.items }
        ensures fresh { result.shown ≡ 0 }
        ensures readings { readings_of result ≡ readings.items }
    {
        MemClock {
            readings,
            at: 0,
            shown: 0,
        }
    }
}

impl Clock for MemClock {
    ghost use Rattle.std.specs.Prelude.{◌≡◌, ◌≤◌, Some, is_some};
    ghost use Rattle.craft_edge.specs.Readings.{ShowsFirst, after_reading};
    ghost use Rattle.craft_edge.specs.MemClock.{has_reading, readings_of};

    ghost readings = { λ c. Some (readings_of c) };

    ghost shown = { λ c. c.shown };

    ghost never_empty = { λ c. has_reading c };

    fn now(&mut self) -> u64
        ensures shown { result ≡ self.new.shown }
        ensures later { self.old.shown ≤ self.new.shown }
        ensures reading { ShowsFirst (Some (readings_of self.old)) (Some (readings_of self.new)) result }
        ensures told { is_some (Some (readings_of self.new)) ≡ is_some (Some (readings_of self.old)) }
    {
        let reading = self.readings[self.at];
        if self.at + 1 < self.readings.len() {
            self.at += 1;
        }
        self.shown = reading;
        reading
    }
}
