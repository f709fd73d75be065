//! Time, in ticks.
ghost use Rattle.std.specs.Prelude.{◌≡◌, ◌≤◌, ◌<◌, ℕ, List, Option, is_some, length, IfSome};
ghost use Rattle.craft_edge.specs.Readings.{ShowsFirst};

/// A clock that counts ticks. It can't fail, and its readings never fall.
pub trait Clock {
    /// The readings still to come, where the clock tells them. The last one repeats.
    ghost readings: { Self → Option (List ℕ) };

    /// The latest reading shown, or some number no greater than the first where none was.
    ghost shown: { Self → ℕ };

    /// Reads the clock.
    fn now(&mut self) -> u64
        ensures shown { result ≡ shown self.new }
        ensures later { shown self.old ≤ shown self.new }
        ensures reading { ShowsFirst (readings self.old) (readings self.new) result }
        ensures told { is_some (readings self.new) ≡ is_some (readings self.old) };

    /// Some reading is always still to come.
    ghost never_empty: { (clock : Self) → IfSome (readings clock) (λ xs. 0 < length xs) };
}
