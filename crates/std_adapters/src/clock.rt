//! The system's clock, in ticks of 50 milliseconds.
ghost use Rattle.std.specs.Prelude.{◌≡◌, ◌≤◌, None};

use craft_edge::Clock;
use std::time::{self, Instant};

/// How long a tick is, in milliseconds.
const TICK: u128 = 50;

/// The ticks since the first reading. Where the system's clock fails or goes back, the last reading stands.
#[derive(Drop)]
pub struct TickClock<'a, C> {
    clock: &'a C,
    start: Option<Instant>,
    shown: u64,
}

impl<'a, C: time::Clock> TickClock<'a, C> {
    /// The ticks of that clock.
    pub fn new(clock: &'a C) -> TickClock<'a, C>
        ensures { result.shown ≡ 0 }
    {
        TickClock {
            clock,
            start: None,
            shown: 0,
        }
    }

    /// The ticks since the first reading, where the clock tells the time.
    fn ticks(&mut self) -> Option<u64>
        ensures { self.new.shown ≡ self.old.shown }
    {
        let now = Instant::now(self.clock).ok()?;
        let start = *self.start.get_or_insert(now);
        let ticks = now.duration_since(start).as_millis() / TICK;
        u64::try_from(ticks).ok()
    }
}

impl<'a, C: time::Clock> Clock for TickClock<'a, C> {
    ghost use Rattle.std.specs.Prelude.{ℕ, List, Option, is_some, ⊤};
    ghost use Rattle.craft_edge.specs.Readings.{ShowsFirst};

    ghost readings = { λ clock. None };

    ghost shown = { λ clock. clock.shown };

    ghost use Rattle.std.proofs.Common.{rules};

    ghost never_empty = { Prim.search rules };

    fn now(&mut self) -> u64 {
        if let Some(ticks) = self.ticks() {
            self.shown = self.shown.max(ticks);
        }
        self.shown
    }
}
