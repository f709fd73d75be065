//! A sink in memory.
use crate::calls::Calls;
use crate::failed::Failed;
use crate::sink::Sink;
use std::marker::Model;

/// A sink that keeps the bytes in memory. It takes them in pieces, and fails at the calls that it was told
/// to fail at, or for want of memory.
#[derive(Drop)]
pub struct MemSink {
    taken: Vec<u8>,
    piece: usize,
    calls: Calls,
    starved: bool,
}

impl Model for MemSink {
    ghost use Rattle.std.specs.Prelude.{◌≤◌};
    ghost use Rattle.craft_edge.specs.MemSink.{SinkState};

    ghost Value = { SinkState };

    ghost view = { λ s. record { taken = s.taken.items; piece = s.piece; calls = s.calls; starved = s.starved } };

    ghost invariant = { λ s. 1 ≤ s.piece };
}

impl MemSink {
    ghost use Rattle.std.specs.Prelude.{◌≡◌, ◌≤◌, [], false};

    /// A sink that takes at most `piece` bytes at a call, and fails at the calls whose numbers stand in
    /// `fail`, counted from 1. The count of calls stands still at `u64::MAX`, so from there on every call
    /// has that number. The bytes are kept by the allocator of `fail`.
    pub fn new(piece: usize, fail: Vec<u64>) -> MemSink
        requires { 1 ≤ piece }
        ensures { result ≡ record { taken = []; piece = piece; calls = record { fail = fail.items; made = 0; faults = 0 }; starved = false } }
    {
        let alloc = *fail.allocator();
        MemSink {
            taken: Vec::new(alloc),
            piece,
            calls: Calls::new(fail),
            starved: false,
        }
    }

    /// Whether a call failed for want of memory. Where it is false, the calls failed exactly where listed.
    pub fn starved(&self) -> bool
        ensures { result ≡ self.now.starved }
    {
        self.starved
    }

    /// The bytes taken so far.
    pub fn taken(&self) -> &[u8]
        ensures { result.now ≡ self.now.taken }
    {
        &self.taken
    }
}

impl Sink for MemSink {
    ghost use Rattle.std.specs.Prelude.{◌≡◌, ◌<◌, Some, false, true, is_some, is_err, length, min, IfOk, OnErr, IsErr, IsTrue};
    ghost use Rattle.std.specs.Io.{WritesAtMost};
    ghost use Rattle.craft_edge.specs.Bytes.{WriteTakes};
    ghost use Rattle.craft_edge.specs.Causes.{HasCause, Rose};
    ghost use Rattle.craft_edge.specs.Calls.{next_fails};
    ghost use Rattle.craft_edge.specs.MemSink.{after_write};

    ghost taken = { λ s. Some s.taken };

    ghost faults = { λ s. s.calls.faults };

    fn write(&mut self, bytes: &[u8]) -> Result<usize, Failed>
        ensures bound { WritesAtMost result bytes.now }
        ensures bytes { WriteTakes (Some self.old.taken) (Some self.new.taken) result bytes.now }
        ensures told { is_some (Some self.new.taken) ≡ is_some (Some self.old.taken) }
        ensures stalled { IfOk result (λ n. n ≡ 0 → 0 < length bytes.now → Rose self.old.calls.faults self.new.calls.faults) }
        ensures cause { HasCause self.old.calls.faults self.new.calls.faults result }

        ensures listed { IsTrue (next_fails self.old.calls) → IsErr result }
        ensures count { IfOk result (λ n. n ≡ min self.old.piece (length bytes.now)) }
        ensures after { IfOk result (λ n. self.new ≡ after_write self.old bytes.now n false) }
        ensures after_fault { OnErr result (self.new ≡ after_write self.old bytes.now 0 true) }
    {
        if self.calls.next_fails() {
            return Err(Failed);
        }
        let count = self.piece.min(bytes.len());
        if self.taken.extend_from_slice(&bytes[..count]).is_err() {
            self.calls.count_fault();
            self.starved = true;
            return Err(Failed);
        }
        Ok(count)
    }
}
