//! A source in memory.
use crate::calls::Calls;
use crate::failed::Failed;
use crate::source::Source;
use std::marker::Model;

/// A source over bytes in memory. It gives them in pieces, and fails at the calls that it was told to fail at.
#[derive(Drop)]
pub struct MemSource {
    bytes: Vec<u8>,
    at: usize,
    piece: usize,
    calls: Calls,
}

impl Model for MemSource {
    ghost use Rattle.std.specs.Prelude.{◌≤◌, drop, length};
    ghost use Rattle.craft_edge.specs.MemSource.{SourceState};

    ghost Value = { SourceState };

    ghost view = { λ s. record { left = drop s.at s.bytes.items; piece = s.piece; calls = s.calls } };

    ghost invariant = { λ s. (s.at ≤ length s.bytes.items) × (1 ≤ s.piece) };
}

impl MemSource {
    ghost use Rattle.std.specs.Prelude.{◌≡◌, ◌≤◌};

    /// A source of `bytes` that gives at most `piece` of them at a call, and fails at the calls whose
    /// numbers stand in `fail`, counted from 1, and at no other. The count of calls stands still at
    /// `u64::MAX`, so from there on every call has that number.
    pub fn new(bytes: Vec<u8>, piece: usize, fail: Vec<u64>) -> MemSource
        requires { 1 ≤ piece }
        ensures { result ≡ record { left = bytes.items; piece = piece; calls = record { fail = fail.items; made = 0; faults = 0 } } }
    {
        MemSource {
            bytes,
            at: 0,
            piece,
            calls: Calls::new(fail),
        }
    }
}

impl Source for MemSource {
    ghost use Rattle.std.specs.Prelude.{◌≡◌, ◌++◌, Some, is_some, is_err, take, drop, length, IfOk, OnErr};
    ghost use Rattle.std.specs.Io.{ReadsAtMost};
    ghost use Rattle.std.specs.Io.KnownBytes.{ReadConsumes};
    ghost use Rattle.craft_edge.specs.Causes.{HasCause};
    ghost use Rattle.craft_edge.specs.Calls.{next_fails};
    ghost use Rattle.craft_edge.specs.MemSource.{after_read, piece_len};

    ghost left = { λ s. Some s.left };

    ghost faults = { λ s. s.calls.faults };

    fn read(&mut self, buf: &mut [u8]) -> Result<usize, Failed>
        ensures bound { ReadsAtMost result buf.new }
        ensures bytes { ReadConsumes (Some self.old.left) (Some self.new.left) result buf.new }
        ensures told { is_some (Some self.new.left) ≡ is_some (Some self.old.left) }
        ensures cause { HasCause self.old.calls.faults self.new.calls.faults result }

        ensures listed { is_err result ≡ next_fails self.old.calls }
        ensures count { IfOk result (λ n. n ≡ piece_len self.old (length buf.old)) }
        ensures given { IfOk result (λ n. buf.new ≡ take n self.old.left ++ drop n buf.old) }
        ensures after { IfOk result (λ n. self.new ≡ after_read self.old n) }
        ensures after_fault { OnErr result (self.new ≡ after_read self.old 0) }
        ensures untouched { OnErr result (buf.new ≡ buf.old) }
    {
        if self.calls.next_fails() {
            return Err(Failed);
        }
        let rest = &self.bytes[self.at..];
        let count = self.piece.min(buf.len()).min(rest.len());
        buf[..count].copy_from_slice(&rest[..count]);
        self.at += count;
        Ok(count)
    }
}
