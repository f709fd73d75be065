//! A link in memory.
ghost use Rattle.std.specs.Prelude.{◌≡◌, ◌++◌, ◌∷◌, [], OnOk, OnErr};
ghost use Rattle.craft_edge.specs.MemLink.{packets_of};

use crate::calls::Calls;
use crate::failed::Failed;
use crate::link::{Came, Link};
use std::alloc::{AllocError, Global};
use std::marker::Model;

/// A link that gives packets from memory and keeps those sent. It fails at the calls that it was told to
/// fail at, and a send also for want of memory.
#[derive(Drop)]
pub struct MemLink {
    coming: Vec<(u64, Vec<u8>)>,
    at: usize,
    sent: Vec<(u64, Vec<u8>)>,
    calls: Calls,
    starved: bool,
}

impl Model for MemLink {
    ghost use Rattle.std.specs.Prelude.{◌≤◌, All, drop, length, vec_len};
    ghost use Rattle.craft_edge.specs.MemLink.{LinkState, packets_of};

    ghost Value = { LinkState };

    ghost view = { λ l. record { coming = packets_of (drop l.at l.coming.items); sent = packets_of l.sent.items; calls = l.calls; starved = l.starved } };

    ghost invariant = { λ l. (l.at ≤ length l.coming.items) × All (λ p. vec_len p.1 ≤ 65536) l.coming.items };
}

impl MemLink {
    ghost use Rattle.std.specs.Prelude.{◌≡◌, ◌≤◌, [], false, All, MatchOption, Some, length, slice_get, vec_len};
    ghost use Rattle.craft_edge.specs.MemLink.{packets_of};

    /// A link with these packets to come, each of at most 65,536 bytes, with the places that they come from.
    /// It fails at the calls whose numbers stand in `fail`, counted from 1. The count of calls stands still
    /// at `u64::MAX`, so from there on every call has that number. What is sent is kept by the allocator of
    /// `fail`.
    pub fn new(packets: Vec<(u64, Vec<u8>)>, fail: Vec<u64>) -> MemLink
        requires { All (λ p. vec_len p.1 ≤ 65536) packets.items }
        ensures { result ≡ record { coming = packets_of packets.items; sent = []; calls = record { fail = fail.items; made = 0; faults = 0 }; starved = false } }
    {
        let alloc = *fail.allocator();
        MemLink {
            coming: packets,
            at: 0,
            sent: Vec::new(alloc),
            calls: Calls::new(fail),
            starved: false,
        }
    }

    /// Whether a send failed for want of memory. Where it is false, the calls failed exactly where listed.
    pub fn starved(&self) -> bool
        ensures { result ≡ self.now.starved }
    {
        self.starved
    }

    /// Packet `n` of those sent, counted from 0, with its place.
    pub fn sent(&self, n: u64) -> Option<(u64, &[u8])>
        ensures { MatchOption result (length self.now.sent ≤ n) (λ p. slice_get self.now.sent n ≡ Some (record { place = p.0; bytes = p.1.now })) }
    {
        let (place, bytes) = self.sent.get(n as usize)?;
        Some((*place, bytes.as_slice()))
    }
}

// Keeps a copy of a packet behind those that are there.
fn keep(
    alloc: Global,
    packets: &mut Vec<(u64, Vec<u8>)>,
    place: u64,
    bytes: &[u8],
) -> Result<(), AllocError>
    ensures ok { OnOk result (packets_of packets.new.items ≡ packets_of packets.old.items ++ record { place = place; bytes = bytes.now } ∷ []) }
    ensures err { OnErr result (packets.new.items ≡ packets.old.items) }
{
    let copy = bytes.to_vec(alloc)?;
    packets.push((place, copy))?;
    Ok(())
}

impl Link for MemLink {
    ghost use Rattle.std.specs.Prelude.{◌≡◌, ◌≤◌, Some, Bool, is_some, is_err, length, IfOk, OnErr, IsErr, IsTrue};
    ghost use Rattle.craft_edge.specs.Causes.{HasCause};
    ghost use Rattle.craft_edge.specs.Calls.{next_fails};
    ghost use Rattle.craft_edge.specs.Packets.{after_send};
    ghost use Rattle.craft_edge.specs.Link.{FitsBuffer, Gives};
    ghost use Rattle.craft_edge.specs.MemLink.{after_next, after_mem_send};

    ghost coming = { λ l. Some l.coming };

    ghost sent = { λ l. Some l.sent };

    ghost faults = { λ l. l.calls.faults };

    fn next(&mut self, buf: &mut [u8]) -> Result<Came, Failed>
        requires { 65536 ≤ length buf.old }
        ensures bound { IfOk result (FitsBuffer buf.new) }
        ensures gives { Gives (Some self.old.coming) (Some self.new.coming) buf.new result }
        ensures told { is_some (Some self.new.coming) ≡ is_some (Some self.old.coming) }
        ensures sent { Some self.new.sent ≡ Some self.old.sent }
        ensures cause { HasCause self.old.calls.faults self.new.calls.faults result }

        ensures listed { is_err result ≡ next_fails self.old.calls }
        ensures after { IfOk result (λ came. self.new ≡ after_next self.old 1) }
        ensures after_fault { OnErr result (self.new ≡ after_next self.old 0) }
        ensures untouched { OnErr result (buf.new ≡ buf.old) }
    {
        if self.calls.next_fails() {
            return Err(Failed);
        }
        let Some((place, bytes)) = self.coming.get(self.at) else {
            return Ok(Came::Quiet);
        };
        let (from, len) = (*place, bytes.len());
        buf[..len].copy_from_slice(bytes);
        self.at += 1;
        Ok(Came::Packet { from, len })
    }

    fn send(&mut self, to: u64, bytes: &[u8]) -> Result<(), Failed>
        ensures sent { Some self.new.sent ≡ after_send (Some self.old.sent) (record { place = to; bytes = bytes.now }) (is_err result) }
        ensures coming { Some self.new.coming ≡ Some self.old.coming }
        ensures cause { HasCause self.old.calls.faults self.new.calls.faults result }

        ensures listed { IsTrue (next_fails self.old.calls) → IsErr result }
        ensures after { self.new ≡ after_mem_send self.old (record { place = to; bytes = bytes.now }) (is_err result) }
    {
        if self.calls.next_fails() {
            return Err(Failed);
        }
        let alloc = *self.sent.allocator();
        if keep(alloc, &mut self.sent, to, bytes).is_err() {
            self.calls.count_fault();
            self.starved = true;
            return Err(Failed);
        }
        Ok(())
    }
}
