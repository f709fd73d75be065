//! The disk in memory.
use crate::order::next_order;
use crate::past::{Note, Past, Work};
use crate::read::read_into;
use crate::spoil::spoil;
use crate::write::next_write;
use craft_base::OutOfMemory;
use craft_edge::{Calls, Disk, Failed, Stopping};
use std::alloc::Global;
use std::marker::Model;

/// A disk in memory. It fails at the calls that it was told to fail at, or for want of memory, and stops
/// where it is told to.
///
/// Each call of `Disk` is a device call. It fails where its number is listed or the disk was stopped. It may
/// also fail for want of memory, or because a write would end past 2^62: then `starved` is true from that
/// call on. A call that fails writes nothing, but for a write at which the disk stops: where `starved` is
/// false its range is then pending with the bytes given. A sync that fails leaves all pending.
#[derive(Drop)]
pub struct MemDisk {
    bytes: Vec<u8>,
    pending: Vec<(u64, u64)>,
    calls: Calls,
    // the calls until the disk stops, the one at which it does among them
    left: Option<u8>,
    keep: bool,
    starved: bool,
    past: Past,
}

impl Model for MemDisk {
    ghost use Rattle.crash_disk.specs.MemDisk.{DiskInMemory};
    ghost use Rattle.crash_disk.specs.Codes.{disk_code};

    ghost Value = { DiskInMemory };

    ghost coded = { disk_code };

    ghost use Rattle.crash_disk.specs.Kept.{Keeps};

    ghost view = { λ d. record { told = d.past.told; calls = d.calls; starved = d.starved } };

    ghost invariant = { λ d. Keeps d.bytes.items d.pending.items d.left d.keep (record { told = d.past.told; calls = d.calls; starved = d.starved }) };
}

impl MemDisk {
    ghost use Rattle.std.specs.Prelude.{◌≡◌, ◌≤◌, [], length, IfOk};
    ghost use Rattle.craft_edge.specs.Disk.{max_len};
    ghost use Rattle.crash_disk.specs.MemDisk.{made_disk, IsAsTold, IsImageOf};
    ghost use Rattle.crash_disk.specs.Image.{crash_image};
    ghost use Rattle.crash_disk.specs.Told.{MayLeave};

    /// An empty disk. It fails at the device calls whose numbers stand in `fail`, counted from 1. The count
    /// of calls stands still at `u64::MAX`, so from there on every call has that number. The bytes are kept
    /// by the allocator of `fail`.
    pub fn new(fail: Vec<u64>) -> MemDisk
        ensures { result ≡ made_disk [] fail.items }
    {
        let alloc = *fail.allocator();
        MemDisk::made(Vec::new(alloc), fail)
    }

    // A disk that holds these bytes, of which none is pending.
    fn made(bytes: Vec<u8>, fail: Vec<u64>) -> MemDisk
        requires { length bytes.items ≤ max_len }
        ensures { result ≡ made_disk bytes.items fail.items }
    {
        let past = Past::new().with(&Note::Made {
            bytes: &bytes,
            fail: &fail,
        });
        MemDisk {
            pending: Vec::new(*fail.allocator()),
            bytes,
            calls: Calls::new(fail),
            left: None,
            keep: true,
            starved: false,
            past,
        }
    }

    /// Whether a call since `new` or the last `image` failed for want of memory, or because a write would
    /// end past 2^62. Where it is false, the calls failed exactly where they were listed or stopped; and
    /// where at most one stop was told, too, what a read gives and what is pending follow from the calls.
    pub fn starved(&self) -> bool
        ensures value { result ≡ self.now.starved }
        ensures as_told { IsAsTold self.now }
    {
        // so that the proof sees what every disk keeps
        let _ = &self.past;
        self.starved
    }

    /// The disk after a crash: nothing is pending, no call is to fail, and its calls are counted anew. Where
    /// the last stop told keeps, or none was told, it holds what a read gave; where that stop doesn't keep,
    /// each pending byte b is 255 - b. It is kept by `alloc`, but for the bytes where they are kept.
    ///
    /// Fails only for want of memory.
    pub fn image(self, alloc: Global) -> Result<MemDisk, OutOfMemory>
        ensures fresh { IfOk result (λ disk. disk ≡ made_disk (crash_image self.told.history.last_stop self.told.now) []) }
        ensures left { IfOk result (λ disk. MayLeave self.told.now disk.told.now.bytes) }

        // Which image that is, by the history alone.
        ensures as_told { IfOk result (λ disk. IsImageOf self disk.told.now.bytes) }
    {
        let MemDisk {
            bytes,
            pending,
            calls: _,
            left: _,
            keep,
            starved: _,
            past: _,
        } = self;
        if keep {
            return Ok(MemDisk::made(bytes, Vec::new(alloc)));
        }
        let spoiled = spoil(alloc, &bytes, &pending)?;
        Ok(MemDisk::made(spoiled, Vec::new(alloc)))
    }
}

impl Disk for MemDisk {
    ghost use Rattle.std.specs.Prelude.{◌≡◌, ◌+◌, ◌<◌, ◌≤◌, ◌∷◌, true, Some, length, is_err, is_some, IfOk, OnOk, IsErr};
    ghost use Rattle.std.specs.Io.{ReadsAtMost};
    ghost use Rattle.std.proofs.Common.{inl, refl};
    ghost use Rattle.craft_edge.specs.Causes.{HasCause};
    ghost use Rattle.craft_edge.specs.Disk.{max_len, WhereTold, Writes, ReadsAt, Torn, Follows, NoMore, Only, Elapses};
    ghost use Rattle.craft_edge.specs.DiskCalls.{Len, ReadAt, WriteAt, Sync, after_call_of};
    ghost use Rattle.crash_disk.specs.MemDisk.{Makes, next_is_to_fail};
    ghost use Rattle.crash_disk.specs.Told.{MayLeave, LeftSince, now_alone, left_since};

    ghost seen = { λ d. Some d.told.now.bytes };

    ghost tells_crash = { λ _. true };

    ghost may_leave = { λ d image. MayLeave d.told.now image };

    ghost tells_past = { λ _. true };

    ghost moment = { λ d. length d.told.earlier };

    ghost left_since = { λ d. left_since d.told };

    ghost history = { λ d. Some d.told.history };

    ghost faults = { λ d. d.calls.faults };

    ghost leaves_seen = { λ d told. inl refl };

    ghost counts_now = { λ d t image told le now. inl (le, now) };

    ghost only_now = { λ d image told since. now_alone d.told.now d.told.earlier image since };

    fn len(&mut self) -> Result<u64, Failed>
        ensures bound { IfOk result (λ n. n ≤ max_len) }
        ensures value { IfOk result (λ n. n ≡ length self.old.told.now.bytes) }
        ensures seen { Some self.new.told.now.bytes ≡ Some self.old.told.now.bytes }
        ensures crash { WhereTold true (NoMore (MayLeave self.old.told.now) (MayLeave self.new.told.now)) }
        ensures tells_crash { true ≡ true }
        ensures time { WhereTold true (Elapses (length self.old.told.earlier) (length self.new.told.earlier) (left_since self.old.told) (left_since self.new.told) (MayLeave self.new.told.now)) }
        ensures tells_past { true ≡ true }
        ensures history { Some self.new.told.history ≡ after_call_of (Some self.old.told.history) Len (is_err result) }
        ensures cause { HasCause self.old.calls.faults self.new.calls.faults result }

        ensures made { Makes Len (is_err result) self.old self.new }
        ensures needs_no_memory { (is_err result ≡ next_is_to_fail self.old) × (self.new.starved ≡ self.old.starved) }
    {
        let order = next_order(&mut self.calls, &mut self.left);
        self.past = self.past.with(&Note::Call {
            work: Work::Len,
            failed: order.fails,
            effect: false,
        });
        if order.fails {
            return Err(Failed);
        }
        Ok(self.bytes.len() as u64)
    }

    fn read_at(&mut self, at: u64, buf: &mut [u8]) -> Result<usize, Failed>
        ensures bound { ReadsAtMost result buf.new }
        ensures bytes { IfOk result (λ n. ReadsAt self.old.told.now.bytes at n buf.new) }
        ensures seen { Some self.new.told.now.bytes ≡ Some self.old.told.now.bytes }
        ensures crash { WhereTold true (NoMore (MayLeave self.old.told.now) (MayLeave self.new.told.now)) }
        ensures tells_crash { true ≡ true }
        ensures time { WhereTold true (Elapses (length self.old.told.earlier) (length self.new.told.earlier) (left_since self.old.told) (left_since self.new.told) (MayLeave self.new.told.now)) }
        ensures tells_past { true ≡ true }
        ensures history { Some self.new.told.history ≡ after_call_of (Some self.old.told.history) (ReadAt at (length buf.old)) (is_err result) }
        ensures cause { HasCause self.old.calls.faults self.new.calls.faults result }

        ensures made { Makes (ReadAt at (length buf.old)) (is_err result) self.old self.new }
        ensures needs_no_memory { (is_err result ≡ next_is_to_fail self.old) × (self.new.starved ≡ self.old.starved) }
    {
        let order = next_order(&mut self.calls, &mut self.left);
        self.past = self.past.with(&Note::Call {
            work: Work::ReadAt { at, len: buf.len() },
            failed: order.fails,
            effect: false,
        });
        if order.fails {
            return Err(Failed);
        }
        Ok(read_into(&self.bytes, at, buf))
    }

    fn write_at(&mut self, at: u64, bytes: &[u8]) -> Result<(), Failed>
        ensures written { Writes (Some self.old.told.now.bytes) (Some self.new.told.now.bytes) at bytes.now result }
        ensures limit { max_len < at + length bytes.now → IsErr result × (Some self.new.told.now.bytes ≡ Some self.old.told.now.bytes) }
        ensures told { is_some (Some self.new.told.now.bytes) ≡ is_some (Some self.old.told.now.bytes) }
        ensures crash { WhereTold true (Follows (Torn at bytes.now) (MayLeave self.old.told.now) (MayLeave self.new.told.now)) }
        ensures tells_crash { true ≡ true }
        ensures time { WhereTold true (Elapses (length self.old.told.earlier) (length self.new.told.earlier) (left_since self.old.told) (left_since self.new.told) (MayLeave self.new.told.now)) }
        ensures tells_past { true ≡ true }
        ensures history { Some self.new.told.history ≡ after_call_of (Some self.old.told.history) (WriteAt at bytes.now) (is_err result) }
        ensures cause { HasCause self.old.calls.faults self.new.calls.faults result }

        ensures made { Makes (WriteAt at bytes.now) (is_err result) self.old self.new }
        ensures far { max_len < at + length bytes.now → (self.new.starved ≡ true) × (self.new.told.now ≡ self.old.told.now) }
    {
        let effect = next_write(
            &mut self.calls,
            &mut self.left,
            &mut self.bytes,
            &mut self.pending,
            at,
            bytes,
        );
        self.starved |= effect.starves;
        self.past = self.past.with(&Note::Call {
            work: Work::WriteAt { at, bytes },
            failed: effect.failed,
            effect: effect.carried,
        });
        if effect.failed {
            return Err(Failed);
        }
        Ok(())
    }

    fn sync(&mut self) -> Result<(), Failed>
        ensures durable { OnOk result (WhereTold true (Only self.old.told.now.bytes (MayLeave self.new.told.now))) }
        ensures seen { Some self.new.told.now.bytes ≡ Some self.old.told.now.bytes }
        ensures crash { WhereTold true (NoMore (MayLeave self.old.told.now) (MayLeave self.new.told.now)) }
        ensures tells_crash { true ≡ true }
        ensures time { WhereTold true (Elapses (length self.old.told.earlier) (length self.new.told.earlier) (left_since self.old.told) (left_since self.new.told) (MayLeave self.new.told.now)) }
        ensures tells_past { true ≡ true }
        ensures history { Some self.new.told.history ≡ after_call_of (Some self.old.told.history) Sync (is_err result) }
        ensures cause { HasCause self.old.calls.faults self.new.calls.faults result }

        ensures made { Makes Sync (is_err result) self.old self.new }
        ensures needs_no_memory { (is_err result ≡ next_is_to_fail self.old) × (self.new.starved ≡ self.old.starved) }
    {
        let order = next_order(&mut self.calls, &mut self.left);
        self.past = self.past.with(&Note::Call {
            work: Work::Sync,
            failed: order.fails,
            effect: !order.fails,
        });
        if order.fails {
            return Err(Failed);
        }
        self.pending.clear();
        Ok(())
    }
}

impl Stopping for MemDisk {
    ghost use Rattle.std.specs.Prelude.{◌≡◌, ◌≢◌, true, Some, length};
    ghost use Rattle.craft_edge.specs.Disk.{WhereTold, SameImages, StandsStill};
    ghost use Rattle.craft_edge.specs.DiskCalls.{after_stop_of};
    ghost use Rattle.crash_disk.specs.Told.{MayLeave, after_stop, left_since};

    fn stop(&mut self, call: u8, keep: bool)
        requires { call ≢ 0 }
        ensures history { Some self.new.told.history ≡ after_stop_of (Some self.old.told.history) call keep }
        ensures seen { Some self.new.told.now.bytes ≡ Some self.old.told.now.bytes }
        ensures crash { WhereTold true (SameImages (MayLeave self.old.told.now) (MayLeave self.new.told.now)) }
        ensures tells_crash { true ≡ true }
        ensures time { WhereTold true (StandsStill (length self.old.told.earlier) (length self.new.told.earlier) (left_since self.old.told) (left_since self.new.told)) }
        ensures tells_past { true ≡ true }
        ensures faults { self.new.calls.faults ≡ self.old.calls.faults }

        ensures told { self.new ≡ record self.old { told = after_stop self.old.told call keep } }
    {
        self.left = Some(call);
        self.keep = keep;
        self.past = self.past.with(&Note::Stop { call, keep });
    }
}
