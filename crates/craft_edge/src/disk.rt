//! Bytes that last, and what a crash leaves of them.
ghost use Rattle.std.specs.Prelude.{◌≡◌, ◌≢◌, ◌+◌, ◌<◌, ◌≤◌, ℕ, Bool, List, Option, length, is_some, is_err, IfOk, IfSome, IsErr, IsTrue, OnOk};
ghost use Rattle.std.specs.Io.{ReadsAtMost};
ghost use Rattle.craft_edge.specs.Causes.{HasCause};
ghost use Rattle.craft_edge.specs.Disk.{max_len, WhereTold, Writes, ReadsAt, Torn, Follows, NoMore, OnlySeen, Elapses, SameImages, StandsStill};
ghost use Rattle.craft_edge.specs.DiskCalls.{DiskHistory, DiskWork, Len, ReadAt, WriteAt, Sync, after_call_of, after_stop_of};

use crate::failed::Failed;

/// A disk: one file of bytes, of which a crash between two syncs may spoil what was written since the first.
///
/// Between two syncs each written range, and what lies past the old end, may hold any bytes after a crash, and
/// the file may have any length between that of the last sync and the present one. Bytes outside written
/// ranges stay. After a sync that succeeds a crash leaves what a read gives. A sync that fails leaves the
/// ranges as they are. A length is at most 2^62.
///
/// A disk has four meanings. It tells each of them or doesn't, and a call never changes which. Each call is a
/// device call and counts in the history, also where it fails.
pub trait Disk {
    /// The bytes that a read gives, where the disk tells them.
    ghost seen: { Self → Option (List ℕ) };

    /// Whether the disk tells which images a crash may leave.
    ghost tells_crash: { Self → Bool };

    /// An image that a crash now may leave.
    ghost may_leave: { Self → List ℕ → Type 0 };

    /// Whether the disk tells what a crash in its past might have left.
    ghost tells_past: { Self → Bool };

    /// The present moment, as a number that doesn't fall.
    ghost moment: { Self → ℕ };

    /// An image that a crash at some moment from that one on, during a call or between two, might have left.
    ghost left_since: { Self → ℕ → List ℕ → Type 0 };

    /// The device calls made, the stop last told and what the disk was made with, where the disk tells them.
    ghost history: { Self → Option DiskHistory };

    /// How often the disk has failed.
    ghost faults: { Self → ℕ };

    /// The length in bytes. Where it is greater than 2^62 the call fails.
    fn len(&mut self) -> Result<u64, Failed>
        ensures bound { IfOk result (λ n. n ≤ max_len) }
        ensures value { IfOk result (λ n. IfSome (seen self.old) (λ file. n ≡ length file)) }
        ensures seen { seen self.new ≡ seen self.old }
        ensures crash { WhereTold (tells_crash self.old) (NoMore (may_leave self.old) (may_leave self.new)) }
        ensures tells_crash { tells_crash self.new ≡ tells_crash self.old }
        ensures time { WhereTold (tells_past self.old) (Elapses (moment self.old) (moment self.new) (left_since self.old) (left_since self.new) (may_leave self.new)) }
        ensures tells_past { tells_past self.new ≡ tells_past self.old }
        ensures history { history self.new ≡ after_call_of (history self.old) Len (is_err result) }
        ensures cause { HasCause (faults self.old) (faults self.new) result };

    /// Reads at most `buf.len()` bytes from the offset `at` on into the front of `buf` and answers how many:
    /// 0 exactly where `at` is at or past the end or the buffer is empty.
    fn read_at(&mut self, at: u64, buf: &mut [u8]) -> Result<usize, Failed>
        ensures bound { ReadsAtMost result buf.new }
        ensures bytes { IfOk result (λ n. IfSome (seen self.old) (λ file. ReadsAt file at n buf.new)) }
        ensures seen { seen self.new ≡ seen self.old }
        ensures crash { WhereTold (tells_crash self.old) (NoMore (may_leave self.old) (may_leave self.new)) }
        ensures tells_crash { tells_crash self.new ≡ tells_crash self.old }
        ensures time { WhereTold (tells_past self.old) (Elapses (moment self.old) (moment self.new) (left_since self.old) (left_since self.new) (may_leave self.new)) }
        ensures tells_past { tells_past self.new ≡ tells_past self.old }
        ensures history { history self.new ≡ after_call_of (history self.old) (ReadAt at (length buf.old)) (is_err result) }
        ensures cause { HasCause (faults self.old) (faults self.new) result };

    /// Writes the bytes at the offset `at`, over what is there and past the end. A write that fails may have
    /// written any part of its range. Where its end would be above 2^62 it fails and writes nothing.
    fn write_at(&mut self, at: u64, bytes: &[u8]) -> Result<(), Failed>
        ensures written { Writes (seen self.old) (seen self.new) at bytes.now result }
        ensures limit { max_len < at + length bytes.now → IsErr result × (seen self.new ≡ seen self.old) }
        ensures told { is_some (seen self.new) ≡ is_some (seen self.old) }
        ensures crash { WhereTold (tells_crash self.old) (Follows (Torn at bytes.now) (may_leave self.old) (may_leave self.new)) }
        ensures tells_crash { tells_crash self.new ≡ tells_crash self.old }
        ensures time { WhereTold (tells_past self.old) (Elapses (moment self.old) (moment self.new) (left_since self.old) (left_since self.new) (may_leave self.new)) }
        ensures tells_past { tells_past self.new ≡ tells_past self.old }
        ensures history { history self.new ≡ after_call_of (history self.old) (WriteAt at bytes.now) (is_err result) }
        ensures cause { HasCause (faults self.old) (faults self.new) result };

    /// Makes what was written last. After a sync that succeeds, a crash leaves what a read gives.
    fn sync(&mut self) -> Result<(), Failed>
        ensures durable { OnOk result (WhereTold (tells_crash self.old) (OnlySeen (seen self.old) (may_leave self.new))) }
        ensures seen { seen self.new ≡ seen self.old }
        ensures crash { WhereTold (tells_crash self.old) (NoMore (may_leave self.old) (may_leave self.new)) }
        ensures tells_crash { tells_crash self.new ≡ tells_crash self.old }
        ensures time { WhereTold (tells_past self.old) (Elapses (moment self.old) (moment self.new) (left_since self.old) (left_since self.new) (may_leave self.new)) }
        ensures tells_past { tells_past self.new ≡ tells_past self.old }
        ensures history { history self.new ≡ after_call_of (history self.old) Sync (is_err result) }
        ensures cause { HasCause (faults self.old) (faults self.new) result };

    /// What a read gives is one of the images that a crash now may leave.
    ghost leaves_seen: { (disk : Self) → WhereTold (tells_crash disk) (IfSome (seen disk) (may_leave disk)) };

    /// The present moment is one of those since an earlier one.
    ghost counts_now: { (disk : Self) (t : ℕ) (image : List ℕ) → WhereTold (tells_past disk) (t ≤ moment disk → may_leave disk image → left_since disk t image) };

    /// Since the present moment there is no other.
    ghost only_now: { (disk : Self) (image : List ℕ) → WhereTold (tells_past disk) (left_since disk (moment disk) image → may_leave disk image) };
}

/// A disk that can be told to stop, as a machine that loses its power does.
pub trait Stopping: Disk {
    /// Tells the disk to stop at the `call`-th device call from now, which fails as every later one does, and
    /// whether a crash then keeps what is pending (`keep`) or spoils it. It takes the place of an earlier
    /// stop, and is no device call.
    fn stop(&mut self, call: u8, keep: bool)
        requires { call ≢ 0 }
        ensures history { Self.history self.new ≡ after_stop_of (Self.history self.old) call keep }
        ensures seen { Self.seen self.new ≡ Self.seen self.old }
        ensures crash { WhereTold (Self.tells_crash self.old) (SameImages (Self.may_leave self.old) (Self.may_leave self.new)) }
        ensures tells_crash { Self.tells_crash self.new ≡ Self.tells_crash self.old }
        ensures time { WhereTold (Self.tells_past self.old) (StandsStill (Self.moment self.old) (Self.moment self.new) (Self.left_since self.old) (Self.left_since self.new)) }
        ensures tells_past { Self.tells_past self.new ≡ Self.tells_past self.old }
        ensures faults { Self.faults self.new ≡ Self.faults self.old };
}
