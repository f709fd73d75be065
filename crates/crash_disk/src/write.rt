//! Writing to the file, whose pending ranges are each an offset and a length.
ghost use Rattle.std.specs.Prelude.{◌≡◌, ◌≤◌, ◌<◌, ◌+◌, ◌-◌, ◌^◌, ◌||◌, [], ◌∷◌, ◌++◌, true, false, not, length, take, drop, replicate, IsTrue, OnOk, OnErr};
ghost use Rattle.craft_edge.specs.Calls.{after_call, next_fails};
ghost use Rattle.craft_edge.specs.Causes.{Rose};
ghost use Rattle.craft_edge.specs.Disk.{max_len, written};
ghost use Rattle.crash_disk.specs.Kept.{is_over, is_last, one_less};

use crate::order::next_order;
use craft_edge::Calls;
use std::alloc::AllocError;

/// The greatest length of the file, in bytes.
const MAX_LEN: u64 = 1 << 62;

/// What became of a write.
#[derive(Clone, Copy)]
pub(crate) struct Effect {
    /// The call failed.
    pub(crate) failed: bool,
    /// The bytes were written, and their range is pending.
    pub(crate) carried: bool,
    /// Memory was wanting, or the range ends too far out.
    pub(crate) starves: bool,
}

// Fills up with zeros to this length.
fn grow(bytes: &mut Vec<u8>, len: usize) -> Result<(), AllocError>
    ensures ok { OnOk result (bytes.new.items ≡ bytes.old.items ++ replicate (len - length bytes.old.items) 0) }
    ensures err { OnErr result (bytes.new.items ≡ bytes.old.items) }
{
    if len <= bytes.len() {
        return Ok(());
    }
    bytes.resize(len, 0)
}

// Copies over a part of the bytes.
fn copy_over(bytes: &mut [u8], at: usize, new: &[u8])
    requires { at + length new.now ≤ length bytes.old }
    ensures { bytes.new ≡ take at bytes.old ++ new.now ++ drop (at + length new.now) bytes.old }
{
    bytes[at..at + new.len()].copy_from_slice(new);
}

// Puts `new` at the offset `at`, over what is there and past the end. A gap is filled with zeros. With no
// memory all stays as it was.
fn overwrite(bytes: &mut Vec<u8>, at: usize, new: &[u8]) -> Result<(), AllocError>
    requires { at + length new.now < 2 ^ 64 }
    ensures ok { OnOk result (bytes.new.items ≡ written bytes.old.items at new.now) }
    ensures err { OnErr result (bytes.new.items ≡ bytes.old.items) }
{
    if new.is_empty() {
        return Ok(());
    }
    grow(bytes, at + new.len())?;
    copy_over(bytes, at, new);
    Ok(())
}

// Writes, and adds the range to those that are pending. With no memory all stays as it was.
fn put(
    bytes: &mut Vec<u8>,
    pending: &mut Vec<(u64, u64)>,
    at: u64,
    new: &[u8],
) -> Result<(), AllocError>
    requires { at + length new.now < 2 ^ 64 }
    ensures ok { OnOk result (bytes.new.items ≡ written bytes.old.items at new.now) }
    ensures err { OnErr result (bytes.new.items ≡ bytes.old.items) }
    ensures pending { OnOk result (pending.new.items ≡ pending.old.items ++ (at, length new.now) ∷ []) }
    ensures pending_err { OnErr result (pending.new.items ≡ pending.old.items) }
{
    pending.reserve(1)?;
    overwrite(bytes, at as usize, new)?;
    // there is room for it
    let _ = pending.push((at, new.len() as u64));
    Ok(())
}

// Writes where it is wanted, and says whether it did and whether that was for want of memory or of room:
// the range may end at the greatest length at most. Where it doesn't write all stays as it was.
fn carry_out(
    wanted: bool,
    bytes: &mut Vec<u8>,
    pending: &mut Vec<(u64, u64)>,
    at: u64,
    new: &[u8],
) -> (bool, bool)
    ensures carried { IsTrue result.0 → (bytes.new.items ≡ written bytes.old.items at new.now) × (pending.new.items ≡ pending.old.items ++ (at, length new.now) ∷ []) }
    ensures nothing { result.0 ≡ false → (bytes.new.items ≡ bytes.old.items) × (pending.new.items ≡ pending.old.items) }
    ensures as_wanted { result.1 ≡ false → result.0 ≡ wanted }
    ensures only_wanted { wanted ≡ false → result.0 ≡ false }
    ensures either { IsTrue result.0 → result.1 ≡ false }
    ensures room { IsTrue result.0 → at + length new.now ≤ max_len }
    ensures limit { max_len < at + length new.now → result.1 ≡ true }
{
    let len = new.len() as u64;
    if len > MAX_LEN || at > MAX_LEN - len {
        return (false, true);
    }
    if !wanted {
        return (false, false);
    }
    let carried = put(bytes, pending, at, new).is_ok();
    (carried, !carried)
}

/// The next call, which is a write: it is counted, and it writes where it wasn't told to fail or is the one
/// at which the disk stops.
pub(crate) fn next_write(
    calls: &mut Calls,
    left: &mut Option<u8>,
    bytes: &mut Vec<u8>,
    pending: &mut Vec<(u64, u64)>,
    at: u64,
    new: &[u8],
) -> Effect
    ensures to_fail { IsTrue (next_fails calls.old || is_over left.old) → IsTrue result.failed }
    ensures as_told { result.starves ≡ false → result.failed ≡ (next_fails calls.old || is_over left.old) }
    ensures effect { result.starves ≡ false → result.carried ≡ (not result.failed || is_last left.old) }
    ensures untorn { IsTrue result.failed → is_last left.old ≡ false → result.carried ≡ false }
    ensures ok { result.failed ≡ false → (result.carried ≡ true) × (result.starves ≡ false) }

    ensures carried { IsTrue result.carried → (bytes.new.items ≡ written bytes.old.items at new.now) × (pending.new.items ≡ pending.old.items ++ (at, length new.now) ∷ []) }
    ensures nothing { result.carried ≡ false → (bytes.new.items ≡ bytes.old.items) × (pending.new.items ≡ pending.old.items) }
    ensures room { IsTrue result.carried → at + length new.now ≤ max_len }
    ensures limit { max_len < at + length new.now → (result.failed ≡ true) × (result.starves ≡ true) }

    ensures calls { calls.new ≡ after_call calls.old result.failed }
    ensures later { calls.old.faults ≤ calls.new.faults }
    ensures rose { IsTrue result.failed → Rose calls.old.faults calls.new.faults }
    ensures left { left.new ≡ one_less left.old }
{
    let order = next_order(calls, left);
    let (carried, starves) = carry_out(!order.fails | order.tears, bytes, pending, at, new);
    let failed = order.fails | !carried;
    if failed & !order.fails {
        calls.count_fault();
    }
    Effect {
        failed,
        carried,
        starves,
    }
}
