//! The entries of a log that go in one message.
ghost use Rattle.std.specs.Prelude.{◌≡◌, ◌≤◌, ◌+◌, ◌-◌, ℕ, drop, length, Some, IfOk};
ghost use Rattle.coded_append.specs.Batches.{batch_of, coded_batch, whole_batch};
ghost use Rattle.coded_append.specs.Ways.{IsWay, going, sendable};
ghost use Rattle.entry_frames.specs.Logs.{entry_at, viewed_with};

use crate::forms::{Way, goes, sent_entry, sent_size};
use craft_base::{MemberId, OutOfMemory, Shape};
use entry_frames::{Batch, EntryView, LogView, MOST_ENTRIES, MOST_ENTRY_BYTES};
use std::alloc::Global;

/// The entries of the log from the index `start` on as they go to a member in Coded mode: a value that has bytes as the
/// member's fragment, encoded once. They are at most 8, have at most 56,000 bytes as they go, and end before the first that
/// the log itself holds as a part. The only error is want of memory.
pub fn coded_batch<L: LogView>(
    alloc: Global,
    log: &L,
    shape: &Shape,
    member: MemberId,
    start: u64,
) -> Result<Batch, OutOfMemory>
    requires least { 1 ≤ start }
    requires most { start ≤ length (L.log log.now).entries + 1 }
    ensures { IfOk result (λ batch. batch ≡ coded_batch shape.now.need member (L.log log.now).entries start) }
{
    let need = shape.need();
    batch_of(alloc, log, &Way::Part { need, member }, start)
}

/// The entries of the log from the index `start` on as they go in Complete mode, which is as they are: at most 8, of at most
/// 56,000 bytes, and none from the first on that the log itself holds as a part. The only error is want of memory.
pub fn whole_batch<L: LogView>(alloc: Global, log: &L, start: u64) -> Result<Batch, OutOfMemory>
    requires least { 1 ≤ start }
    requires most { start ≤ length (L.log log.now).entries + 1 }
    ensures { IfOk result (λ batch. batch ≡ whole_batch (L.log log.now).k (L.log log.now).entries start) }
{
    batch_of(alloc, log, &Way::Whole, start)
}

/// The entries of the log from the index `start` on in the forms in which it holds them, as a member shows them to who prepares
/// to lead: at most 8, of at most 56,000 bytes, and none where `start` is behind the last. The only error is want of memory.
pub fn page_from<L: LogView>(alloc: Global, log: &L, start: u64) -> Result<Batch, OutOfMemory>
    requires { 1 ≤ start }
    ensures { IfOk result (λ batch. batch ≡ batch_of (L.log log.now).k (drop (start - 1) (L.log log.now).entries)) }
{
    if start > log.last() {
        return Ok(Batch::new());
    }
    batch_of(alloc, log, &Way::Held, start)
}

/// The entries of the log from an index on, each in the form in which it goes, as many as one message has room for. They end
/// before the first that doesn't go.
fn batch_of<L: LogView>(alloc: Global, log: &L, way: &Way, start: u64) -> Result<Batch, OutOfMemory>
    requires way { IsWay way.now }
    requires least { 1 ≤ start }
    requires most { start ≤ length (L.log log.now).entries + 1 }
    ensures { IfOk result (λ batch. (k : ℕ) → batch ≡ batch_of k (going way.now (drop (start - 1) (L.log log.now).entries))) }
{
    let mut batch = Batch::new();
    let mut room = MOST_ENTRY_BYTES;
    for place in 0..MOST_ENTRIES as u64 {
        match sendable(log, start + place, way, room) {
            Some(view) => {
                room -= sent_size(&view, way);
                batch.push(sent_entry(alloc, &view, way)?);
            }
            None => return Ok(batch),
        }
    }
    Ok(batch)
}

/// The entry at that index, where it goes and there is room for the bytes in which it does.
fn sendable<'a, L: LogView>(log: &'a L, index: u64, way: &Way, room: usize) -> Option<EntryView<'a>>
    requires { IsWay way.now }
    ensures { result ≡ viewed_with (L.log log.now).k (sendable way.now room (entry_at (L.log log.now).entries index)) }
{
    match log.at(index) {
        Some(view) => if_it_fits(view, way, room),
        None => None,
    }
}

/// The entry, where it goes and there is room for the bytes in which it does.
fn if_it_fits<'a>(view: EntryView<'a>, way: &Way, room: usize) -> Option<EntryView<'a>>
    requires { IsWay way.now }
    ensures { result ≡ viewed_with view.entry.k (sendable way.now room (Some view.entry.entry)) }
{
    if goes(&view, way) && sent_size(&view, way) <= room {
        Some(view)
    } else {
        None
    }
}
