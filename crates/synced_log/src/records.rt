//! The records of a file, each of which is tested before it is applied.
ghost use Rattle.std.specs.Prelude.{◌≡◌, ◌+◌, ◌^◌, ◌<◌, IfOk, length, drop};
ghost use Rattle.entry_frames.specs.Formats.{reading, front_of};
ghost use Rattle.entry_frames.specs.Steps.{ReadsTo};
ghost use Rattle.entry_frames.specs.Durable.{Durable};
ghost use Rattle.entry_frames.specs.RecordViews.{record_of};
ghost use Rattle.synced_log.specs.Outlines.{outline_of};
ghost use Rattle.synced_log.specs.Walks.{AppliesOne, AppliesAll, AppliesBehind, body_fields};

use crate::outline::Outline;
use craft_base::{OutOfMemory, Shape};
use entry_frames::{Fields, FrameFault, RecordView, RecordWalk};

/// Applies a record, and answers whether it can be applied. The only error is want of memory.
fn apply_record(
    shape: &Shape,
    outline: &mut Outline,
    item: &RecordView<'_>,
) -> Result<bool, OutOfMemory>
    ensures { IfOk result (λ done. AppliesOne shape.now outline.old (record_of item.now) done outline.new) }
{
    if !outline.can_apply(shape, item) {
        return Ok(false);
    }
    outline.apply(shape, item)?;
    Ok(true)
}

/// Applies all records of a body, and answers whether the bytes are such records. The only error is want of memory.
fn apply_body(shape: &Shape, outline: &mut Outline, body: &[u8]) -> Result<bool, OutOfMemory>
    ensures { IfOk result (λ done. (d : Durable) → outline.old ≡ outline_of d → AppliesAll shape.now d body.now done outline.new) }
{
    let mut walk = RecordWalk::of(shape.need(), body);
    while let Some(item) = walk.next() {
        let Ok(item) = item else {
            return Ok(false);
        };
        if !apply_record(shape, outline, &item)? {
            return Ok(false);
        }
    }
    Ok(true)
}

/// The body behind an open gate.
fn body_behind(bytes: &[u8]) -> Result<&[u8], FrameFault>
    ensures room { length bytes.now < 2 ^ 63 }
    ensures exact { ReadsTo (λ body. body.now) (λ body. record { at = 8 + length body.now; rest = drop (8 + length body.now) bytes.now }) result (reading body_fields (front_of bytes.now)) }
{
    let mut fields = Fields::of(bytes);
    let len = fields.u64(0, u64::MAX)?;
    fields.bytes(len as usize)
}

/// Applies the group behind an open gate, and answers the length of its body; `None` exactly where there is none whose
/// records can be applied. The only error is want of memory.
pub fn apply_group(
    shape: &Shape,
    outline: &mut Outline,
    bytes: &[u8],
) -> Result<Option<usize>, OutOfMemory>
    ensures { IfOk result (λ len. (d : Durable) → outline.old ≡ outline_of d → AppliesBehind shape.now d bytes.now len outline.new) }
{
    let body = match body_behind(bytes) {
        Err(_) => return Ok(None),
        Ok(body) => body,
    };
    if body.is_empty() {
        return Ok(None);
    }
    if !apply_body(shape, outline, body)? {
        return Ok(None);
    }
    Ok(Some(body.len()))
}
