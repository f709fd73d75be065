//! Replies to clients, seen where they lie.
ghost use Rattle.std.specs.Prelude.{◌≡◌, true, IfOk};
ghost use Rattle.craft_base.specs.Shape.{members_of};
ghost use Rattle.entry_frames.specs.Formats.{U8, number_at, reading};
ghost use Rattle.entry_frames.specs.declared.reply_kind.ReplyKind.TheVariants as reply_kinds;
ghost use Rattle.entry_frames.specs.Replies.{reply_fields, reply_fields_of, member_with, is_hint_byte};
ghost use Rattle.entry_frames.specs.Steps.{Reads, ReadsByte};
ghost use Rattle.peer_frames.specs.RequestViews.{reply_of_view};

use craft_base::{Blob, MemberId, OutOfMemory, Reply, Shape};
use entry_frames::{Fields, FrameFault, LAST_PLACE, LONGEST_VALUE, ReplyKind};
use std::alloc::Global;

/// What a client is told; a value is lent.
#[derive(Clone, Copy, Debug)]
pub enum ReplyView<'a> {
    Done(u64),
    Differs(u64),
    Gone(bool),
    Value(u64, &'a [u8]),
    Nothing,
    Old,
    Elsewhere(Option<MemberId>),
    Preparing,
    Busy,
    Full,
}

impl<'a> ReplyView<'a> {
    /// A reply of its own. The only error is want of memory.
    pub fn to_reply(&self, alloc: Global) -> Result<Reply, OutOfMemory>
        ensures { IfOk result (λ reply. reply ≡ reply_of_view self.now) }
    {
        Ok(match self {
            ReplyView::Done(version) => Reply::Done(*version),
            ReplyView::Differs(version) => Reply::Differs(*version),
            ReplyView::Gone(was_there) => Reply::Gone(*was_there),
            ReplyView::Value(version, value) => Reply::Value(
                *version,
                Blob::copy_of(alloc, value)?,
            ),
            ReplyView::Nothing => Reply::Nothing,
            ReplyView::Old => Reply::Old,
            ReplyView::Elsewhere(hint) => Reply::Elsewhere(*hint),
            ReplyView::Preparing => Reply::Preparing,
            ReplyView::Busy => Reply::Busy,
            ReplyView::Full => Reply::Full,
        })
    }
}

/// Reads a reply off the front of what is left of a frame.
pub fn read_reply<'a>(fields: &mut Fields<'a>, shape: &Shape) -> Result<ReplyView<'a>, FrameFault>
    ensures { Reads reply_of_view result fields.new (reading (reply_fields (members_of shape.now)) fields.old) }
{
    let kind = ReplyKind::read(fields)?;
    reply_of_kind(fields, shape, kind)
}

/// Reads what is behind the kind of a reply.
fn reply_of_kind<'a>(
    fields: &mut Fields<'a>,
    shape: &Shape,
    kind: ReplyKind,
) -> Result<ReplyView<'a>, FrameFault>
    ensures { Reads reply_of_view result fields.new (reading (reply_fields_of (members_of shape.now) kind) fields.old) }
{
    match kind {
        ReplyKind::Done => Ok(ReplyView::Done(fields.u64(0, LAST_PLACE)?)),
        ReplyKind::Differs => Ok(ReplyView::Differs(fields.u64(0, LAST_PLACE)?)),
        ReplyKind::Gone => Ok(ReplyView::Gone(fields.byte(0, 1)? == 1)),
        ReplyKind::Found => read_found(fields),
        ReplyKind::Nothing => Ok(ReplyView::Nothing),
        ReplyKind::Old => Ok(ReplyView::Old),
        ReplyKind::Elsewhere => Ok(ReplyView::Elsewhere(read_hint(fields, shape)?)),
        ReplyKind::Preparing => Ok(ReplyView::Preparing),
        ReplyKind::Busy => Ok(ReplyView::Busy),
        ReplyKind::Full => Ok(ReplyView::Full),
    }
}

/// Reads a version and a value.
fn read_found<'a>(fields: &mut Fields<'a>) -> Result<ReplyView<'a>, FrameFault>
    ensures { Reads reply_of_view result fields.new (reading (reply_fields_of 0 reply_kinds.Found) fields.old) }
{
    let version = fields.u64(0, LAST_PLACE)?;
    let vlen = fields.u32(0, LONGEST_VALUE)?;
    let value = fields.bytes(vlen as usize)?;
    Ok(ReplyView::Value(version, value))
}

/// Reads a member, or none.
fn read_hint(fields: &mut Fields<'_>, shape: &Shape) -> Result<Option<MemberId>, FrameFault>
    ensures { ReadsByte member_with result fields.new (number_at true U8 (is_hint_byte (members_of shape.now)) fields.old) }
{
    let at = fields.at();
    let members = shape.members();
    let byte = fields.byte(0, u8::MAX)?;
    if byte == NOBODY {
        return Ok(None);
    }
    if byte >= members {
        return Err(FrameFault::Bad(at));
    }
    Ok(MemberId::new(shape, byte))
}

/// The byte that stands for no member.
const NOBODY: u8 = 255;
