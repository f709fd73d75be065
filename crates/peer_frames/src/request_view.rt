//! What clients ask for, seen where it lies.
ghost use Rattle.std.specs.Prelude.{◌≡◌, true, IfOk};
ghost use Rattle.entry_frames.specs.Formats.{U8, number_at, reading};
ghost use Rattle.entry_frames.specs.MessageFields.{is_request_byte, request_fields, request_fields_of};
ghost use Rattle.entry_frames.specs.Operations.{op_kind_with};
ghost use Rattle.entry_frames.specs.Steps.{Reads, ReadsByte};
ghost use Rattle.peer_frames.specs.RequestViews.{request_of_view};

use craft_base::{Blob, Op, OutOfMemory, Request};
use entry_frames::{Fields, FrameFault, GREATEST, LONGEST_VALUE, OpKind};
use std::alloc::Global;

/// A client's request; its key and its value are lent.
#[derive(Clone, Copy, Debug)]
pub struct RequestView<'a> {
    pub client: u64,
    pub seq: u64,
    pub op: Op,
    pub key: &'a [u8],
    pub value: &'a [u8],
}

impl<'a> RequestView<'a> {
    /// A request of its own. The only error is want of memory.
    pub fn to_request(&self, alloc: Global) -> Result<Request, OutOfMemory>
        ensures { IfOk result (λ request. request ≡ request_of_view self.now) }
    {
        Ok(Request {
            client: self.client,
            seq: self.seq,
            op: self.op,
            key: Blob::copy_of(alloc, self.key)?,
            value: Blob::copy_of(alloc, self.value)?,
        })
    }
}

/// Reads a request off the front of what is left of a frame.
pub fn read_request<'a>(fields: &mut Fields<'a>) -> Result<RequestView<'a>, FrameFault>
    ensures { Reads request_of_view result fields.new (reading request_fields fields.old) }
{
    let client = fields.u64(1, GREATEST)?;
    let seq = fields.u64(1, GREATEST)?;
    let kind = read_asked(fields)?;
    request_behind_op(fields, client, seq, kind)
}

/// Reads an operation that a client can ask for.
fn read_asked(fields: &mut Fields<'_>) -> Result<OpKind, FrameFault>
    ensures { ReadsByte op_kind_with result fields.new (number_at true U8 is_request_byte fields.old) }
{
    let at = fields.at();
    let byte = fields.byte(0, u8::MAX)?;
    match OpKind::with_byte(byte) {
        Some(kind) if kind.is_asked() => Ok(kind),
        _ => Err(FrameFault::Bad(at)),
    }
}

/// Reads what is behind the operation.
fn request_behind_op<'a>(
    fields: &mut Fields<'a>,
    client: u64,
    seq: u64,
    kind: OpKind,
) -> Result<RequestView<'a>, FrameFault>
    ensures { Reads request_of_view result fields.new (reading (request_fields_of client seq kind) fields.old) }
{
    let expected = fields.u64_if(kind.expects(), 0, GREATEST)?;
    let key_len = fields.byte(1, u8::MAX)?;
    let key = fields.bytes(usize::from(key_len))?;
    let vlen = fields.u32_if(kind.sets(), 0, LONGEST_VALUE)?;
    let value = fields.bytes(vlen as usize)?;
    Ok(RequestView {
        client,
        seq,
        op: kind.with_expected(expected),
        key,
        value,
    })
}
