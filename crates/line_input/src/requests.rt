//! What a client asks for, as words.
ghost use Rattle.std.specs.Prelude.{◌≡◌, IfOk};
ghost use Rattle.world_model.specs.Calls as calls;
ghost use Rattle.world_model.specs.Numbers.{number_of};

use crate::digits::bytes_of;
use crate::numeral::number;
use craft_base::{Blob, Op, Request};
use entry_frames::{GREATEST, LONGEST_VALUE, OpKind};
use std::alloc::{AllocError, Global};

/// The most bytes of a key.
pub const LONGEST_KEY: usize = 255;

/// The request that words say, if they say one.
pub fn request_in(
    alloc: Global,
    client: &[u8],
    seq: &[u8],
    op: &[u8],
    key: &[u8],
    value: &[u8],
) -> Result<Option<Request>, AllocError>
    ensures { IfOk result (λ request. request ≡ calls.request_in client.now seq.now op.now key.now value.now) }
{
    let key = bytes_of(alloc, LONGEST_KEY, key)?;
    let value = bytes_of(alloc, LONGEST_VALUE as usize, value)?;
    let client = number_within(1, GREATEST, client);
    let seq = number_within(1, GREATEST, seq);
    Ok(request_of(client, seq, op_in(op), key, value))
}

/// The number that a word spells, if it lies in that range.
pub fn number_within(least: u64, most: u64, word: &[u8]) -> Option<u64>
    ensures { result ≡ calls.number_within least most (number_of word.now) }
{
    let number = number(word)?;
    if number < least || number > most {
        return None;
    }
    Some(number)
}

/// `put`, `del`, `get`, or `putif=` and the version that is expected.
pub fn op_in(word: &[u8]) -> Option<Op>
    ensures { result ≡ calls.op_in word.now }
{
    if word == b"put".as_slice() {
        Some(Op::Put)
    } else if word == b"del".as_slice() {
        Some(Op::Del)
    } else if word == b"get".as_slice() {
        Some(Op::Get)
    } else {
        let version = word.strip_prefix(b"putif=".as_slice())?;
        number_within(0, GREATEST, version).map(Op::PutIf)
    }
}

/// The request of these parts: there is a key, and a value only where one is set.
pub fn request_of(
    client: Option<u64>,
    seq: Option<u64>,
    op: Option<Op>,
    key: Option<Blob>,
    value: Option<Blob>,
) -> Option<Request>
    ensures { result ≡ calls.request_of client seq op key value }
{
    let client = client?;
    let seq = seq?;
    let op = op?;
    let key = key?;
    let value = value?;
    if !goes_with(op, key.as_bytes(), value.as_bytes()) {
        return None;
    }
    Some(Request {
        client,
        seq,
        op,
        key,
        value,
    })
}

/// Whether there is a key, and a value only where one is set.
fn goes_with(op: Op, key: &[u8], value: &[u8]) -> bool
    ensures { result ≡ calls.goes_with op key.now value.now }
{
    !key.is_empty() && (OpKind::of(op).sets() || value.is_empty())
}
