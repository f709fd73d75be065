//! The request of `ask`, whose key is text.
ghost use Rattle.std.specs.Prelude.{◌≡◌, map, string_bytes, IfOk};
ghost use Rattle.command_words.specs.Words as commands;

use craft_base::{Blob, OutOfMemory, Request};
use entry_frames::{GREATEST, LONGEST_VALUE};
use line_input::{LONGEST_KEY, bytes_of, number_within, op_in, request_of};
use std::alloc::Global;

/// The request that these words say, if they say one.
pub(crate) fn request_in(
    alloc: Global,
    client: &str,
    seq: &str,
    op: &str,
    key: &str,
    value: &str,
) -> Result<Option<Request>, OutOfMemory>
    ensures { IfOk result (λ request. request ≡ commands.request_in client.now seq.now op.now key.now value.now) }
{
    let key = key_of(alloc, key.as_bytes())?;
    let value = bytes_of(alloc, LONGEST_VALUE as usize, value.as_bytes())?;
    let client = number_within(1, GREATEST, client.as_bytes());
    let seq = number_within(1, GREATEST, seq.as_bytes());
    Ok(request_of(client, seq, op_in(op.as_bytes()), key, value))
}

/// A key that isn't too long.
fn key_of(alloc: Global, word: &[u8]) -> Result<Option<Blob>, OutOfMemory>
    ensures { IfOk result (λ key. key ≡ commands.key_in word.now) }
{
    if word.len() > LONGEST_KEY {
        return Ok(None);
    }
    Ok(Some(Blob::copy_of(alloc, word)?))
}
