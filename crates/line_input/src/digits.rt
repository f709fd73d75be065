//! Bytes as a word.
ghost use Rattle.std.specs.Prelude.{◌≡◌, IfOk, string_bytes};
ghost use Rattle.std.specs.Char.{is_ascii_uppercase};
ghost use Rattle.std.specs.List.{list_any};
ghost use Rattle.world_model.specs.Calls.{bytes_in};
ghost use Rattle.world_model.specs.Lines.{bytes_word};

use craft_base::Blob;
use hex::FromHexError;
use std::alloc::{AllocError, Global};

/// The bytes in lower case hexadecimal digits, and `-` for none.
pub fn digits_of(alloc: Global, bytes: &[u8]) -> Result<String, AllocError>
    ensures { IfOk result (λ digits. string_bytes digits ≡ bytes_word bytes.now) }
{
    if bytes.is_empty() {
        format!(in alloc; "-")
    } else {
        hex::encode(alloc, bytes)
    }
}

/// The bytes whose digits these are, if they are digits of at most that many.
pub fn bytes_of(alloc: Global, most: usize, word: &[u8]) -> Result<Option<Blob>, AllocError>
    ensures { IfOk result (λ bytes. bytes ≡ bytes_in most word.now) }
{
    if word == b"-".as_slice() {
        return Ok(Some(Blob::of(Vec::new(alloc))));
    }
    if word.is_empty() || word.len() / 2 > most || has_upper_case(word) {
        return Ok(None);
    }
    match hex::decode(alloc, word) {
        Ok(bytes) => Ok(Some(Blob::of(bytes))),
        Err(FromHexError::OutOfMemory) => Err(AllocError),
        Err(_) => Ok(None),
    }
}

/// Whether an upper case letter is among the bytes.
fn has_upper_case(word: &[u8]) -> bool
    ensures { result ≡ list_any is_ascii_uppercase word.now }
{
    word.iter().any(|byte| byte.is_ascii_uppercase())
}
