//! What tests of bytes write in words: bytes as hexadecimal digits with blanks between them. Only tests use it.
#![tactic(auto)]

ghost use Rattle.std.specs.Prelude.{◌≡◌, ◌++◌, filter, not, IfOk, Ok};
ghost use Rattle.std.specs.Char.{is_ascii_whitespace};
ghost use Rattle.hex.specs.Hex.{decode_of};

use hex::FromHexError;
use std::alloc::{AllocError, Global};

/// The bytes of a text of hexadecimal digits, between which blanks and line feeds may stand.
pub fn bytes_of(alloc: Global, text: &str) -> Result<Vec<u8>, FromHexError>
    ensures { IfOk result (λ bytes. decode_of (filter (λ byte. not (is_ascii_whitespace byte)) text.now) ≡ Ok bytes.items) }
{
    let digits = text
        .bytes()
        .filter(|byte| !byte.is_ascii_whitespace())
        .collect::<Vec<u8>>(alloc)?;
    hex::decode(alloc, digits)
}

/// Some bytes and then others.
pub fn joined(alloc: Global, front: &[u8], rest: &[u8]) -> Result<Vec<u8>, AllocError>
    ensures { IfOk result (λ bytes. bytes.items ≡ front.now ++ rest.now) }
{
    let mut bytes = front.to_vec(alloc)?;
    bytes.extend_from_slice(rest)?;
    Ok(bytes)
}
