//! A place as a word: `a.b.c.d:port`.
ghost use Rattle.std.specs.Prelude.{◌≡◌, ◌==◌, map, IfOk};
ghost use Rattle.std.specs.List.{slice_split};
ghost use Rattle.command_words.specs.Places as places;
ghost use Rattle.world_model.specs.Calls as calls;
ghost use Rattle.world_model.specs.Numbers.{number_of};

use line_input::number_within;
use std::alloc::{AllocError, Global};

/// The place that a word spells, if it spells one.
pub(crate) fn place_in(alloc: Global, word: &[u8]) -> Result<Option<u64>, AllocError>
    ensures { IfOk result (λ place. place ≡ places.place_in word.now) }
{
    let halves = parts(alloc, word, b':')?;
    match halves.as_slice() {
        [address, port] => place_of(alloc, address, port),
        _ => Ok(None),
    }
}

/// The place of an address and a port.
fn place_of(alloc: Global, address: &[u8], port: &[u8]) -> Result<Option<u64>, AllocError>
    ensures { IfOk result (λ place. place ≡ places.place_of_words address.now port.now) }
{
    let octets = parts(alloc, address, b'.')?;
    match octets.as_slice() {
        [a, b, c, d] => Ok(place_with(
            octet_in(a),
            octet_in(b),
            octet_in(c),
            octet_in(d),
            port_in(port),
        )),
        _ => Ok(None),
    }
}

/// The parts of a word between marks.
fn parts(alloc: Global, word: &[u8], mark: u8) -> Result<Vec<&[u8]>, AllocError>
    ensures { IfOk result (λ parts. map (λ part. part.now) parts.items ≡ slice_split (λ byte. byte == mark) word.now) }
{
    word.split(|byte| *byte == mark).collect(alloc)
}

/// A number of an address: at most 255.
fn octet_in(word: &[u8]) -> Option<u8>
    ensures { result ≡ places.octet_in word.now }
{
    u8::try_from(number_within(0, 255, word)?).ok()
}

/// A port: 1 to 65535.
fn port_in(word: &[u8]) -> Option<u16>
    ensures { result ≡ calls.number_within 1 65535 (number_of word.now) }
{
    u16::try_from(number_within(1, 65_535, word)?).ok()
}

/// The place of these numbers.
fn place_with(
    a: Option<u8>,
    b: Option<u8>,
    c: Option<u8>,
    d: Option<u8>,
    port: Option<u16>,
) -> Option<u64>
    ensures { result ≡ places.place_with a b c d port }
{
    let high = u64::from(a?) * 256 + u64::from(b?);
    let address = (high * 256 + u64::from(c?)) * 256 + u64::from(d?);
    Some(address * 65_536 + u64::from(port?))
}
