//! Numbers as words: decimal, without a sign and without leading zeros.
ghost use Rattle.std.specs.Prelude.{◌≡◌};
ghost use Rattle.std.specs.Str.{all_ascii_digits};
ghost use Rattle.world_model.specs.Numbers as numbers;

use std::str;

/// The number below 2^64 that a word spells, if it spells one.
pub fn number(word: &[u8]) -> Option<u64>
    ensures { result ≡ numbers.number_of word.now }
{
    if !is_numeral(word) {
        return None;
    }
    match str::from_utf8(word) {
        Ok(text) => text.parse::<u64>().ok(),
        Err(_) => None,
    }
}

/// Whether a word is one digit, or several of which the first isn't 0.
fn is_numeral(word: &[u8]) -> bool
    ensures { result ≡ numbers.is_numeral word.now }
{
    match word {
        [] => false,
        [digit] => digit.is_ascii_digit(),
        [first, ..] => *first != b'0' && are_digits(word),
    }
}

/// Whether each byte is a digit.
fn are_digits(word: &[u8]) -> bool
    ensures { result ≡ all_ascii_digits word.now }
{
    for byte in word {
        if !byte.is_ascii_digit() {
            return false;
        }
    }
    true
}
