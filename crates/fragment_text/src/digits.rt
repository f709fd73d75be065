//! The words of a line of the text.
ghost use Rattle.std.specs.Prelude.{◌≡◌, ◌∷◌, [], map, length};
ghost use Rattle.std.specs.Char.{is_ascii_uppercase};
ghost use Rattle.std.specs.List.{list_any};
ghost use Rattle.fragment_text.specs.Said.{bytes_of, length_of_words};
ghost use Rattle.fragment_text.specs.Kept.{Decodes};

use entry_frames::LONGEST_VALUE;
use line_input::number;

/// The length that the words of the value's line tell.
pub fn value_length(words: &[&[u8]]) -> Option<usize>
    ensures { result ≡ length_of_words (map (λ word. word.now) words.now) }
{
    match words {
        [name, count] => value_length_of(name, count),
        _ => None,
    }
}

/// `value n`
fn value_length_of(name: &[u8], count: &[u8]) -> Option<usize>
    ensures { result ≡ length_of_words (name.now ∷ count.now ∷ []) }
{
    if name != b"value".as_slice() {
        return None;
    }
    let count = number(count)?;
    if count > u64::from(LONGEST_VALUE) {
        return None;
    }
    Some(count as usize)
}

/// Decodes as many bytes as there is room for from lower case hexadecimal digits; none are `-`. Answers whether the
/// digits are so; else the bytes are any.
pub fn decode(digits: &[u8], bytes: &mut [u8]) -> bool
    ensures { Decodes bytes.new (bytes_of (length bytes.old) digits.now) result }
{
    if bytes.is_empty() {
        return digits == b"-".as_slice();
    }
    if has_upper_case(digits) {
        return false;
    }
    hex::decode_to_slice(digits, bytes).is_ok()
}

/// Whether an upper case letter is among the bytes.
fn has_upper_case(word: &[u8]) -> bool
    ensures { result ≡ list_any is_ascii_uppercase word.now }
{
    word.iter().any(|byte| byte.is_ascii_uppercase())
}
