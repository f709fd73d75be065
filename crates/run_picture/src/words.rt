//! Words of a run's text that are no names.

/// The number below 2^64 that a word spells, if it spells one: decimal, without a sign and without leading zeros.
pub(crate) fn number(word: &str) -> Option<u64> {
    line_input::number(word.as_bytes())
}

/// Whether a word is bytes in lower case hexadecimal digits, or `-` for none.
pub(crate) fn are_digits_of_bytes(word: &str) -> bool {
    let digits = word.as_bytes();
    word == "-" || (!digits.is_empty() && digits.len() % 2 == 0 && are_digits(digits))
}

/// Whether each byte is a lower case hexadecimal digit.
fn are_digits(digits: &[u8]) -> bool {
    digits
        .iter()
        .all(|digit| matches!(digit, b'0'..=b'9' | b'a'..=b'f'))
}

/// Whether a word is forms, a letter each: `w` for an entry that goes whole, `p` for a fragment; or `-` for none.
pub(crate) fn are_forms(word: &str) -> bool {
    let letters = word.as_bytes();
    word == "-"
        || (!letters.is_empty() && letters.iter().all(|letter| matches!(letter, b'w' | b'p')))
}

/// Whether a word is a member's number, or `-` for none.
pub(crate) fn is_member_or_none(word: &str) -> bool {
    word == "-" || number(word).is_some()
}

/// Whether a word is what an entry does to the map.
pub(crate) fn is_op(word: &str) -> bool {
    match word {
        "noop" | "put" | "del" | "get" => true,
        _ => match word.strip_prefix("putif=") {
            Some(version) => number(version).is_some(),
            None => false,
        },
    }
}
