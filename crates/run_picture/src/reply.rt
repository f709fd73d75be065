//! What a client is told.
use crate::words::{are_digits_of_bytes, is_member_or_none, number};

/// Whether the words are a reply to a client.
pub(crate) fn is_reply(words: &[&str]) -> bool {
    match words {
        ["done" | "differs", version] => number(version).is_some(),
        ["gone", "yes" | "no"] => true,
        ["value", version, bytes] => number(version).is_some() && are_digits_of_bytes(bytes),
        ["elsewhere", member] => is_member_or_none(member),
        ["nothing" | "old" | "preparing" | "busy" | "full"] => true,
        _ => false,
    }
}
