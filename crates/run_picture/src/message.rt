//! What a frame says.
use crate::words::{are_digits_of_bytes, are_forms, number};

/// Whether the words are a message to another member.
pub(crate) fn is_message(words: &[&str]) -> bool {
    match words {
        ["vote", term, last_term, last] => are_numbers(&[term, last_term, last]),
        ["voted", term, "yes" | "no"] => are_numbers(&[term]),
        ["append", term, prev, prev_term, commit, forms] => {
            are_numbers(&[term, prev, prev_term, commit]) && are_forms(forms)
        }
        ["matched", term, prev, count, mask] => {
            are_numbers(&[term, prev, count]) && mask.len() == 2 && are_digits_of_bytes(mask)
        }
        ["refused", term, next] => are_numbers(&[term, next]),
        ["ask", term, start] => are_numbers(&[term, start]),
        ["answer", term, start, last, forms] => {
            are_numbers(&[term, start, last]) && are_forms(forms)
        }
        _ => false,
    }
}

/// Whether each word is a number.
fn are_numbers(words: &[&str]) -> bool {
    words.iter().all(|word| number(word).is_some())
}

/// A message's name, with whether a vote was granted.
pub(crate) fn name_of<'a>(words: &[&'a str]) -> &'a str {
    match words {
        ["voted", _, "yes"] => "voted yes",
        ["voted", ..] => "voted no",
        [name, ..] => name,
        [] => "",
    }
}

/// The forms of the entries that a message carries; nothing where it carries none.
pub(crate) fn forms_of<'a>(words: &[&'a str]) -> &'a str {
    match words {
        ["append", _, _, _, _, forms] | ["answer", _, _, _, forms] => {
            if *forms == "-" { "" } else { forms }
        }
        _ => "",
    }
}
