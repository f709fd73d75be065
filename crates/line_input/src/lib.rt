//! The lines of a source, their words, and numbers, bytes, members and requests as words.
#![tactic(auto)]

mod digits;
mod fault;
mod line;
mod member;
mod numeral;
mod requests;
mod split;

pub use digits::{bytes_of, digits_of};
pub use fault::InputFault;
pub use line::{LineEnd, read_line};
pub use member::member_of;
pub use numeral::number;
pub use requests::{LONGEST_KEY, number_within, op_in, request_in, request_of};
pub use split::words;

#[cfg(test)]
mod tests;
