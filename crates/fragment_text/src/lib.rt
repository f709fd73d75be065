//! The text of a value's fragments: a value as its fragments, a line for each, and such lines as the value again.
#![tactic(auto)]

mod digits;
mod join_end;
mod joining;
mod laws;
mod parts;
mod split_end;
mod splitting;
mod text;

pub use join_end::JoinEnd;
pub use joining::join;
pub use laws::{a_value_comes_back, texts_are_spelled_once};
pub use split_end::SplitEnd;
pub use splitting::split;

#[cfg(test)]
mod tests;
