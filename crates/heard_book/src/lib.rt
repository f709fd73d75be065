//! What a candidate or a leader knows in its term of the others.
#![tactic(auto)]

mod heard;
mod known;
mod masks;
mod window;

pub use heard::Heard;

#[cfg(test)]
mod tests;
