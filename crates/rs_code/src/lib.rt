//! Fragments of a value, after Reed and Solomon: any k of them rebuild it.
#![tactic(auto)]

mod newton;
mod part;
mod polynomial;
mod rebuilder;

pub use part::part_into;
pub use rebuilder::{Added, Rebuilder};

#[cfg(test)]
mod tests;
