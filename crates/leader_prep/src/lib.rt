//! Preparation of a new leader: what it holds of a value in part alone it rebuilds from what the others show, or cuts.
#![tactic(auto)]

mod deciding;
mod ends;
mod heads;
mod parts;
mod prep;
mod slots;
mod verdicts;

pub use heads::{is_same_head, is_usable};
pub use prep::Prep;
pub use verdicts::Verdicts;

#[cfg(test)]
mod kept_log;
#[cfg(test)]
mod test_answers;
#[cfg(test)]
mod tests;
