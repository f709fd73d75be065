//! How far a leader may commit, by what it knows of who holds its entries.
#![tactic(auto)]

mod commit;
mod enough;

pub use commit::new_commit;

#[cfg(test)]
mod kept_log;
#[cfg(test)]
mod tests;
