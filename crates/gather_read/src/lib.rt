//! Gathering of one value: a leader that holds an entry in part alone has its value of what the others show.
#![tactic(auto)]

mod counting;
mod gather;
mod own_entry;
mod slots;

pub use gather::Gather;

#[cfg(test)]
mod test_answers;
#[cfg(test)]
mod tests;
