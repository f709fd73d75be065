//! The map that a cluster replicates: what each command of the log does to it, and what its client is told.
#![tactic(auto)]

ghost use Rattle.std.specs.Prelude.{◌≡◌, ◌≤◌, ◌+◌, ℕ, List, ◌∷◌, length, Some, true, false};
ghost use Rattle.std.specs.List.{list_all};
ghost use Rattle.craft_base.specs.declared.command.Head.{Head};
ghost use Rattle.kv_apply.specs.Commands.{answer, exceeds, greatest_number, is_effective, is_of, kept_of, map_outcome, version};
ghost use Rattle.kv_apply.specs.Laws.{IsAnswer, IsKept, TellsIndexes, is_below};
ghost use Rattle.kv_apply.specs.declared.outcome.Kept.TheVariants as kept;
ghost use Rattle.kv_apply.specs.declared.outcome.Outcome.{Outcome};

mod outcome;
mod service;
mod versions;

pub use outcome::{Kept, Outcome};
pub use service::Service;

/// What is kept of a client is its greatest number, and the outcome of the effective command with it. A number is above the
/// greatest exactly where it is above that of every command of the client.
pub fn the_greatest_number_is_kept()
    ensures greatest { (client n : ℕ) (heads : List Head) → exceeds n (greatest_number client heads) ≡ list_all (is_below client n) heads }
    ensures kept { (client seq : ℕ) (heads : List Head) → IsKept client seq heads (kept_of client seq heads) }
{}

/// A command of a client is answered as one map answers, which takes each number of a client once: with the outcome of the
/// effective command with its number, or that it is old where a greater number has come.
pub fn commands_are_answered_by_one_map()
    ensures { (h : Head) (earlier : List Head) → IsAnswer h (h ∷ earlier) (answer h earlier) }
{}

/// The outcome of a number stays, whatever commands come after: none of them takes effect with a number that has been taken.
pub fn each_number_takes_effect_once()
    ensures stays { (client seq : ℕ) (h : Head) (earlier : List Head) (outcome : Outcome) → map_outcome client seq earlier ≡ Some outcome →
        map_outcome client seq (h ∷ earlier) ≡ Some outcome }
    ensures alone { (client seq : ℕ) (h : Head) (earlier : List Head) (outcome : Outcome) → map_outcome client seq earlier ≡ Some outcome →
        is_of client h ≡ true → h.seq ≡ seq → is_effective h earlier ≡ false }
{}

/// Each version is the index of a command that was applied, and so is each that an outcome tells; but for 0, the version of an
/// absent key.
pub fn versions_are_indexes()
    ensures kept { (client seq : ℕ) (heads : List Head) (outcome : Outcome) → kept_of client seq heads ≡ kept.Same outcome →
        TellsIndexes (length heads) outcome }
    ensures answered { (h : Head) (earlier : List Head) → TellsIndexes (length earlier + 1) (answer h earlier) }
    ensures of_keys { (key : List ℕ) (heads : List Head) → version key heads ≤ length heads }
{}

#[cfg(test)]
mod tests;
