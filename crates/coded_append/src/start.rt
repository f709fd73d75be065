//! From where on a leader sends.
ghost use Rattle.std.specs.Prelude.{◌≡◌, ◌≤◌, ◌<◌, ◌+◌, ℕ, List, length, not, IfSome};
ghost use Rattle.craft_base.specs.Knowledge.{Heard, is_held_whole, next_index};
ghost use Rattle.craft_base.specs.Shape.{Shape};
ghost use Rattle.coded_append.specs.Starts.{first_lacking, no_later_than, start_for};

use crate::modes::Mode;
use craft_base::{Held, Known, MemberId};
use entry_frames::LogView;

/// The index from which on entries are sent to another member in that mode: in Coded mode the one that the `Known` names
/// (`next_of`), and in Complete mode that one, or an earlier one: the first above the commit index, at most the last, that
/// the member isn't known to hold whole.
///
/// It takes no memory, and in Complete mode asks in which form the member holds each index above the commit index, up to the
/// first that it isn't known to hold whole.
pub fn start_for<K: Known, L: LogView>(known: &K, log: &L, how: Mode, member: MemberId) -> u64
    requires { K.settled_to known.now ≤ (L.log log.now).commit }
    ensures exact { (shape : Shape) (heard : List Heard) (first : ℕ) → K.stands known.now shape heard first →
        result ≡ start_for how member (L.log log.now).commit (L.log log.now).entries heard first }
    ensures no_later { (shape : Shape) (heard : List Heard) (first : ℕ) → K.stands known.now shape heard first →
        result ≤ next_index member heard first }
    ensures least { (shape : Shape) (heard : List Heard) (first : ℕ) → K.stands known.now shape heard first →
        1 ≤ next_index member heard first → 1 ≤ result }
{
    let next = known.next_of(member);
    match how {
        Mode::Coded => next,
        Mode::Complete => no_later_than(first_lacking(known, log, member), next),
    }
}

/// The lesser of the two, where there are two.
fn no_later_than(other: Option<u64>, index: u64) -> u64
    ensures { result ≡ no_later_than other index }
{
    match other {
        Some(other) => index.min(other),
        None => index,
    }
}

/// The first index that isn't committed and that a member isn't known to hold whole.
fn first_lacking<K: Known, L: LogView>(known: &K, log: &L, member: MemberId) -> Option<u64>
    requires { K.settled_to known.now ≤ (L.log log.now).commit }
    ensures exact { (shape : Shape) (heard : List Heard) (first : ℕ) → K.stands known.now shape heard first →
        result ≡ first_lacking member (L.log log.now).commit (L.log log.now).entries heard }
    ensures least { IfSome result (λ index. 1 ≤ index) }
{
    for before in log.commit()..log.last() {
        let index = before + 1;
        if may_lack(known, member, index) {
            return Some(index);
        }
    }
    None
}

/// Whether a member isn't known to hold the entry at an index whole.
fn may_lack<K: Known>(known: &K, member: MemberId, index: u64) -> bool
    requires { K.settled_to known.now < index }
    ensures { (shape : Shape) (heard : List Heard) (first : ℕ) → K.stands known.now shape heard first →
        result ≡ not (is_held_whole member index heard) }
{
    known.form_at(member, index) != Held::Whole
}
