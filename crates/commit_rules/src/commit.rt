//! The commit index of a leader.
ghost use Rattle.std.specs.Prelude.{◌≡◌, ◌≤◌, ℕ, List, length};
ghost use Rattle.craft_base.specs.Knowledge.{Heard};
ghost use Rattle.world_model.specs.Quorums.{new_commit};

use crate::enough::is_enough;
use craft_base::{Known, MemberId, Shape};
use entry_frames::LogView;

/// Up to where the leader `me` of a term may commit its log, after Raft's rule for leaders: the greatest index above the
/// commit index whose entry is of that term, and up to which enough members hold each entry that isn't committed yet. It is
/// the commit index where there is none. Entries of older terms are so committed with one of the leader's own, and never by
/// counting alone.
///
/// It takes no memory, and asks what each member holds for each index from the commit index on, up to the first that too few
/// hold.
pub fn new_commit<K: Known, L: LogView>(
    known: &K,
    log: &L,
    shape: &Shape,
    me: MemberId,
    term: u64,
) -> u64
    requires { K.settled_to known.now ≤ (L.log log.now).commit }
    ensures exact { (heard : List Heard) (first : ℕ) → K.stands known.now shape.now heard first →
        result ≡ new_commit shape.now me term (L.log log.now).commit (L.log log.now).entries heard }
    ensures grows { (L.log log.now).commit ≤ result }
    ensures within { result ≤ length (L.log log.now).entries }
{
    let mut reached = log.commit();
    for before in log.commit()..log.last() {
        let index = before + 1;
        if !is_enough(known, log, shape, me, index) {
            return reached;
        }
        if log.term_at(index) == term {
            reached = index;
        }
    }
    reached
}
