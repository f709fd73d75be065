ghost use Rattle.std.specs.Prelude.{◌≡◌};
ghost use Rattle.world_model.specs.Rules.Tick.{is_due};

use entry_frames::GREATEST;

/// The fewest quiet ticks after which a member stands, and how many more a word can ask for.
const SHORTEST_WAIT: u64 = 3;

const WAIT_CHOICES: u64 = 8;

/// Whether a member that has heard of no leader for `quiet` ticks stands for election: exactly where that is at least
/// `3 + word % 8` and a term above `term` is left. The word stands for Raft's randomized election timeout.
pub fn starts(quiet: u64, word: u64, term: u64) -> bool
    ensures { result ≡ is_due quiet word term }
{
    quiet >= SHORTEST_WAIT + word % WAIT_CHOICES && term < GREATEST
}
