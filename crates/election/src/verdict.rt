ghost use Rattle.std.specs.Prelude.{◌≡◌};
ghost use Rattle.world_model.specs.Rules.Vote.{is_granted};

use craft_base::MemberId;

/// Whether a member grants its vote, after Raft's RequestVote: exactly where `vote`, its vote of this term, is nobody's
/// or names `from` already, and the candidate's log is at least as good as its own. That is where the log's last term
/// is greater, or equal with a last index no smaller. An empty log has last index and last term 0.
pub fn vote_verdict(
    vote: Option<u8>,
    last: u64,
    last_term: u64,
    from: MemberId,
    their_last: u64,
    their_last_term: u64,
) -> bool
    ensures { result ≡ is_granted vote last last_term from their_last their_last_term }
{
    let free = match vote {
        None => true,
        Some(candidate) => candidate == from.number(),
    };
    free && (their_last_term > last_term || (their_last_term == last_term && their_last >= last))
}
