//! Vote: a member votes once in a term, and only for a candidate whose log is at least as up to date as its own.
ghost use Rattle.std.specs.Prelude.{◌≡◌, ◌<◌, IfOk};
ghost use Rattle.craft_base.specs.Shape.{members_of};
ghost use Rattle.entry_frames.specs.Logs.{last_index, last_term};

use crate::act::Act;
use crate::member::Member;
use craft_base::{MemberId, OutOfMemory};
use election::vote_verdict;
use entry_frames::{LogView, RecordView};
use peer_frames::Peer;

impl Act {
    ghost use Rattle.node_core.specs.Acting.{Acts};
    ghost use Rattle.world_model.specs.Rules.Acts.{keeping};
    ghost use Rattle.world_model.specs.Rules.Vote.{act_of_vote_from, act_of_vote_request};

    /// Answers a candidate of this term, and casts the vote for it where it is granted.
    pub(crate) fn consider_vote(
        self,
        candidate: MemberId,
        their_last_term: u64,
        their_last: u64,
    ) -> Result<Act, OutOfMemory>
        requires { candidate < members_of self.member.store.shape }
        ensures { IfOk result (Acts (λ n. act_of_vote_request n candidate their_last_term their_last) self) }
    {
        if !self.member.grants(candidate, their_last_term, their_last) {
            return self.say(Peer::VoteReply { granted: false }, candidate);
        }
        let act = self.cast_vote(candidate)?;
        act.say(Peer::VoteReply { granted: true }, candidate)
    }

    /// Casts the vote of this term, unless it stands already, and has heard of an election.
    fn cast_vote(self, candidate: MemberId) -> Result<Act, OutOfMemory>
        requires { candidate < members_of self.member.store.shape }
        ensures { IfOk result (Acts (λ n. keeping (record n.volatile { quiet = 0 }) (act_of_vote_from n.durable.vote candidate n)) self) }
    {
        let mut act = self.vote_for(candidate)?;
        act.member.quiet = 0;
        Ok(act)
    }

    /// Votes for the candidate, unless it has.
    fn vote_for(self, candidate: MemberId) -> Result<Act, OutOfMemory>
        requires { candidate < members_of self.member.store.shape }
        ensures { IfOk result (Acts (λ n. act_of_vote_from n.durable.vote candidate n) self) }
    {
        if self.member.store.vote().is_some() {
            return Ok(self);
        }
        let term = self.member.store.term();
        self.record(&RecordView::Term(term, Some(candidate.number())))
    }
}

impl Member {
    ghost use Rattle.world_model.specs.Rules.Vote.{is_granted};

    /// Whether it grants its vote.
    fn grants(&self, candidate: MemberId, their_last_term: u64, their_last: u64) -> bool
        ensures { result ≡ is_granted self.now.store.kept.vote (last_index self.now.store.kept.log) (last_term self.now.store.kept.log) candidate their_last their_last_term }
    {
        let last = self.store.last();
        vote_verdict(
            self.store.vote(),
            last,
            self.store.term_at(last),
            candidate,
            their_last,
            their_last_term,
        )
    }
}
