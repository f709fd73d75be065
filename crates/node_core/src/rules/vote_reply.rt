//! VoteReply: a candidate that has the votes of more than half of the members leads.
ghost use Rattle.std.specs.Prelude.{◌≡◌, ◌≤◌, IfOk};
ghost use Rattle.entry_frames.specs.declared.role.Role.TheVariants.{Candidate};
ghost use Rattle.world_model.specs.Nodes.{Node, node_hearing};

use crate::act::Act;
use crate::member::Member;
use craft_base::{MemberId, OutOfMemory};
use peer_frames::Role;

impl Act {
    ghost use Rattle.node_core.specs.Acting.{Acts, IsRangedMember};
    ghost use Rattle.world_model.specs.Rules.Acts.{stays};
    ghost use Rattle.world_model.specs.Rules.VoteReply.{act_of_count, act_of_vote_reply, vote_heard};

    /// Hears a reply of this term.
    pub(crate) fn count_reply(self, sender: MemberId, granted: bool) -> Result<Act, OutOfMemory>
        requires ranged { IsRangedMember self.member }
        requires begun { 1 ≤ self.member.store.kept.term }
        ensures { IfOk result (Acts (λ n. act_of_vote_reply n sender granted) self) }
    {
        match self.member.role {
            Role::Follower => Ok(self),
            Role::Candidate => self.hear_vote(sender, granted).prepare_if_won(),
            Role::Preparing | Role::Leader => Ok(self.hear_vote(sender, granted)),
        }
    }

    /// Keeps who granted its vote.
    fn hear_vote(self, sender: MemberId, granted: bool) -> Act
        ensures acts { Acts (λ n. stays (node_hearing (vote_heard n sender granted) n)) self result }
        ensures rest { result.member ≡ record self.member { heard = result.member.heard } }
    {
        let mut act = self;
        act.member.heard.vote(sender, granted);
        act
    }

    /// Prepares to lead the term where it has won.
    fn prepare_if_won(self) -> Result<Act, OutOfMemory>
        requires ranged { IsRangedMember self.member }
        requires candidate { self.member.role ≡ Candidate }
        requires begun { 1 ≤ self.member.store.kept.term }
        ensures { IfOk result (Acts act_of_count self) }
    {
        if !self.member.has_won() {
            return Ok(self);
        }
        self.prepare()
    }
}

impl Member {
    ghost use Rattle.node_core.specs.Acting.{IsNode};
    ghost use Rattle.world_model.specs.Rules.VoteReply.{has_won};

    /// Whether more than half of the members voted for it, itself among them.
    fn has_won(&self) -> bool
        ensures { (n : Node) → IsNode self.now n → result ≡ has_won n }
    {
        self.heard.votes() >= self.shape.majority()
    }
}
