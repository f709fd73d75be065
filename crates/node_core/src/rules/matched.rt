//! Matched and Refused: a leader hears how far a member's log is its own, commits what enough members hold, and sends what is next.
ghost use Rattle.std.specs.Prelude.{◌≡◌, ◌≤◌, length, IfOk};
ghost use Rattle.craft_base.specs.Knowledge.{Matched, Refused};
ghost use Rattle.entry_frames.specs.declared.role.Role.TheVariants.{Leader};
ghost use Rattle.world_model.specs.Nodes.{Node, node_hearing};
ghost use Rattle.world_model.specs.Rules.Matched as rule;

use crate::act::Act;
use crate::member::Member;
use commit_rules::new_commit;
use craft_base::{MemberId, OutOfMemory};
use entry_frames::LogView;
use peer_frames::Role;

impl Act {
    ghost use Rattle.node_core.specs.Acting.{Acts, IsRangedMember};
    ghost use Rattle.world_model.specs.Rules.Acts.{stays};

    /// Hears that a member's log is this one's up to `prev + count`. Only a leader does.
    pub(crate) fn take_match(
        self,
        sender: MemberId,
        prev: u64,
        count: u8,
        mask: u8,
    ) -> Result<Act, OutOfMemory>
        requires { IsRangedMember self.member }
        ensures { IfOk result (Acts (λ n. rule.act_of_matched n sender prev count mask) self) }
    {
        match self.member.role {
            Role::Leader => {
                let act = self.hear_match(sender, prev, count, mask)?;
                act.progress(sender)
            }
            Role::Follower | Role::Candidate | Role::Preparing => Ok(self),
        }
    }

    /// Keeps how far a member's log is its own.
    fn hear_match(
        self,
        sender: MemberId,
        prev: u64,
        count: u8,
        mask: u8,
    ) -> Result<Act, OutOfMemory>
        ensures acts { IfOk result (Acts (λ n. stays (node_hearing (rule.log_heard n sender (Matched prev count mask)) n)) self) }
        ensures rest { IfOk result (λ after. after.member ≡ record self.member { heard = after.member.heard }) }
    {
        Ok(Act {
            member: self.member.hear_match(sender, prev, count, mask)?,
            group: self.group,
            cuts: self.cuts,
            wholes: self.wholes,
            replies: self.replies,
            sends: self.sends,
        })
    }

    /// Commits what enough members hold, and sends the member what it lacks.
    fn progress(self, member: MemberId) -> Result<Act, OutOfMemory>
        requires ranged { IsRangedMember self.member }
        requires leads { self.member.role ≡ Leader }
        ensures { IfOk result (Acts (rule.act_of_progress member) self) }
    {
        self.member.shape.law();
        let commit = self.member.commit_of_leader();
        let act = self.commit_to(commit)?;
        act.append_if_any(member)
    }

    /// Hears that a member's log isn't this one's at the end, and sends it what it lacks from further back. Only a leader does.
    pub(crate) fn take_refusal(self, sender: MemberId, next: u64) -> Result<Act, OutOfMemory>
        requires ranged { IsRangedMember self.member }
        requires next { 1 ≤ next }
        ensures { IfOk result (Acts (λ n. rule.act_of_refused n sender next) self) }
    {
        match self.member.role {
            Role::Leader => {
                let mut act = self;
                act.member.hear_refusal(sender, next);
                act.append_to(sender)
            }
            Role::Follower | Role::Candidate | Role::Preparing => Ok(self),
        }
    }
}

impl Member {
    ghost use Rattle.node_core.specs.Acting.{Becomes, IsNode, IsRangedMember};

    /// Keeps how far a member's log is its own.
    fn hear_match(
        self,
        sender: MemberId,
        prev: u64,
        count: u8,
        mask: u8,
    ) -> Result<Member, OutOfMemory>
        ensures becomes { IfOk result (Becomes (λ n. node_hearing (rule.log_heard n sender (Matched prev count mask)) n) self) }
        ensures rest { IfOk result (λ after. after ≡ record self { heard = after.heard }) }
    {
        let last = self.store.last();
        Ok(Member {
            alloc: self.alloc,
            shape: self.shape,
            me: self.me,
            store: self.store,
            role: self.role,
            quiet: self.quiet,
            hint: self.hint,
            heard: self.heard.matched(sender, prev, count, mask, last)?,
            prep: self.prep,
            gather: self.gather,
            service: self.service,
            calls: self.calls,
            reads: self.reads,
        })
    }

    /// Keeps from where on a member says that it may go on.
    fn hear_refusal(&mut self, sender: MemberId, next: u64)
        ensures becomes { Becomes (λ n. node_hearing (rule.log_heard n sender (Refused next)) n) self.old self.new }
        ensures rest { self.new ≡ record self.old { heard = self.new.heard } }
    {
        self.heard.refused(sender, next, self.store.last());
    }

    /// Up to where it may commit as the leader of its term.
    fn commit_of_leader(&self) -> u64
        requires { IsRangedMember self.now }
        ensures value { (n : Node) → IsNode self.now n → result ≡ rule.commit_of_leader n }
        ensures within { result ≤ length self.now.store.kept.log }
    {
        new_commit(
            &self.heard,
            &self.store,
            &self.shape,
            self.me,
            self.store.term(),
        )
    }
}
