//! Ask: a member shows what it holds of its log to the one that has won its term.
ghost use Rattle.std.specs.Prelude.{◌≡◌, ◌≤◌, IfOk};
ghost use Rattle.world_model.specs.Rules.Ask as rule;

use crate::act::Act;
use crate::member::Member;
use coded_append::page_from;
use craft_base::{MemberId, OutOfMemory};
use entry_frames::LogView;
use peer_frames::{Peer, Role};

impl Act {
    ghost use Rattle.node_core.specs.Acting.{Acts};

    /// Shows its log from an index on to who asks for it in this term. A member that has won the term itself shows nothing.
    pub(crate) fn take_question(self, asker: MemberId, start: u64) -> Result<Act, OutOfMemory>
        requires { 1 ≤ start }
        ensures { IfOk result (Acts (λ n. rule.act_of_ask n asker start) self) }
    {
        match self.member.role {
            Role::Follower | Role::Candidate => self.show(asker, start),
            Role::Preparing | Role::Leader => Ok(self),
        }
    }

    /// Follows who asks, which has won the term, and shows it the log from an index on.
    fn show(self, asker: MemberId, start: u64) -> Result<Act, OutOfMemory>
        requires { 1 ≤ start }
        ensures { IfOk result (Acts (rule.act_of_asked asker start) self) }
    {
        let mut act = self;
        act.member.hear_leader(asker);
        let page = act.member.page_from(start)?;
        act.say(page, asker)
    }
}

impl Member {
    ghost use Rattle.node_core.specs.Acting.{IsNode};
    ghost use Rattle.world_model.specs.Nodes.{Node};

    /// Its entries from an index on, in the forms in which it holds them and as many as one message has room for, and the last
    /// index of its log.
    fn page_from(&self, start: u64) -> Result<Peer, OutOfMemory>
        requires { 1 ≤ start }
        ensures { IfOk result (λ page. (n : Node) → IsNode self.now n → page ≡ rule.page_from n start) }
    {
        Ok(Peer::Answer {
            start,
            last: self.store.last(),
            slots: page_from(self.alloc, &self.store, start)?,
        })
    }
}
