//! Terms: a message of a higher term makes the member follow that term first; one of a lower term is refused or dropped.
ghost use Rattle.std.specs.Prelude.{◌≡◌, ◌≤◌, ◌<◌, ◌∷◌, [], None, IfOk, OnOk};
ghost use Rattle.entry_frames.specs.Kinds.{peer_kind};
ghost use Rattle.entry_frames.specs.Limits.{greatest};
ghost use Rattle.entry_frames.specs.declared.peer.Peer.{Peer};
ghost use Rattle.entry_frames.specs.declared.role.Role.TheVariants.{Follower};

use crate::act::Act;
use crate::member::Member;
use craft_base::{MemberId, OutOfMemory};
use entry_frames::{LogView, PeerKind, RecordView};
use peer_frames::{Peer, Role};

impl Act {
    ghost use Rattle.node_core.specs.Acting.{Acts};
    ghost use Rattle.world_model.specs.Rules.Acts.{message_of, sending, stays};
    ghost use Rattle.world_model.specs.Rules.Terms.{act_of_higher_term, act_of_lower_term, act_of_term, refusal};

    /// Follows the term of a message where it is higher.
    pub(crate) fn catch_up(self, term: u64) -> Result<Act, OutOfMemory>
        requires { term ≤ greatest }
        ensures { IfOk result (Acts (act_of_term term) self) }
    {
        if term <= self.member.store.term() {
            return Ok(self);
        }
        self.follow_term(term)
    }

    /// Follows a higher term: no vote is cast in it yet, and nothing was heard.
    fn follow_term(self, term: u64) -> Result<Act, OutOfMemory>
        requires higher { self.member.store.kept.term < term }
        requires range { term ≤ greatest }
        ensures { IfOk result (Acts (act_of_higher_term term) self) }
    {
        let mut act = self.record(&RecordView::Term(term, None))?;
        act.member.enter_as_follower()?;
        Ok(act)
    }

    /// Answers a message of a lower term: a candidate and a leader learn of the present term, a reply is dropped.
    pub(crate) fn refuse_stale(self, sender: MemberId, kind: PeerKind) -> Result<Act, OutOfMemory>
        ensures { IfOk result (λ after. (body : Peer) → peer_kind body ≡ kind → Acts (λ n. act_of_lower_term n sender body) self after) }
    {
        match kind {
            PeerKind::Vote => self.say(Peer::VoteReply { granted: false }, sender),
            PeerKind::Append | PeerKind::Ask => self.refuse(sender),
            PeerKind::VoteReply | PeerKind::AppendReply | PeerKind::Answer => Ok(self),
        }
    }

    /// Refuses what a leader of a lower term asks, and says from which index it may go on.
    fn refuse(self, leader: MemberId) -> Result<Act, OutOfMemory>
        ensures { IfOk result (Acts (λ n. sending (message_of n (refusal n) leader ∷ []) (stays n)) self) }
    {
        let next = self.member.store.commit() + 1;
        self.say(Peer::Refused { next }, leader)
    }
}

impl Member {
    ghost use Rattle.node_core.specs.Acting.{Becomes};

    /// A follower in a new term: nobody is known to lead it, nothing was heard, and nobody is answered any more who asked before.
    fn enter_as_follower(&mut self) -> Result<(), OutOfMemory>
        ensures { OnOk result (Becomes (λ n. record n { volatile = record n.volatile { role = Follower; hint = None; heard = []; first = 0; pages = []; calls = []; reads = []; want = None } }) self.old self.new) }
    {
        self.role = Role::Follower;
        self.hint = None;
        self.prep = None;
        self.gather = None;
        self.calls.clear();
        self.reads.clear();
        self.forget()
    }
}
