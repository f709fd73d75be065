//! Say: what a member sends, and to whom.
ghost use Rattle.std.specs.Prelude.{◌≡◌, ◌+◌, ◌-◌, ◌≤◌, ◌<◌, ◌==◌, ◌++◌, ◌∷◌, [], length, if◌then◌else◌, None, Some, IfOk, OnOk};
ghost use Rattle.craft_base.specs.Shape.{members_of};
ghost use Rattle.entry_frames.specs.Logs.{last_index, last_term, term_at};
ghost use Rattle.entry_frames.specs.declared.peer.Peer.TheVariants.{Append, Vote};
ghost use Rattle.node_core.specs.Acting.{IsNode, MaySay};
ghost use Rattle.world_model.specs.Nodes.{Node};
ghost use Rattle.world_model.specs.Rules.Acts.{message_of};
ghost use Rattle.world_model.specs.Rules.Say as rule;
ghost use Rattle.world_model.specs.Rules.Tick.{vote_requests};

use crate::act::Act;
use crate::member::Member;
use coded_append::{Mode, coded_batch, mode, start_for, whole_batch};
use craft_base::{Known, MemberId, OutOfMemory};
use entry_frames::{Batch, LogView};
use peer_frames::{Message, Peer};

impl Act {
    ghost use Rattle.node_core.specs.Acting.{Acts};
    ghost use Rattle.world_model.specs.Rules.Acts.{sending, stays};

    /// Says that to another member. The only error is want of memory.
    pub(crate) fn say(self, body: Peer, receiver: MemberId) -> Result<Act, OutOfMemory>
        ensures { IfOk result (Acts (λ n. sending (message_of n body receiver ∷ []) (stays n)) self) }
    {
        let message = self.member.says(body, receiver);
        self.send(message)
    }

    /// Asks all other members for their vote, in order, and shows where its log ends.
    pub(crate) fn ask_for_votes(self) -> Result<Act, OutOfMemory>
        ensures { IfOk result (Acts (λ n. sending (vote_requests n) (stays n)) self) }
    {
        let mut act = self;
        act.member.ask_others(&mut act.sends)?;
        Ok(act)
    }

    /// Sends to all other members, in order, what each of them lacks.
    pub(crate) fn append_to_others(self) -> Result<Act, OutOfMemory>
        requires { MaySay self.member }
        ensures { IfOk result (Acts rule.act_of_saying self) }
    {
        let mut act = self;
        act.member.append_to_others(&mut act.sends)?;
        Ok(act)
    }

    /// Sends to a member what it lacks, or nothing but where the log ends.
    pub(crate) fn append_to(self, receiver: MemberId) -> Result<Act, OutOfMemory>
        requires { MaySay self.member }
        ensures { IfOk result (Acts (λ n. sending (rule.append_to n receiver ∷ []) (stays n)) self) }
    {
        let message = self.member.append_to(receiver)?;
        self.send(message)
    }

    /// Sends to a member what it lacks, where it lacks something.
    pub(crate) fn append_if_any(self, receiver: MemberId) -> Result<Act, OutOfMemory>
        requires { MaySay self.member }
        ensures { IfOk result (Acts (λ n. sending (rule.append_if_any n receiver) (stays n)) self) }
    {
        let start = self.member.start_for(receiver);
        let entries = self.member.batch_for(receiver, start)?;
        if entries.len() == 0 {
            return Ok(self);
        }
        let body = self.member.append_of(start, entries);
        self.say(body, receiver)
    }
}

impl Member {
    /// A message of this member, in its term.
    pub(crate) fn says(&self, body: Peer, receiver: MemberId) -> Message
        ensures { (n : Node) → IsNode self.now n → result ≡ message_of n body receiver }
    {
        Message::Peer {
            from: self.me,
            to: receiver,
            term: self.store.term(),
            body,
        }
    }

    /// Asks all other members for their vote, in order.
    fn ask_others(&self, sends: &mut Vec<Message>) -> Result<(), OutOfMemory>
        ensures { OnOk result ((n : Node) → IsNode self.now n → sends.new.items ≡ sends.old.items ++ vote_requests n) }
    {
        for number in 0..self.shape.members() {
            if let Some(receiver) = self.other(number) {
                sends.push(self.says(self.vote_request(), receiver))?;
            }
        }
        Ok(())
    }

    /// Sends to all other members, in order, what each of them lacks.
    fn append_to_others(&self, sends: &mut Vec<Message>) -> Result<(), OutOfMemory>
        requires { MaySay self.now }
        ensures { OnOk result ((n : Node) → IsNode self.now n → sends.new.items ≡ sends.old.items ++ rule.appends_to_others n) }
    {
        for number in 0..self.shape.members() {
            if let Some(receiver) = self.other(number) {
                sends.push(self.append_to(receiver)?)?;
            }
        }
        Ok(())
    }

    /// The member of that number, where it is another than this one.
    pub(crate) fn other(&self, number: u8) -> Option<MemberId>
        requires { number < members_of self.now.shape }
        ensures { result ≡ (if number == self.now.me then None else Some number) }
    {
        match MemberId::new(&self.shape, number) {
            Some(member) if member != self.me => Some(member),
            _ => None,
        }
    }

    /// A request for a vote: where its log ends.
    fn vote_request(&self) -> Peer
        ensures { result ≡ Vote (last_term self.now.store.kept.log) (last_index self.now.store.kept.log) }
    {
        let last = self.store.last();
        Peer::Vote {
            last_term: self.store.term_at(last),
            last,
        }
    }

    /// What a member lacks, as far as it is known and there is room for it.
    pub(crate) fn append_to(&self, receiver: MemberId) -> Result<Message, OutOfMemory>
        requires { MaySay self.now }
        ensures { IfOk result (λ message. (n : Node) → IsNode self.now n → message ≡ rule.append_to n receiver) }
    {
        let start = self.start_for(receiver);
        let entries = self.batch_for(receiver, start)?;
        Ok(self.says(self.append_of(start, entries), receiver))
    }

    /// The entries from an index on that a member is sent in one message.
    fn batch_for(&self, receiver: MemberId, start: u64) -> Result<Batch, OutOfMemory>
        requires least { 1 ≤ start }
        requires most { start ≤ length self.now.store.kept.log + 1 }
        ensures { IfOk result (λ batch. (n : Node) → IsNode self.now n → batch ≡ rule.batch_for n receiver start) }
    {
        match self.mode() {
            Mode::Coded => coded_batch(self.alloc, &self.store, &self.shape, receiver, start),
            Mode::Complete => whole_batch(self.alloc, &self.store, start),
        }
    }

    /// An Append of these entries, the first of which has that index.
    fn append_of(&self, start: u64, entries: Batch) -> Peer
        requires least { 1 ≤ start }
        requires most { start ≤ length self.now.store.kept.log + 1 }
        ensures { result ≡ Append (start - 1) (term_at self.now.store.kept.log (start - 1)) self.now.store.kept.commit entries }
    {
        let prev = start - 1;
        Peer::Append {
            prev,
            prev_term: self.store.term_at(prev),
            commit: self.store.commit(),
            entries,
        }
    }

    /// From which index on entries go to a member.
    pub(crate) fn start_for(&self, member: MemberId) -> u64
        requires { MaySay self.now }
        ensures { (n : Node) → IsNode self.now n → result ≡ rule.start_of n member }
    {
        start_for(&self.heard, &self.store, self.mode(), member)
    }

    /// In which mode it replicates, by how many others were heard of late.
    fn mode(&self) -> Mode
        ensures { (n : Node) → IsNode self.now n → result ≡ rule.mode_of_leader n }
    {
        mode(self.heard.fresh_count(), &self.shape)
    }
}
