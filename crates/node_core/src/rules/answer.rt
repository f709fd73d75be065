//! Answer: a member sees what another one holds. One that prepares decides what it can by it; a leader that wants a value has it once
//! the others have shown enough, and gives it to those who wait for it.
ghost use Rattle.std.specs.Prelude.{◌≡◌, ◌≤◌, ◌∷◌, ◌++◌, [], ℕ, List, None, map, filter, IfOk, OnOk};
ghost use Rattle.entry_frames.specs.Kinds.{kind_of};
ghost use Rattle.entry_frames.specs.Records.{Whole};
ghost use Rattle.entry_frames.specs.declared.kind.Kind.TheVariants as kinds;
ghost use Rattle.entry_frames.specs.declared.kind.PeerKind.TheVariants as peer_kinds;
ghost use Rattle.entry_frames.specs.declared.role.Role.TheVariants.{Candidate, Leader, Preparing};
ghost use Rattle.leader_prep.specs.Pages.{page_of};
ghost use Rattle.node_core.specs.Preparing.{value_given, won};
ghost use Rattle.node_core.specs.Wanting.{MayHave, having_node, is_lacking, shown_act, value_act};
ghost use Rattle.world_model.specs.Nodes.{Node, node_hearing};
ghost use Rattle.world_model.specs.Rules.Answer as rule;
ghost use Rattle.world_model.specs.Rules.Prepare.{act_of_preparing};
ghost use Rattle.world_model.specs.Rules.Say.{append_to};

use crate::act::Act;
use crate::member::Member;
use crate::rules::applying::reply_to;
use craft_base::{Blob, MemberId, OutOfMemory, Reply};
use entry_frames::RecordView;
use gather_read::Gather;
use leader_prep::Prep;
use peer_frames::{Message, MessageView, Role};
use std::alloc::Global;
use world_model::{Called, ClientReply};

impl Act {
    ghost use Rattle.node_core.specs.Acting.{Acts, IsCurrent, IsFree, IsIdle, IsRangedMember, MayRecord, MaySay, Recorded};
    ghost use Rattle.world_model.specs.Rules.Acts.{stays};

    /// Hears what another member shows of its log. Who prepares decides by it what it can; who leads may have by it what it wants.
    pub(crate) fn take_answer(self, answer: &MessageView<'_>) -> Result<Act, OutOfMemory>
        requires kind { kind_of answer.now.frame ≡ kinds.Peer peer_kinds.Answer }
        requires current { IsCurrent self.member answer.now }
        requires ranged { IsRangedMember self.member }
        requires begun { 1 ≤ self.member.store.kept.term }
        ensures { IfOk result (Acts (λ n. rule.act_of_answer_as n.volatile.role n (page_of answer.now.frame)) self) }
    {
        match self.member.role {
            Role::Follower | Role::Candidate => Ok(self),
            Role::Preparing => self.hear_answer(answer.from()).prepare_by(answer),
            Role::Leader => self.hear_answer(answer.from()).gather_by(answer),
        }
    }

    /// Keeps that a member answered.
    fn hear_answer(self, sender: MemberId) -> Act
        ensures acts { Acts (λ n. stays (node_hearing (rule.answer_heard n sender) n)) self result }
        ensures rest { result.member ≡ record self.member { heard = result.member.heard } }
    {
        let mut act = self;
        act.member.heard.answered(sender);
        act
    }

    /// Decides what it can by all that it was shown, this page among it, and goes on.
    fn prepare_by(self, answer: &MessageView<'_>) -> Result<Act, OutOfMemory>
        requires prepares { self.member.role ≡ Preparing }
        requires kind { kind_of answer.now.frame ≡ kinds.Peer peer_kinds.Answer }
        requires current { IsCurrent self.member answer.now }
        requires ranged { IsRangedMember self.member }
        requires begun { 1 ≤ self.member.store.kept.term }
        ensures { IfOk result (Acts (λ n. act_of_preparing (rule.node_seeing (page_of answer.now.frame) n)) self) }
    {
        self.member.shape.law();
        let mut act = self;
        let Some(prep) = act.member.leave_preparation() else {
            unreachable!()
        };
        let before = prep.cursor();
        let (prep, verdicts) = prep.take(&act.member.store, answer)?;
        let act = act.give_values(&verdicts.wholes)?;
        let act = act.cut(verdicts.cut)?;
        act.go_on(prep, before)
    }

    /// Gives these entries, of which the log holds parts, their values.
    fn give_values(self, wholes: &[(u64, Blob)]) -> Result<Act, OutOfMemory>
        requires may { MayRecord self.member (map value_given wholes.now) }
        requires free { IsFree self.member }
        requires idle { IsIdle self.member }
        ensures { IfOk result (Recorded (map value_given wholes.now) self) }
    {
        let mut act = self;
        for whole in wholes {
            act = act.give_value(whole.0, &whole.1)?;
        }
        Ok(act)
    }

    /// Gives one of them its value.
    fn give_value(self, index: u64, value: &Blob) -> Result<Act, OutOfMemory>
        requires may { MayRecord self.member (Whole index value.now ∷ []) }
        requires free { IsFree self.member }
        requires idle { IsIdle self.member }
        ensures { IfOk result (Recorded (Whole index value.now ∷ []) self) }
    {
        self.record(&RecordView::Whole(index, value.as_bytes()))
    }

    /// Takes the page for the value that a leader wants, if it wants one, and has that value where all that was shown gives it.
    fn gather_by(self, answer: &MessageView<'_>) -> Result<Act, OutOfMemory>
        requires leads { self.member.role ≡ Leader }
        requires kind { kind_of answer.now.frame ≡ kinds.Peer peer_kinds.Answer }
        requires current { IsCurrent self.member answer.now }
        requires ranged { IsRangedMember self.member }
        ensures { IfOk result (Acts (shown_act (page_of answer.now.frame)) self) }
    {
        self.member.shape.law();
        let mut act = self;
        let Some(gather) = act.member.leave_want() else {
            return Ok(act);
        };
        let index = gather.index();
        let (gather, value) = gather.take(answer)?;
        match value {
            Some(value) => act.have(index, &value),
            None => {
                act.member.gather = Some(gather);
                Ok(act)
            }
        }
    }

    /// The value at an index is had: it is told to those who wait for it, and sent to those who lack it.
    fn have(self, index: u64, value: &Blob) -> Result<Act, OutOfMemory>
        requires leads { self.member.role ≡ Leader }
        requires none { self.member.gather ≡ None }
        requires may { MayHave index value.now self.member }
        ensures { IfOk result (Acts (rule.act_of_value index value.now) self) }
    {
        let act = self.give_value(index, value)?;
        let act = act.tell_value(index, value)?;
        act.append_to_lacking(index)
    }

    /// Tells the value of a version to those who wait for it, in order of clients.
    fn tell_value(self, index: u64, value: &Blob) -> Result<Act, OutOfMemory>
        requires leads { self.member.role ≡ Leader }
        requires none { self.member.gather ≡ None }
        ensures { IfOk result (Acts (value_act index value.now) self) }
    {
        let mut act = self;
        tell_readers(
            act.member.alloc,
            &act.member.reads,
            index,
            value,
            &mut act.replies,
        )?;
        act.member.had(index);
        Ok(act)
    }

    /// Sends to all other members, in order, that are sent entries from an index on.
    fn append_to_lacking(self, index: u64) -> Result<Act, OutOfMemory>
        requires { MaySay self.member }
        ensures { IfOk result (Acts (rule.act_of_supplying index) self) }
    {
        let mut act = self;
        act.member.append_to_lacking(index, &mut act.sends)?;
        Ok(act)
    }
}

impl Member {
    ghost use Rattle.node_core.specs.Acting.{Becomes, IsNode, MaySay};

    /// Takes what it was shown. Until it goes on with it, it is as it was when it won.
    fn leave_preparation(&mut self) -> Option<Prep>
        ensures prep { result ≡ self.old.prep }
        ensures becomes { Becomes won self.old self.new }
        ensures rest { self.new ≡ record self.old { role = Candidate; prep = None } }
    {
        self.role = Role::Candidate;
        self.prep.take()
    }

    /// Takes what it was shown of the value that it wants.
    fn leave_want(&mut self) -> Option<Gather>
        ensures gather { result ≡ self.old.gather }
        ensures rest { self.new ≡ record self.old { gather = None } }
    {
        self.gather.take()
    }

    /// Nobody waits any more for the value of a version, and the leader wants nothing.
    fn had(&mut self, index: u64)
        requires leads { self.old.role ≡ Leader }
        requires none { self.old.gather ≡ None }
        ensures { Becomes (having_node index) self.old self.new }
    {
        self.reads.retain(|read| read.index != index);
    }

    /// Sends to all other members, in order, that are sent entries from an index on.
    fn append_to_lacking(&self, index: u64, sends: &mut Vec<Message>) -> Result<(), OutOfMemory>
        requires { MaySay self.now }
        ensures { OnOk result ((n : Node) → IsNode self.now n → sends.new.items ≡ sends.old.items ++ map (append_to n) (rule.lacking index n)) }
    {
        for number in 0..self.shape.members() {
            if let Some(receiver) = self.other(number) {
                self.append_if_lacking(index, receiver, sends)?;
            }
        }
        Ok(())
    }

    /// Sends to a member what it lacks, where it is sent entries from that index on.
    fn append_if_lacking(
        &self,
        index: u64,
        receiver: MemberId,
        sends: &mut Vec<Message>,
    ) -> Result<(), OutOfMemory>
        requires { MaySay self.now }
        ensures { OnOk result ((n : Node) → IsNode self.now n → sends.new.items ≡ sends.old.items ++ map (append_to n) (filter (is_lacking index n) (receiver ∷ []))) }
    {
        if self.start_for(receiver) == index {
            sends.push(self.append_to(receiver)?)?;
        }
        Ok(())
    }
}

/// Tells the value of a version to those of these requests that wait for it, in order.
fn tell_readers(
    alloc: Global,
    reads: &[Called],
    index: u64,
    value: &Blob,
    replies: &mut Vec<ClientReply>,
) -> Result<(), OutOfMemory>
    ensures { OnOk result (replies.new.items ≡ replies.old.items ++ rule.values_told index value.now reads.now) }
{
    for read in reads {
        tell_if_reader(alloc, *read, index, value, replies)?;
    }
    Ok(())
}

/// Tells it to one of them, where it waits for it.
fn tell_if_reader(
    alloc: Global,
    read: Called,
    index: u64,
    value: &Blob,
    replies: &mut Vec<ClientReply>,
) -> Result<(), OutOfMemory>
    ensures { OnOk result (replies.new.items ≡ replies.old.items ++ rule.values_told index value.now (read ∷ [])) }
{
    if read.index == index {
        let value = Blob::copy_of(alloc, value.as_bytes())?;
        replies.push(reply_to(read, Reply::Value(index, value)))?;
    }
    Ok(())
}
