//! Append: a member makes its log the leader's, as far as the message tells it.
ghost use Rattle.std.specs.Prelude.{◌≡◌, ◌≤◌, ◌<◌, ◌∷◌, [], All, length, map, slice_get, Some, IfOk};
ghost use Rattle.std.specs.Option.{option_to_list};
ghost use Rattle.craft_base.specs.declared.command.Entry.{Entry};
ghost use Rattle.entry_frames.specs.Kinds.{kind_of};
ghost use Rattle.entry_frames.specs.Limits.{most_entries};
ghost use Rattle.entry_frames.specs.MessageParts.{body_of, entries_of, sender_byte};
ghost use Rattle.entry_frames.specs.Records.{Add, Cut};
ghost use Rattle.entry_frames.specs.declared.kind.Kind.TheVariants as kinds;
ghost use Rattle.entry_frames.specs.declared.kind.PeerKind.TheVariants as peer_kinds;
ghost use Rattle.node_core.specs.Appending.{HasRecordsFor, IsAppend, IsPlaceOf, IsPlanFor, MayTake, append_act, following_act, heard_act, match_of, records_added, records_planned, value_record};
ghost use Rattle.world_model.specs.Rules.Append.{following};

use crate::act::Act;
use crate::member::Member;
use craft_base::{MemberId, OutOfMemory};
use entry_frames::RecordView;
use full_append::{Plan, take_append};
use peer_frames::{MessageView, Peer, Role};

impl Act {
    ghost use Rattle.node_core.specs.Acting.{Acts, IsFree, IsIdle, IsNode, IsRangedMember, MayRecord, Recorded};
    ghost use Rattle.world_model.specs.Nodes.{Node};
    ghost use Rattle.world_model.specs.Rules.Acts.{message_of, sending, stays};

    /// Takes the entries of a leader of this term. A member that has won takes none.
    pub(crate) fn take_entries(self, append: &MessageView<'_>) -> Result<Act, OutOfMemory>
        requires append { IsAppend self.member append.now }
        requires ranged { IsRangedMember self.member }
        ensures { IfOk result (Acts (append_act append.now.frame) self) }
    {
        match self.member.role {
            Role::Follower | Role::Candidate => self.follow(append),
            Role::Preparing | Role::Leader => Ok(self),
        }
    }

    /// Hears the leader of its term, and does as is planned for what it sends.
    fn follow(self, append: &MessageView<'_>) -> Result<Act, OutOfMemory>
        requires append { IsAppend self.member append.now }
        requires ranged { IsRangedMember self.member }
        ensures { IfOk result (Acts (following_act append.now.frame) self) }
    {
        let mut act = self;
        act.member.hear_leader(append.from());
        let plan = take_append(act.member.alloc, &act.member.store, append)?;
        act.carry_out(append, plan)
    }

    /// Carries out a plan.
    fn carry_out(self, append: &MessageView<'_>, plan: Plan) -> Result<Act, OutOfMemory>
        requires shape { append.now.shape ≡ self.member.store.shape }
        requires kind { kind_of append.now.frame ≡ kinds.Peer peer_kinds.Append }
        requires plan { IsPlanFor self.member append.now.frame plan }
        requires records { HasRecordsFor self.member append.now.frame plan }
        requires few { length (entries_of (body_of append.now.frame)) ≤ most_entries }
        requires may { MayTake self.member append.now.frame }
        requires stands { (n : Node) × IsNode self.member n }
        requires free { IsFree self.member }
        requires idle { IsIdle self.member }
        ensures { IfOk result (Acts (heard_act append.now.frame) self) }
    {
        match plan {
            Plan::Refuse { next } => self.say(Peer::Refused { next }, append.from()),
            Plan::Clash => Ok(self),
            Plan::Take {
                cut,
                wholes,
                first_new,
                mask,
                commit,
            } => {
                let act = self.change_log(append, cut, &wholes, first_new)?;
                let act = act.commit_to(commit)?;
                act.match_with(append, mask)
            }
        }
    }

    /// Makes its log the leader's: these entries become whole, it is cut at that index, if at any, and the entries of the message
    /// from that number on are added.
    fn change_log(
        self,
        append: &MessageView<'_>,
        cut: Option<u64>,
        wholes: &[u64],
        first_new: u8,
    ) -> Result<Act, OutOfMemory>
        requires shape { append.now.shape ≡ self.member.store.shape }
        requires kind { kind_of append.now.frame ≡ kinds.Peer peer_kinds.Append }
        requires places { All (IsPlaceOf append.now.frame) wholes.now }
        requires may { MayRecord self.member (records_planned append.now.frame cut wholes.now first_new) }
        requires free { IsFree self.member }
        requires idle { IsIdle self.member }
        ensures { IfOk result (Recorded (records_planned append.now.frame cut wholes.now first_new) self) }
    {
        let act = self.complete(append, wholes)?;
        let act = act.cut(cut)?;
        let act = act.add(append, first_new)?;
        Ok(act)
    }

    /// Gives these entries, of which the log holds parts, the values of the message.
    fn complete(self, append: &MessageView<'_>, wholes: &[u64]) -> Result<Act, OutOfMemory>
        requires places { All (IsPlaceOf append.now.frame) wholes.now }
        requires may { MayRecord self.member (map (value_record append.now.frame) wholes.now) }
        requires free { IsFree self.member }
        requires idle { IsIdle self.member }
        ensures { IfOk result (Recorded (map (value_record append.now.frame) wholes.now) self) }
    {
        let mut act = self;
        for index in wholes {
            act = act.complete_one(append, *index)?;
        }
        Ok(act)
    }

    /// Gives one of them its value.
    fn complete_one(self, append: &MessageView<'_>, index: u64) -> Result<Act, OutOfMemory>
        requires place { IsPlaceOf append.now.frame index }
        requires may { MayRecord self.member (value_record append.now.frame index ∷ []) }
        requires free { IsFree self.member }
        requires idle { IsIdle self.member }
        ensures { IfOk result (Recorded (value_record append.now.frame index ∷ []) self) }
    {
        let place = index - append.prev() - 1;
        match append.entry(place as u8) {
            Some(entry) => {
                let act = self.record(&RecordView::Whole(index, entry.bytes()))?;
                Ok(act)
            }
            None => unreachable!(),
        }
    }

    /// Removes the entries from an index on, where there is one.
    pub(crate) fn cut(self, cut: Option<u64>) -> Result<Act, OutOfMemory>
        requires may { MayRecord self.member (map Cut (option_to_list cut)) }
        requires free { IsFree self.member }
        requires idle { IsIdle self.member }
        ensures { IfOk result (Recorded (map Cut (option_to_list cut)) self) }
    {
        match cut {
            Some(index) => self.record(&RecordView::Cut(index)),
            None => Ok(self),
        }
    }

    /// Adds the entries of the message from that number on.
    fn add(self, append: &MessageView<'_>, first_new: u8) -> Result<Act, OutOfMemory>
        requires shape { append.now.shape ≡ self.member.store.shape }
        requires kind { kind_of append.now.frame ≡ kinds.Peer peer_kinds.Append }
        requires may { MayRecord self.member (records_added append.now.frame first_new) }
        requires free { IsFree self.member }
        requires idle { IsIdle self.member }
        ensures { IfOk result (Recorded (records_added append.now.frame first_new) self) }
    {
        let mut act = self;
        for number in first_new..append.count() {
            act = act.add_one(append, number)?;
        }
        Ok(act)
    }

    /// Adds one of them.
    fn add_one(self, append: &MessageView<'_>, number: u8) -> Result<Act, OutOfMemory>
        requires within { number < length (entries_of (body_of append.now.frame)) }
        requires shape { append.now.shape ≡ self.member.store.shape }
        requires may { MayRecord self.member (records_added append.now.frame number) }
        requires free { IsFree self.member }
        requires idle { IsIdle self.member }
        ensures { IfOk result (λ after. (e : Entry) → slice_get (entries_of (body_of append.now.frame)) number ≡ Some e → Recorded (Add e ∷ []) self after) }
    {
        match append.entry(number) {
            Some(entry) => self.record(&RecordView::Add(entry)),
            None => unreachable!(),
        }
    }

    /// Says that its log is the leader's up to the last entry of the message, and what of it it holds whole.
    fn match_with(self, append: &MessageView<'_>, mask: u8) -> Result<Act, OutOfMemory>
        requires { kind_of append.now.frame ≡ kinds.Peer peer_kinds.Append }
        ensures { IfOk result (Acts (λ n. sending (message_of n (match_of append.now.frame mask) (sender_byte append.now.frame) ∷ []) (stays n)) self) }
    {
        let matched = Peer::Matched {
            prev: append.prev(),
            count: append.count(),
            mask,
        };
        self.say(matched, append.from())
    }
}

impl Member {
    ghost use Rattle.node_core.specs.Acting.{Becomes, IsFree, IsIdle};

    /// It is a follower of that member, which has won its term and of which it has just heard.
    pub(crate) fn hear_leader(&mut self, leader: MemberId)
        ensures becomes { Becomes (λ n. record n { volatile = following leader n }) self.old self.new }
        ensures free { IsFree self.new }
        ensures idle { IsIdle self.new }
    {
        self.role = Role::Follower;
        self.hint = Some(leader);
        self.quiet = 0;
    }
}
