//! The turn: the rule that an event calls for, and what the member tells of it.
ghost use Rattle.std.specs.Prelude.{◌≡◌, IfOk};
ghost use Rattle.craft_base.specs.Shape.{IsShape};
ghost use Rattle.entry_frames.specs.Kinds.{kind_of};
ghost use Rattle.entry_frames.specs.MessageParts.{body_of, receiver_byte, sender_byte};
ghost use Rattle.entry_frames.specs.declared.kind.Kind.TheVariants.{Peer};
ghost use Rattle.entry_frames.specs.declared.kind.PeerKind.TheVariants as peer_kinds;
ghost use Rattle.world_model.specs.Ranges.{EventInRange, HasSpelling};
ghost use Rattle.world_model.specs.Turn as turns;

use crate::act::Act;
use crate::event::Event;
use crate::running::Core;
use crate::telling::{Before, Changes, tell};
use craft_base::OutOfMemory;
use entry_frames::{Group, Kind, LogView, PeerKind};
use peer_frames::{MessageView, Output};

/// What is left of a turn.
#[derive(Drop)]
pub struct Turned {
    /// The records, which have to be in the journal before anything is told; none where nothing changed that outlives a crash.
    pub group: Group,
    /// What is told, in its order: what changed, then what clients are told, and then what is sent.
    pub outputs: Vec<Output>,
}

impl Core {
    ghost use Rattle.node_core.specs.Stands.{Stands};
    ghost use Rattle.node_core.specs.Turns.{IsFor, TurnedTo, event_of};
    ghost use Rattle.world_model.specs.Nodes.{Node};

    /// Carries out the rule that the event calls for. A frame has to be of another member of this cluster to this one. The only
    /// error is want of memory; the member is then gone.
    pub fn turn(self, event: &Event<'_>) -> Result<(Core, Turned), OutOfMemory>
        requires { IsFor self event.now }
        ensures turned { IfOk result (λ x. (n : Node) → Stands self n → TurnedTo self n (event_of event.now) x.0 x.1) }
        // And there is a node that it stands for, so that this speaks of something.
        ensures stands { IfOk result (λ x. (n : Node) × Stands self n) }
    {
        self.member.shape.law();
        let before = Before::of(&self.member);
        let act = Act::new(self.member)?;
        let act = act.take_turn(event)?;
        let changes = Changes {
            role: before.role_change(&act.member),
            cuts: act.cuts,
            prepares: before.prepares(&act.member),
            wholes: act.wholes,
            commit: before.commit_change(&act.member),
        };
        let outputs = tell(act.member.alloc, changes, act.replies, act.sends)?;
        let group = act.group.close()?;
        Ok((Core { member: act.member }, Turned { group, outputs }))
    }
}

impl Act {
    ghost use Rattle.node_core.specs.Acting.{Acts, IsCurrent, IsRangedMember};
    ghost use Rattle.node_core.specs.Turns.{IsReadIn, event_of};

    /// Carries out the rule that the event calls for, and asks for what a leader then wants.
    fn take_turn(self, event: &Event<'_>) -> Result<Act, OutOfMemory>
        requires is_shape { IsShape self.member.store.shape }
        requires told { EventInRange self.member.store.shape self.member.me (event_of event.now) }
        requires read { IsReadIn self.member.store.shape event.now }
        requires ranged { IsRangedMember self.member }
        ensures { IfOk result (Acts (turns.act_of (event_of event.now)) self) }
    {
        let act = self.respond(event)?;
        act.want()
    }

    /// Carries out the rule that the event calls for.
    fn respond(self, event: &Event<'_>) -> Result<Act, OutOfMemory>
        requires is_shape { IsShape self.member.store.shape }
        requires told { EventInRange self.member.store.shape self.member.me (event_of event.now) }
        requires read { IsReadIn self.member.store.shape event.now }
        requires ranged { IsRangedMember self.member }
        ensures { IfOk result (Acts (turns.act_of_event (event_of event.now)) self) }
    {
        match event {
            Event::Tick { word } => self.tick(*word),
            Event::Frame(view) => self.take(view),
            Event::Call { place, request } => self.take_call(*place, request),
        }
    }

    /// Takes a message of another member, by its term and then by what it says.
    fn take(self, view: &MessageView<'_>) -> Result<Act, OutOfMemory>
        requires is_shape { IsShape self.member.store.shape }
        requires spelled { HasSpelling self.member.store.shape view.now.frame }
        requires receiver { receiver_byte view.now.frame ≡ self.member.me }
        requires read { view.now.shape ≡ self.member.store.shape }
        requires ranged { IsRangedMember self.member }
        ensures { IfOk result (Acts (turns.act_of_message view.now.frame) self) }
    {
        let Kind::Peer(kind) = view.message_kind() else {
            return Ok(self);
        };
        if view.term() < self.member.store.term() {
            return self.refuse_stale(view.from(), kind);
        }
        let act = self.catch_up(view.term())?;
        act.take_said(view, kind)
    }

    /// Takes a message of its own term, by what it says.
    fn take_said(self, view: &MessageView<'_>, kind: PeerKind) -> Result<Act, OutOfMemory>
        requires is_shape { IsShape self.member.store.shape }
        requires kind { kind_of view.now.frame ≡ Peer kind }
        requires current { IsCurrent self.member view.now }
        requires ranged { IsRangedMember self.member }
        ensures { IfOk result (Acts (λ n. turns.act_of_peer n (sender_byte view.now.frame) (body_of view.now.frame)) self) }
    {
        match kind {
            PeerKind::Vote => self.consider_vote(view.from(), view.last_term(), view.last()),
            PeerKind::VoteReply => self.count_reply(view.from(), view.granted()),
            PeerKind::Append => self.take_entries(view),
            PeerKind::AppendReply => self.take_reply(view),
            PeerKind::Ask => self.take_question(view.from(), view.start()),
            PeerKind::Answer => self.take_answer(view),
        }
    }

    /// Takes what a member says of its log.
    fn take_reply(self, view: &MessageView<'_>) -> Result<Act, OutOfMemory>
        requires kind { kind_of view.now.frame ≡ Peer peer_kinds.AppendReply }
        requires spelled { HasSpelling self.member.store.shape view.now.frame }
        requires ranged { IsRangedMember self.member }
        ensures { IfOk result (Acts (λ n. turns.act_of_peer n (sender_byte view.now.frame) (body_of view.now.frame)) self) }
    {
        if view.is_matched() {
            self.take_match(view.from(), view.prev(), view.count(), view.mask())
        } else {
            self.take_refusal(view.from(), view.next())
        }
    }
}
