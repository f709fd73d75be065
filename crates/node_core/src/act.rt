//! What a member does in a turn.
ghost use Rattle.std.specs.Prelude.{◌≡◌, ◌++◌, ◌∷◌, [], false, IfOk, OnOk};
ghost use Rattle.entry_frames.specs.Durable.{CanApply, applied};
ghost use Rattle.entry_frames.specs.Formats.{Fits};
ghost use Rattle.entry_frames.specs.RecordViews.{HasK, record_of};
ghost use Rattle.entry_frames.specs.Records.{record_fields, record_spellings};

use crate::member::Member;
use craft_base::OutOfMemory;
use entry_frames::{GroupBuilder, Message, RecordView};
use world_model::ClientReply;

/// A member, and what it recorded and told in a turn so far.
#[derive(Drop)]
pub(crate) struct Act {
    pub member: Member,
    /// The records, which have to be in the journal before anything is told.
    pub group: GroupBuilder,
    /// From which indexes on entries were removed.
    pub cuts: Vec<u64>,
    /// At which indexes a fragment became whole.
    pub wholes: Vec<u64>,
    /// What clients are told, in order.
    pub replies: Vec<ClientReply>,
    /// The messages, in order.
    pub sends: Vec<Message>,
}

impl Act {
    ghost use Rattle.node_core.specs.Acting.{Acts, IsMade, MayChange, MayEdit, is_commit, cut_indexes, whole_indexes};
    ghost use Rattle.world_model.specs.Rules.Acts.{answering, recording, sending, stays};

    /// Nothing recorded and nothing told yet. The only error is want of memory.
    pub fn new(member: Member) -> Result<Act, OutOfMemory>
        ensures member { IfOk result (λ act. act.member ≡ member) }
        ensures group { IfOk result (λ act. act.group ≡ []) }
        ensures cuts { IfOk result (λ act. act.cuts.items ≡ []) }
        ensures wholes { IfOk result (λ act. act.wholes.items ≡ []) }
        ensures replies { IfOk result (λ act. act.replies.items ≡ []) }
        ensures sends { IfOk result (λ act. act.sends.items ≡ []) }
    {
        let alloc = member.alloc;
        Ok(Act {
            member,
            group: GroupBuilder::new(alloc)?,
            cuts: Vec::new(alloc),
            wholes: Vec::new(alloc),
            replies: Vec::new(alloc),
            sends: Vec::new(alloc),
        })
    }

    /// Records a change of what outlives a crash, and carries it out. What is committed of the log stays; who prepares changes no
    /// log, and a leader that wants a value changes none of the entries that it has. The only error is want of memory.
    pub fn record(self, item: &RecordView<'_>) -> Result<Act, OutOfMemory>
        requires k { HasK self.member.store.shape.need item.now }
        requires can { CanApply self.member.store.shape self.member.store.kept (record_of item.now) }
        requires fits { Fits (record_fields self.member.store.shape.need) (record_of item.now) }
        requires stays { is_commit (record_of item.now) ≡ false }
        requires free { MayChange self.member (record_of item.now) }
        requires idle { MayEdit self.member (record_of item.now) }
        ensures acts { IfOk result (Acts (λ n. recording (record_of item.now) (stays n)) self) }
        ensures kept { IfOk result (λ after. after.member.store.kept ≡ applied self.member.store.kept (record_of item.now)) }
        ensures shape { IfOk result (λ after. after.member.store.shape ≡ self.member.store.shape) }
        ensures role { IfOk result (λ after. after.member.role ≡ self.member.role) }
        ensures gather { IfOk result (λ after. after.member.gather ≡ self.member.gather) }
    {
        self.make(item)
    }

    /// Puts a change into the group, notes what is told of it, and carries it out. The only error is want of memory.
    pub fn make(self, item: &RecordView<'_>) -> Result<Act, OutOfMemory>
        requires k { HasK self.member.store.shape.need item.now }
        requires can { CanApply self.member.store.shape self.member.store.kept (record_of item.now) }
        requires fits { Fits (record_fields self.member.store.shape.need) (record_of item.now) }
        ensures { IfOk result (IsMade (record_of item.now) self) }
    {
        let mut act = self;
        act.note(item)?;
        Ok(Act {
            member: act.member.apply(item)?,
            group: act.group.put(item)?,
            cuts: act.cuts,
            wholes: act.wholes,
            replies: act.replies,
            sends: act.sends,
        })
    }

    /// Notes what is told of a change.
    fn note(&mut self, item: &RecordView<'_>) -> Result<(), OutOfMemory>
        ensures cuts { OnOk result (self.new.cuts.items ≡ self.old.cuts.items ++ cut_indexes (record_of item.now ∷ [])) }
        ensures wholes { OnOk result (self.new.wholes.items ≡ self.old.wholes.items ++ whole_indexes (record_of item.now ∷ [])) }
        ensures rest { OnOk result (self.new ≡ record self.old { cuts = self.new.cuts; wholes = self.new.wholes }) }
    {
        match item {
            RecordView::Cut(index) => self.cuts.push(*index)?,
            RecordView::Whole(index, _) => self.wholes.push(*index)?,
            RecordView::Term(..) | RecordView::Add(_) | RecordView::Commit(_) => {}
        }
        Ok(())
    }

    /// Tells a client that, behind the others. The only error is want of memory.
    pub fn answer(self, reply: ClientReply) -> Result<Act, OutOfMemory>
        ensures { IfOk result (Acts (λ n. answering (reply ∷ []) (stays n)) self) }
    {
        let mut act = self;
        act.replies.push(reply)?;
        Ok(act)
    }

    /// Sends a message behind the others. The only error is want of memory.
    pub fn send(self, message: Message) -> Result<Act, OutOfMemory>
        ensures { IfOk result (Acts (λ n. sending (message ∷ []) (stays n)) self) }
    {
        let mut act = self;
        act.sends.push(message)?;
        Ok(act)
    }
}
