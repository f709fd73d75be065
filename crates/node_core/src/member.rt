//! A member as it runs, inside of a turn.
ghost use Rattle.std.specs.Prelude.{◌≡◌, [], IfOk, OnOk};
ghost use Rattle.entry_frames.specs.Durable.{CanApply, applied};
ghost use Rattle.entry_frames.specs.RecordViews.{HasK, record_of};
ghost use Rattle.heard_book.specs.Kept as known;

use craft_base::{MemberId, OutOfMemory, Shape};
use entry_frames::RecordView;
use gather_read::Gather;
use heard_book::Heard;
use kv_apply::Service;
use leader_prep::Prep;
use log_store::LogStore;
use peer_frames::Role;
use std::alloc::Global;
use world_model::Called;

/// What a member keeps while it runs.
#[derive(Drop)]
pub(crate) struct Member {
    pub alloc: Global,
    pub shape: Shape,
    pub me: MemberId,
    /// What outlives a crash.
    pub store: LogStore,
    pub role: Role,
    /// How many ticks have come since it heard of a leader or a candidate, at most 100.
    pub quiet: u64,
    /// Who leads the term, as far as it knows.
    pub hint: Option<MemberId>,
    /// What it knows in this term of the others.
    pub heard: Heard,
    /// What it has been shown, while it prepares to lead.
    pub prep: Option<Prep>,
    /// What it has been shown of the value that it wants, while it leads.
    pub gather: Option<Gather>,
    /// The map after what is committed of its log.
    pub service: Service,
    /// The requests that it added to its log as a leader and that aren't applied yet.
    pub calls: Vec<Called>,
    /// Those that were applied and wait for a value of which it holds a part alone, in order of clients.
    pub reads: Vec<Called>,
}

impl Member {
    /// Carries out a change of what outlives a crash. The only error is want of memory.
    pub fn apply(self, item: &RecordView<'_>) -> Result<Member, OutOfMemory>
        requires k { HasK self.store.shape.need item.now }
        requires can { CanApply self.store.shape self.store.kept (record_of item.now) }
        ensures store { IfOk result (λ after. after.store.kept ≡ applied self.store.kept (record_of item.now)) }
        ensures shape { IfOk result (λ after. after.store.shape ≡ self.store.shape) }
        ensures rest { IfOk result (λ after. after ≡ record self { store = after.store }) }
    {
        Ok(Member {
            alloc: self.alloc,
            shape: self.shape,
            me: self.me,
            store: self.store.apply(item)?,
            role: self.role,
            quiet: self.quiet,
            hint: self.hint,
            heard: self.heard,
            prep: self.prep,
            gather: self.gather,
            service: self.service,
            calls: self.calls,
            reads: self.reads,
        })
    }

    /// Forgets all that it heard, as a new term begins. The only error is want of memory.
    pub fn forget(&mut self) -> Result<(), OutOfMemory>
        ensures heard { OnOk result (known.Stands self.new.heard self.old.shape [] 0) }
        ensures settled { OnOk result (self.new.heard.window.settled ≡ 0) }
        ensures rest { OnOk result (self.new ≡ record self.old { heard = self.new.heard }) }
    {
        self.heard = Heard::new(self.alloc, &self.shape, self.me)?;
        Ok(())
    }
}
