//! The state that the records of a journal leave.
ghost use Rattle.std.specs.Prelude.{◌≡◌, List, IfOk};
ghost use Rattle.entry_frames.specs.Durable.{born, applied, after, CanApply};
ghost use Rattle.entry_frames.specs.RecordViews.{record_of, HasK};
ghost use Rattle.entry_frames.specs.Records.{Record};
ghost use Rattle.log_store.specs.Replays.{Spells};
ghost use Rattle.synced_log.specs.Journal.{AreGroups, after_groups, placed_from};
ghost use Rattle.entry_frames.specs.Bodies.{SpellsAll};

use crate::store::LogStore;
use craft_base::{OutOfMemory, Shape};
use entry_frames::{RecordView, RecordWalk};
use std::alloc::Global;
use synced_log::Groups;

impl LogStore {
    /// Applies the records of all groups of a journal, in order, to the state before any record. The only error is want of
    /// memory.
    pub fn replay(alloc: Global, shape: &Shape, groups: &Groups) -> Result<LogStore, OutOfMemory>
        requires { groups.now.shape ≡ shape.now }
        ensures shape { IfOk result (λ store. store.shape ≡ shape.now) }
        ensures kept { IfOk result (λ store. (all : List (List Record)) → groups.now.placed ≡ placed_from shape.now.need 32 all → AreGroups shape.now born all → store.kept ≡ after_groups born all) }
    {
        let mut store = LogStore::new(alloc, shape);
        for n in 0..groups.count() {
            let Some((_, body)) = groups.at(n) else {
                unreachable!()
            };
            store = store.apply_body(body)?;
        }
        Ok(store)
    }

    /// Applies a record. The only error is want of memory.
    pub fn apply(self, item: &RecordView<'_>) -> Result<LogStore, OutOfMemory>
        requires need { HasK self.shape.need item.now }
        requires can { CanApply self.shape self.kept (record_of item.now) }
        ensures shape { IfOk result (λ store. store.shape ≡ self.shape) }
        ensures kept { IfOk result (λ store. store.kept ≡ applied self.kept (record_of item.now)) }
    {
        let mut store = self;
        match item {
            RecordView::Term(term, vote) => store.set_term(*term, *vote),
            RecordView::Add(entry) => return store.append(entry),
            RecordView::Cut(index) => store.cut_from(*index),
            RecordView::Whole(index, value) => return store.make_whole(*index, value),
            RecordView::Commit(index) => store.set_commit(*index),
        }
        Ok(store)
    }

    /// Applies the records of a body, in order. The only error is want of memory.
    fn apply_body(self, body: &[u8]) -> Result<LogStore, OutOfMemory>
        requires { Spells self body.now }
        ensures shape { IfOk result (λ store. store.shape ≡ self.shape) }
        ensures kept { IfOk result (λ store. (records : List Record) → SpellsAll self.shape self.kept body.now records → store.kept ≡ after self.kept records) }
    {
        let mut walk = RecordWalk::of(self.k(), body);
        let mut store = self;
        while let Some(item) = walk.next() {
            let Ok(item) = item else { unreachable!() };
            store = store.apply(&item)?;
        }
        Ok(store)
    }
}
