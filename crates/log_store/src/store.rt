//! The state of a member in memory, and each change of it.
ghost use Rattle.std.specs.Prelude.{◌≡◌, ◌<◌, ◌^◌, IfOk};
ghost use Rattle.entry_frames.specs.Durable.{born, applied, complete_at, CanApply};
ghost use Rattle.entry_frames.specs.Records.{Term, Add, Cut, Whole, Commit};
ghost use Rattle.entry_frames.specs.Logs.{IsLog};
ghost use Rattle.entry_frames.specs.Bulk.{bulk_of};
ghost use Rattle.entry_frames.specs.Stored.{DurableInRange};

use craft_base::{Blob, Entry, Form, OutOfMemory, Shape};
use entry_frames::{EntryView, LogView};
use std::alloc::Global;
use std::marker::Model;

/// The log of a member, its term and its vote. Contracts see the state that the records of its journal leave. It keeps that
/// its entries meet the ranges of docs/FORMATS.md, "An entry", and that their terms don't fall and are at most its term.
#[derive(Drop)]
pub struct LogStore {
    alloc: Global,
    shape: Shape,
    term: u64,
    vote: Option<u8>,
    commit: u64,
    entries: Vec<Entry>,
    bulk: u64,
    ghost is_log: { IsLog (record { k = shape.need; entries = entries.items; commit = commit }) },
}

impl Model for LogStore {
    ghost use Rattle.std.specs.Prelude.{◌≡◌};
    ghost use Rattle.entry_frames.specs.Bulk.{bulk_of};
    ghost use Rattle.entry_frames.specs.Stored.{IsStored};
    ghost use Rattle.log_store.specs.Stores.{Stored};

    ghost Value = { Stored };

    ghost view = { λ s. record {
      shape = s.shape;
      kept = record { term = s.term; vote = s.vote; log = s.entries.items; commit = s.commit };
      is_log = s.is_log;
    } };

    ghost invariant = { λ s. IsStored s.shape s.term s.entries.items × (s.bulk ≡ bulk_of s.entries.items) };
}

impl LogStore {
    /// The state before any record.
    pub fn new(alloc: Global, shape: &Shape) -> LogStore
        ensures shape { result.shape ≡ shape.now }
        ensures kept { result.kept ≡ born }
    {
        shape.law();
        LogStore {
            alloc,
            shape: *shape,
            term: 0,
            vote: None,
            commit: 0,
            entries: Vec::new(alloc),
            bulk: 0,
        }
    }

    /// Each entry is in its ranges, the terms are at least 1, don't fall and are at most the state's, which is in range, and the
    /// log isn't too long or committed past its end.
    pub fn law(&self)
        ensures { DurableInRange self.now.shape self.now.kept }
    {
        let _ = &self.term;
    }

    /// The term: 0 before any record, else 1 to 2^62.
    pub fn term(&self) -> u64
        ensures { result ≡ self.now.kept.term }
    {
        self.term
    }

    /// The member that it voted for in its term.
    pub fn vote(&self) -> Option<u8>
        ensures { result ≡ self.now.kept.vote }
    {
        self.vote
    }

    /// The lengths of the values of the log's entries, in sum, whether they are held whole or as fragments.
    pub fn bulk(&self) -> u64
        ensures { result ≡ bulk_of self.now.kept.log }
    {
        self.bulk
    }

    /// Enters a term, or votes in the present one.
    pub fn set_term(&mut self, term: u64, vote: Option<u8>)
        requires { CanApply self.old.shape self.old.kept (Term term vote) }
        ensures shape { self.new.shape ≡ self.old.shape }
        ensures kept { self.new.kept ≡ applied self.old.kept (Term term vote) }
    {
        self.term = term;
        self.vote = vote;
    }

    /// Adds an entry behind the last one. The only error is want of memory.
    pub fn append(self, entry: &EntryView<'_>) -> Result<LogStore, OutOfMemory>
        requires need { entry.now.k ≡ self.shape.need }
        requires can { CanApply self.shape self.kept (Add entry.now.entry) }
        ensures shape { IfOk result (λ store. store.shape ≡ self.shape) }
        ensures kept { IfOk result (λ store. store.kept ≡ applied self.kept (Add entry.now.entry)) }
    {
        let mut store = self;
        // so that the proof sees that the entry is in range
        let _need = entry.k();
        let added = entry.to_entry(store.alloc)?;
        store.entries.push(added)?;
        store.bulk += u64::from(entry.vlen());
        Ok(store)
    }

    /// Takes the entries from an index on out of the log.
    pub fn cut_from(&mut self, index: u64)
        requires { CanApply self.old.shape self.old.kept (Cut index) }
        ensures shape { self.new.shape ≡ self.old.shape }
        ensures kept { self.new.kept ≡ applied self.old.kept (Cut index) }
    {
        let left = (index - 1) as usize;
        self.bulk -= sum_of(&self.entries[left..]);
        self.entries.truncate(left);
    }

    /// Gives the entry at an index, a part, its whole value. The only error is want of memory.
    pub fn make_whole(self, index: u64, value: &[u8]) -> Result<LogStore, OutOfMemory>
        requires { CanApply self.shape self.kept (Whole index value.now) }
        ensures shape { IfOk result (λ store. store.shape ≡ self.shape) }
        ensures kept { IfOk result (λ store. store.kept ≡ applied self.kept (Whole index value.now)) }
    {
        let mut store = self;
        let bytes = Blob::copy_of(store.alloc, value)?;
        complete(&mut store.entries, (index - 1) as usize, bytes);
        Ok(store)
    }

    /// Commits the log up to an index.
    pub fn set_commit(&mut self, commit: u64)
        requires { CanApply self.old.shape self.old.kept (Commit commit) }
        ensures shape { self.new.shape ≡ self.old.shape }
        ensures kept { self.new.kept ≡ applied self.old.kept (Commit commit) }
    {
        self.commit = commit;
    }
}

impl LogView for LogStore {
    ghost use Rattle.log_store.specs.Stores.{shown};

    ghost log = { λ s. shown s.shape s.kept };

    ghost is_log = { λ s. s.is_log };

    fn last(&self) -> u64 {
        self.entries.len() as u64
    }

    fn commit(&self) -> u64 {
        self.commit
    }

    fn term_at(&self, index: u64) -> u64 {
        self.entry(index).map_or(0, |entry| entry.term)
    }

    fn at(&self, index: u64) -> Option<EntryView<'_>> {
        match self.entry(index) {
            None => None,
            Some(entry) => Some(EntryView::of(self.shape.need(), entry)),
        }
    }
}

impl LogStore {
    ghost use Rattle.std.specs.Prelude.{MatchOption, Some, None};
    ghost use Rattle.entry_frames.specs.Logs.{entry_at};
    ghost use Rattle.entry_frames.specs.Views.{IsK};

    /// How many fragments rebuild a value of its cluster.
    pub(crate) fn k(&self) -> u8
        ensures value { result ≡ self.now.shape.need }
        ensures range { IsK result }
    {
        self.shape.need()
    }

    /// The entry at an index, the first of which is 1.
    fn entry(&self, index: u64) -> Option<&Entry>
        ensures { MatchOption result (entry_at self.now.kept.log index ≡ None) (λ e. entry_at self.now.kept.log index ≡ Some e.now) }
    {
        if index == 0 {
            return None;
        }
        self.entries.get((index - 1) as usize)
    }
}

/// The lengths of the values, in sum.
fn sum_of(entries: &[Entry]) -> u64
    requires { bulk_of entries.now < 2 ^ 64 }
    ensures { result ≡ bulk_of entries.now }
{
    let mut sum = 0;
    for entry in entries {
        sum += u64::from(entry.head.vlen);
    }
    sum
}

/// Gives the entry at a position its whole value.
fn complete(entries: &mut [Entry], position: usize, bytes: Blob)
    ensures { entries.new ≡ complete_at entries.old position bytes }
{
    if position < entries.len() {
        entries[position].form = Form::Whole(bytes);
    }
}
