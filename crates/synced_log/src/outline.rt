//! What is kept of a state while a file is read: enough to tell where a record can be applied.
ghost use Rattle.std.specs.Prelude.{◌≡◌, ◌≤◌, ◌-◌, ◌++◌, ◌∷◌, [], true, length, take, is_some, OnOk};
ghost use Rattle.entry_frames.specs.Durable.{born};
ghost use Rattle.entry_frames.specs.RecordViews.{record_of};
ghost use Rattle.synced_log.specs.Outlines.{can_apply, can_apply_term, can_apply_entry, is_uncommitted, is_voter, lacks_value, outline_at, term_of_outline, outline_after, outline_of, make_whole};

use craft_base::{OutOfMemory, Shape};
use entry_frames::{GREATEST, LAST_PLACE, RecordView};
use std::alloc::Global;
use std::marker::Model;

/// Of an entry its term, the length of its value, and whether all of it is held.
#[derive(Clone, Copy, Debug, PartialEq, Eq)]
pub struct EntryOutline {
    pub term: u64,
    pub vlen: u32,
    pub whole: bool,
}

/// The state that the records so far leave, as far as it tells which record can be applied next.
#[derive(Drop)]
pub struct Outline {
    term: u64,
    vote: Option<u8>,
    commit: u64,
    entries: Vec<EntryOutline>,
}

impl Model for Outline {
    ghost use Rattle.synced_log.specs.Outlines.{Outline};

    ghost Value = { Outline };

    ghost view = { λ s. record { term = s.term; vote = s.vote; commit = s.commit; entries = s.entries.items } };
}

impl Outline {
    /// The state before any record.
    pub fn new(alloc: Global) -> Outline
        ensures { result ≡ outline_of born }
    {
        Outline {
            term: 0,
            vote: None,
            commit: 0,
            entries: Vec::new(alloc),
        }
    }

    /// Whether a record can be applied to it.
    pub fn can_apply(&self, shape: &Shape, item: &RecordView<'_>) -> bool
        ensures { result ≡ can_apply shape.now self.now (record_of item.now) }
    {
        match item {
            RecordView::Term(term, vote) => self.can_apply_term(shape, *term, *vote),
            RecordView::Add(entry) => self.can_apply_entry(entry.term()),
            RecordView::Cut(index) => self.is_uncommitted(*index),
            RecordView::Whole(index, bytes) => self.lacks_value(*index, bytes.len()),
            RecordView::Commit(index) => self.is_uncommitted(*index),
        }
    }

    /// Whether that term is a later one, or that vote the first of a member in the present term.
    fn can_apply_term(&self, shape: &Shape, term: u64, vote: Option<u8>) -> bool
        ensures { result ≡ can_apply_term shape.now self.now term vote }
    {
        if 1 <= term && term <= GREATEST && self.term < term {
            return true;
        }
        term == self.term && self.vote.is_none() && is_voter(shape, vote)
    }

    /// Whether an entry of that term can come next.
    fn can_apply_entry(&self, term: u64) -> bool
        ensures { result ≡ can_apply_entry self.now term }
    {
        let last = self.entries.len() as u64;
        last < LAST_PLACE && self.term_at(last) <= term && term <= self.term
    }

    /// Whether that index is one behind the committed ones.
    fn is_uncommitted(&self, index: u64) -> bool
        ensures { result ≡ is_uncommitted self.now index }
    {
        self.commit < index && index <= self.entries.len() as u64
    }

    /// Whether the entry at that index is a part of a value of that length.
    fn lacks_value(&self, index: u64, len: usize) -> bool
        ensures { result ≡ lacks_value (outline_at self.now.entries index) len }
    {
        self.outline_at(index)
            .is_some_and(|entry| !entry.whole && entry.vlen as usize == len)
    }

    /// The term at an index, 0 where there is no entry.
    fn term_at(&self, index: u64) -> u64
        ensures { result ≡ term_of_outline (outline_at self.now.entries index) }
    {
        self.outline_at(index).map_or(0, |entry| entry.term)
    }

    /// What is kept of the entry at an index, the first of which is 1.
    fn outline_at(&self, index: u64) -> Option<EntryOutline>
        ensures { result ≡ outline_at self.now.entries index }
    {
        if index == 0 {
            return None;
        }
        self.entries.get((index - 1) as usize).copied()
    }

    /// Applies a record. The only error is want of memory.
    pub fn apply(&mut self, shape: &Shape, item: &RecordView<'_>) -> Result<(), OutOfMemory>
        requires { can_apply shape.now self.old (record_of item.now) ≡ true }
        ensures { OnOk result (self.new ≡ outline_after self.old (record_of item.now)) }
    {
        match item {
            RecordView::Term(term, vote) => {
                self.term = *term;
                self.vote = *vote;
            }
            RecordView::Add(entry) => self.entries.push(EntryOutline {
                term: entry.term(),
                vlen: entry.vlen(),
                whole: entry.is_whole(),
            })?,
            RecordView::Cut(index) => self.entries.truncate((*index - 1) as usize),
            RecordView::Whole(index, _) => make_whole(&mut self.entries, (*index - 1) as usize),
            RecordView::Commit(index) => self.commit = *index,
        }
        Ok(())
    }
}

/// Whether the vote is a member's.
fn is_voter(shape: &Shape, vote: Option<u8>) -> bool
    ensures { result ≡ is_voter shape.now vote }
{
    vote.is_some_and(|member| member < shape.members())
}

/// Notes that the entry at that position is whole.
fn make_whole(entries: &mut [EntryOutline], position: usize)
    ensures { entries.new ≡ make_whole entries.old position }
{
    if position < entries.len() {
        entries[position].whole = true;
    }
}
