//! A log in memory, for the tests.
ghost use Rattle.std.specs.Prelude.{◌≡◌, ℕ, Some, length, map, slice_get};
ghost use Rattle.entry_frames.specs.Limits.{last_place};
ghost use Rattle.entry_frames.specs.Logs.{IsLog};
ghost use Rattle.entry_frames.specs.Views.{Viewed};

use entry_frames::{EntryView, LogView};
use std::alloc::{AllocError, Global};

/// Entries that are lent, and how far they are committed.
#[derive(Drop)]
pub struct KeptLog<'a> {
    k: u8,
    views: Vec<EntryView<'a>>,
    commit: u64,
    ghost is_log: { IsLog (record { k = k; entries = map (λ v. v.entry) views.items; commit = commit }) },
    ghost same_k: { (i : ℕ) (v : Viewed) → slice_get views.items i ≡ Some v → v.k ≡ k },
}

impl<'a> KeptLog<'a> {
    ghost use Rattle.std.specs.Prelude.{[], ◌<◌, ◌+◌, OnOk};

    /// An empty log.
    pub fn new(alloc: Global, k: u8) -> KeptLog<'a>
        ensures empty { result.views.items ≡ [] }
        ensures need { result.k ≡ k }
    {
        KeptLog {
            k,
            views: Vec::new(alloc),
            commit: 0,
        }
    }

    /// How many fragments rebuild a value.
    pub fn k(&self) -> u8
        ensures { result ≡ self.now.k }
    {
        self.k
    }

    /// Adds an entry at the end.
    pub fn push(&mut self, view: EntryView<'a>) -> Result<(), AllocError>
        requires need { view.k ≡ self.old.k }
        requires short { length self.old.views.items < last_place }
        ensures need { self.new.k ≡ self.old.k }
        ensures len { OnOk result (length self.new.views.items ≡ length self.old.views.items + 1) }
    {
        self.views.push(view)?;
        Ok(())
    }

    /// Commits up to the last entry.
    pub fn commit_all(&mut self)
        ensures need { self.new.k ≡ self.old.k }
        ensures entries { self.new.views.items ≡ self.old.views.items }
    {
        self.commit = self.views.len() as u64;
    }
}

impl LogView for KeptLog<'_> {
    ghost log = { λ s. record { k = s.k; entries = map (λ v. v.entry) s.views.items; commit = s.commit } };

    ghost is_log = { λ s. s.is_log };

    fn last(&self) -> u64 {
        self.views.len() as u64
    }

    fn commit(&self) -> u64 {
        self.commit
    }

    fn term_at(&self, index: u64) -> u64 {
        if index == 0 {
            return 0;
        }
        match self.views.get(index as usize - 1) {
            Some(view) => view.term(),
            None => 0,
        }
    }

    fn at(&self, index: u64) -> Option<EntryView<'_>> {
        if index == 0 {
            return None;
        }
        match self.views.get(index as usize - 1) {
            Some(view) => Some(view.again()),
            None => None,
        }
    }
}
