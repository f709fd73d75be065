//! The leader's own entry.
ghost use Rattle.std.specs.Prelude.{◌≡◌};

use craft_base::{Entry, OutOfMemory};
use entry_frames::EntryView;
use std::alloc::Global;
use std::marker::Model;

/// An entry that is kept, and how many fragments rebuild its value. It meets the ranges of docs/FORMATS.md, "An entry".
#[derive(Drop)]
pub struct OwnEntry {
    k: u8,
    entry: Entry,
}

impl Model for OwnEntry {
    ghost use Rattle.entry_frames.specs.Views.{IsInRange, Viewed};

    ghost Value = { Viewed };

    ghost view = { λ own. record { k = own.k; entry = own.entry } };

    ghost invariant = { λ own. IsInRange (record { k = own.k; entry = own.entry }) };
}

impl OwnEntry {
    ghost use Rattle.std.specs.Prelude.{IfOk};

    /// A copy of what a view shows. The only error is want of memory.
    pub(crate) fn of(alloc: Global, view: &EntryView<'_>) -> Result<OwnEntry, OutOfMemory>
        ensures { IfOk result (λ own. own ≡ view.now) }
    {
        let k = view.k();
        let entry = view.to_entry(alloc)?;
        Ok(OwnEntry { k, entry })
    }

    /// It is lent.
    pub(crate) fn view(&self) -> EntryView<'_>
        ensures { result ≡ self.now }
    {
        EntryView::of(self.k, &self.entry)
    }
}
