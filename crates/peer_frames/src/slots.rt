//! The entries of a message, seen where they lie.
ghost use Rattle.std.specs.Prelude.{◌≡◌, ◌≤◌, ◌<◌, ◌∷◌, ◌++◌, [], length, map, slice_get, IfOk};
ghost use Rattle.entry_frames.specs.Formats.{reading};
ghost use Rattle.entry_frames.specs.Limits.{most_entries, most_entry_bytes};
ghost use Rattle.entry_frames.specs.MessageFields.{entries_fields, least_next};
ghost use Rattle.entry_frames.specs.Steps.{Reads};
ghost use Rattle.entry_frames.specs.Views.{IsK};
ghost use Rattle.peer_frames.specs.SlotViews.{entries_of_views, AllHaveK};

use arrayvec::ArrayVec;
use craft_base::OutOfMemory;
use entry_frames::{Batch, EntryView, Fields, FrameFault, MOST_ENTRIES, MOST_ENTRY_BYTES};
use std::alloc::Global;
use std::marker::Model;

/// At most eight entries, lent out of a frame.
#[derive(Drop)]
pub struct Slots<'a> {
    views: ArrayVec<Option<EntryView<'a>>, MOST_ENTRIES>,
}

impl<'a> Model for Slots<'a> {
    ghost use Rattle.std.specs.Prelude.{List};
    ghost use Rattle.entry_frames.specs.Views.{Viewed};
    ghost use Rattle.entry_frames.specs.Batches.{all_some, IsBatch};

    ghost Value = { List Viewed };

    ghost view = { λ slots. all_some slots.views.items };

    ghost invariant = { λ slots. IsBatch slots.views.items };
}

impl<'a> Slots<'a> {
    /// No entries.
    pub fn new() -> Slots<'a>
        ensures { result ≡ [] }
    {
        Slots {
            views: ArrayVec::new(),
        }
    }

    /// How many entries there are: at most 8.
    pub fn len(&self) -> u8
        ensures value { result ≡ length self.now }
        ensures range { result ≤ most_entries }
    {
        self.views.len() as u8
    }

    /// Adds an entry as the last one, where there is room.
    pub fn push(&mut self, view: EntryView<'a>)
        requires { length self.old < 8 }
        ensures { self.new ≡ self.old ++ view.entry ∷ [] }
    {
        self.views.push(Some(view));
    }

    /// The entry with that number, counted from 0; `None` exactly where there are no more than `n`.
    pub fn at(&self, n: u8) -> Option<EntryView<'a>>
        ensures { result ≡ slice_get self.now n }
    {
        match self.views.get(usize::from(n)) {
            Some(Some(view)) => Some(view.again()),
            _ => None,
        }
    }

    /// Reads that many entries, at most 56,000 bytes together, with terms up to `high`. The first has a term of at least
    /// `low`, and so have the others, or, where terms rise, each at least the one before.
    pub fn read(
        fields: &mut Fields<'a>,
        k: u8,
        rises: bool,
        high: u64,
        count: u8,
        low: u64,
    ) -> Result<Slots<'a>, FrameFault>
        requires needs { IsK k }
        requires room { count ≤ most_entries }
        ensures exact { Reads entries_of_views result fields.new (reading (entries_fields k rises high count low most_entry_bytes) fields.old) }
        ensures need { IfOk result (AllHaveK k) }
    {
        let mut slots = Slots::new();
        let mut low = low;
        let mut room = MOST_ENTRY_BYTES;
        for _ in 0..count {
            let before = fields.rest();
            let view = EntryView::take(fields, k, low, high)?;
            let size = before.len() - fields.rest().len();
            fields.test(size <= room, size)?;
            room -= size;
            low = next_low(rises, low, &view);
            slots.push(view);
        }
        Ok(slots)
    }

    /// Entries of their own. The only error is want of memory.
    pub fn to_batch(&self, alloc: Global) -> Result<Batch, OutOfMemory>
        ensures { IfOk result (λ batch. batch ≡ entries_of_views self.now) }
    {
        let mut batch = Batch::new();
        for n in 0..self.len() {
            if let Some(view) = self.at(n) {
                batch.push(view.to_entry(alloc)?);
            }
        }
        Ok(batch)
    }
}

/// The least term of the entry behind this one.
fn next_low(rises: bool, low: u64, view: &EntryView<'_>) -> u64
    ensures { result ≡ least_next rises low view.now.entry.term }
{
    if rises { view.term() } else { low }
}
