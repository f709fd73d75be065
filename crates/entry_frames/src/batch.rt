//! The entries of a message.
ghost use Rattle.std.specs.Prelude.{◌≡◌, ◌<◌, ◌∷◌, ◌++◌, [], length, slice_get};
ghost use Rattle.entry_frames.specs.Batches.{behind};
ghost use Rattle.entry_frames.specs.Limits.{most_entries};

use crate::limits::MOST_ENTRIES;
use arrayvec::ArrayVec;
use craft_base::Entry;
use std::marker::Model;

/// At most eight entries, in order. It takes no memory of its own.
#[derive(Debug, Drop)]
pub struct Batch {
    entries: ArrayVec<Option<Entry>, MOST_ENTRIES>,
}

impl Model for Batch {
    ghost use Rattle.std.specs.Prelude.{List};
    ghost use Rattle.craft_base.specs.declared.command.Entry.{Entry};
    ghost use Rattle.entry_frames.specs.Batches.{all_some, IsBatch};

    ghost Value = { List Entry };

    ghost view = { λ batch. all_some batch.entries.items };

    ghost invariant = { λ batch. IsBatch batch.entries.items };
}

impl Batch {
    /// No entries.
    pub fn new() -> Batch
        ensures { result ≡ [] }
    {
        Batch {
            entries: ArrayVec::new(),
        }
    }

    /// How many entries there are: at most 8.
    pub fn len(&self) -> u8
        ensures { result ≡ length self.now }
    {
        self.entries.len() as u8
    }

    /// Adds an entry as the last one, where there is room.
    pub fn push(&mut self, entry: Entry)
        requires { length self.old < most_entries }
        ensures { self.new ≡ self.old ++ entry ∷ [] }
    {
        self.entries.push(Some(entry));
    }

    /// The entry with that number, counted from 0; `None` exactly where there are no more than `n`.
    pub fn at(&self, n: u8) -> Option<&Entry>
        ensures { behind result ≡ slice_get self.now n }
    {
        match self.entries.get(usize::from(n)) {
            Some(Some(entry)) => Some(entry),
            _ => None,
        }
    }
}
