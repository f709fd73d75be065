//! What others showed.
ghost use Rattle.std.specs.Prelude.{◌≡◌, ◌<◌};
ghost use Rattle.leader_prep.specs.Keeping.{place_of};

use craft_base::{Entry, OutOfMemory};
use entry_frames::EntryView;
use peer_frames::MessageView;
use std::alloc::Global;
use std::marker::Model;

/// How many slots of a member are kept. As a page begins at or before the cursor, it ends at most seven places above.
const WINDOW: u64 = 8;

/// The places for the slots of fifteen members.
const PLACES: usize = 120;

/// An entry, and the index at which it was shown.
#[derive(Drop)]
pub struct Slot {
    index: u64,
    entry: Entry,
}

/// Of each member the latest slots at eight indexes in a row. The slot at an index stands at its place modulo eight; it takes
/// the place of one eight indexes before.
#[derive(Drop)]
pub struct Slots {
    k: u8,
    places: Vec<Option<Slot>>,
}

impl Model for Slots {
    ghost use Rattle.leader_prep.specs.Keeping.{AreKept, KeptSlots};

    ghost Value = { KeptSlots };

    ghost view = { λ slots. record { k = slots.k; places = slots.places.items } };

    ghost invariant = { λ slots. AreKept (record { k = slots.k; places = slots.places.items }) };
}

impl Slots {
    ghost use Rattle.std.specs.Prelude.{◌≤◌, ◌+◌, ℕ, length, None, Some, OnOk, IfOk};
    ghost use Rattle.entry_frames.specs.Kinds.{kind_of};
    ghost use Rattle.entry_frames.specs.Limits.{last_place, most_entries};
    ghost use Rattle.entry_frames.specs.Logs.{viewed_with};
    ghost use Rattle.entry_frames.specs.MessageParts.{body_of, entries_of, start_of};
    ghost use Rattle.entry_frames.specs.Views.{IsInRange};
    ghost use Rattle.entry_frames.specs.declared.kind.Kind.TheVariants as kinds;
    ghost use Rattle.entry_frames.specs.declared.kind.PeerKind.TheVariants as peer_kinds;
    ghost use Rattle.leader_prep.specs.Keeping.{IsKeptInRange, entry_in, slot_at};
    ghost use Rattle.leader_prep.specs.Pages.{page_of};
    ghost use Rattle.leader_prep.specs.Changes.{KeepsOne, KeepsPage, Puts};

    /// Nothing was shown, of values that `k` fragments rebuild.
    pub(crate) fn new(alloc: Global, k: u8) -> Result<Slots, OutOfMemory>
        ensures need { IfOk result (λ slots. slots.k ≡ k) }
        ensures none { IfOk result (λ slots. (member index : ℕ) → slot_at slots.places member index ≡ None) }
    {
        let mut places = Vec::new(alloc);
        for _ in 0..PLACES {
            places.push(None)?;
        }
        Ok(Slots { k, places })
    }

    /// The slot of that member at that index, lent.
    pub(crate) fn at(&self, member: u8, index: u64) -> Option<EntryView<'_>>
        requires { member < 15 }
        ensures { result ≡ viewed_with self.now.k (slot_at self.now.places member index) }
    {
        match &self.places[place_of(member, index)] {
            Some(slot) => self.shown(slot, index),
            None => None,
        }
    }

    /// The entry, where it was shown at that index.
    fn shown<'a>(&self, slot: &'a Slot, index: u64) -> Option<EntryView<'a>>
        requires { IsKeptInRange self.now.k (Some slot.now) }
        ensures { result ≡ viewed_with self.now.k (entry_in index (Some slot.now)) }
    {
        if slot.index == index {
            Some(EntryView::of(self.k, &slot.entry))
        } else {
            None
        }
    }

    /// Keeps an entry that a member showed.
    fn put(
        &mut self,
        alloc: Global,
        member: u8,
        index: u64,
        view: &EntryView<'_>,
    ) -> Result<(), OutOfMemory>
        requires member { member < 15 }
        requires need { view.now.k ≡ self.old.k }
        requires in_range { IsInRange view.now }
        ensures need { self.new.k ≡ self.old.k }
        ensures puts { OnOk result (Puts self.old self.new member index view.now.entry) }
    {
        let entry = view.to_entry(alloc)?;
        self.places[place_of(member, index)] = Some(Slot { index, entry });
        Ok(())
    }

    /// Keeps the slots of a page that stand at the cursor or above.
    pub(crate) fn keep(
        &mut self,
        alloc: Global,
        cursor: u64,
        page: &MessageView<'_>,
    ) -> Result<(), OutOfMemory>
        requires kind { kind_of page.now.frame ≡ kinds.Peer peer_kinds.Answer }
        requires few { length (entries_of (body_of page.now.frame)) ≤ most_entries }
        requires start { start_of (body_of page.now.frame) ≤ cursor }
        requires cursor { cursor ≤ last_place }
        requires need { page.now.shape.need ≡ self.old.k }
        ensures need { self.new.k ≡ self.old.k }
        ensures keeps { OnOk result (KeepsPage self.old self.new cursor (page_of page.now.frame)) }
    {
        let from = page.from().number();
        let start = page.start();
        for n in 0..page.count() {
            if let Some(view) = page.entry(n) {
                self.keep_one(alloc, cursor, from, start + u64::from(n), &view)?;
            }
        }
        Ok(())
    }

    /// Keeps one slot, if it stands at the cursor or above.
    fn keep_one(
        &mut self,
        alloc: Global,
        cursor: u64,
        member: u8,
        index: u64,
        view: &EntryView<'_>,
    ) -> Result<(), OutOfMemory>
        requires member { member < 15 }
        requires need { view.now.k ≡ self.old.k }
        requires in_range { IsInRange view.now }
        requires near { index < cursor + 8 }
        ensures need { self.new.k ≡ self.old.k }
        ensures keeps { OnOk result (KeepsOne self.old self.new cursor member index view.now.entry) }
    {
        if index < cursor {
            return Ok(());
        }
        self.put(alloc, member, index, view)
    }
}

/// The place of a member for an index.
fn place_of(member: u8, index: u64) -> usize
    requires { member < 15 }
    ensures value { result ≡ place_of member index }
    ensures range { result < 120 }
{
    usize::from(member) * WINDOW as usize + (index % WINDOW) as usize
}
