//! What others showed at one index.
ghost use Rattle.std.specs.Prelude.{◌≡◌, ◌<◌};
ghost use Rattle.entry_frames.specs.Kinds.{kind_of};
ghost use Rattle.entry_frames.specs.Logs.{viewed_with};
ghost use Rattle.entry_frames.specs.declared.kind.Kind.TheVariants as kinds;
ghost use Rattle.entry_frames.specs.declared.kind.PeerKind.TheVariants as peer_kinds;
ghost use Rattle.leader_prep.specs.Pages.{page_of, slot_in};

use craft_base::{Entry, OutOfMemory};
use entry_frames::EntryView;
use peer_frames::MessageView;
use std::alloc::Global;
use std::marker::Model;

/// The most members that a cluster can have.
const MAX_MEMBERS: usize = 15;

/// Of each member the slot of its latest page that has one at the index, and how many fragments rebuild a value.
#[derive(Drop)]
pub struct Slots {
    k: u8,
    places: Vec<Option<Entry>>,
}

impl Model for Slots {
    ghost use Rattle.gather_read.specs.Keeping.{AreKept, KeptSlots};

    ghost Value = { KeptSlots };

    ghost view = { λ slots. record { k = slots.k; places = slots.places.items } };

    ghost invariant = { λ slots. AreKept (record { k = slots.k; places = slots.places.items }) };
}

impl Slots {
    ghost use Rattle.std.specs.Prelude.{ℕ, ◌==◌, if◌then◌else◌, None, Some, OnOk, IfOk};
    ghost use Rattle.std.specs.Option.{option_or};
    ghost use Rattle.entry_frames.specs.Views.{IsInRange};
    ghost use Rattle.gather_read.specs.Keeping.{kept_slot};
    ghost use Rattle.leader_prep.specs.Pages.{slot_of};

    /// Nothing was shown, of values that `k` fragments rebuild.
    pub(crate) fn new(alloc: Global, k: u8) -> Result<Slots, OutOfMemory>
        ensures need { IfOk result (λ slots. slots.k ≡ k) }
        ensures none { IfOk result (λ slots. (member : ℕ) → kept_slot slots member ≡ None) }
    {
        let mut places = Vec::new(alloc);
        for _ in 0..MAX_MEMBERS {
            places.push(None)?;
        }
        Ok(Slots { k, places })
    }

    /// The slot of that member, lent.
    pub(crate) fn at(&self, member: u8) -> Option<EntryView<'_>>
        requires { member < 15 }
        ensures { result ≡ viewed_with self.now.k (kept_slot self.now member) }
    {
        match &self.places[usize::from(member)] {
            Some(entry) => Some(EntryView::of(self.k, entry)),
            None => None,
        }
    }

    /// Keeps the slot that a page has at an index, if it has one there.
    pub(crate) fn keep(
        &mut self,
        alloc: Global,
        index: u64,
        page: &MessageView<'_>,
    ) -> Result<(), OutOfMemory>
        requires kind { kind_of page.now.frame ≡ kinds.Peer peer_kinds.Answer }
        requires need { page.now.shape.need ≡ self.old.k }
        ensures need { self.new.k ≡ self.old.k }
        ensures keeps { OnOk result ((member : ℕ) → kept_slot self.new member ≡ option_or (slot_of member (page_of page.now.frame) index) (kept_slot self.old member)) }
    {
        match slot_in(page, index) {
            Some(view) => self.put(alloc, page.from().number(), &view),
            None => Ok(()),
        }
    }

    /// Keeps the entry that a member showed.
    fn put(&mut self, alloc: Global, sender: u8, view: &EntryView<'_>) -> Result<(), OutOfMemory>
        requires sender { sender < 15 }
        requires need { view.now.k ≡ self.old.k }
        requires in_range { IsInRange view.now }
        ensures need { self.new.k ≡ self.old.k }
        ensures puts { OnOk result ((member : ℕ) → kept_slot self.new member ≡ (if sender == member then Some view.now.entry else kept_slot self.old member)) }
    {
        let entry = view.to_entry(alloc)?;
        let place = usize::from(sender);
        self.places[place] = Some(entry);
        Ok(())
    }
}

/// The slot of a page at an index, if it has one there, lent out of the datagram.
fn slot_in<'a>(page: &MessageView<'a>, index: u64) -> Option<EntryView<'a>>
    requires kind { kind_of page.now.frame ≡ kinds.Peer peer_kinds.Answer }
    ensures { result ≡ viewed_with page.now.shape.need (slot_in (page_of page.now.frame) index) }
{
    if index < page.start() {
        return None;
    }
    let place = index - page.start();
    if place >= u64::from(page.count()) {
        return None;
    }
    page.entry(place as u8)
}
