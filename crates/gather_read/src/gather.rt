//! A leader's want of one value.
ghost use Rattle.std.specs.Prelude.{◌≡◌, ℕ, List, [], IfOk};
ghost use Rattle.craft_base.specs.Shape.{Shape};
ghost use Rattle.craft_base.specs.declared.command.Entry.{Entry};
ghost use Rattle.leader_prep.specs.Pages.{Page};

use crate::own_entry::OwnEntry;
use crate::slots::Slots;
use craft_base::{Blob, MemberId, OutOfMemory, Shape};
use entry_frames::EntryView;
use peer_frames::MessageView;
use std::alloc::Global;

/// What a leader that holds an entry as a part, and wants its value, knows of it: its own entry, and of each other member the
/// slot at that index of its latest page that has one. It stands for all pages that were taken since it was wanted.
#[derive(Drop)]
pub struct Gather {
    pub(crate) alloc: Global,
    pub(crate) shape: Shape,
    pub(crate) me: MemberId,
    index: u64,
    own: OwnEntry,
    pub(crate) slots: Slots,
    ghost same_need: { slots.k ≡ shape.need },
    ghost own_need: { own.k ≡ shape.need },
}

impl Gather {
    ghost use Rattle.std.specs.Prelude.{◌↔◌, Some, None, Option, false, OnOk};
    ghost use Rattle.entry_frames.specs.Entries.{is_whole};
    ghost use Rattle.entry_frames.specs.Kinds.{kind_of};
    ghost use Rattle.entry_frames.specs.declared.kind.Kind.TheVariants as kinds;
    ghost use Rattle.entry_frames.specs.declared.kind.PeerKind.TheVariants as peer_kinds;
    ghost use Rattle.gather_read.specs.Gathered.{AreTooFew, IsGiven, form_shown, gathered, gathered_value};
    ghost use Rattle.gather_read.specs.Standing.{Joins, Stands};
    ghost use Rattle.leader_prep.specs.Pages.{joined, page_of};

    /// The want of `me`, which holds `own` at that index as a part, before any answer. The only error is want of memory.
    pub fn want(
        alloc: Global,
        shape: &Shape,
        me: MemberId,
        index: u64,
        own: &EntryView<'_>,
    ) -> Result<Gather, OutOfMemory>
        requires part { is_whole own.now.entry.form ≡ false }
        requires need { own.now.k ≡ shape.now.need }
        ensures { IfOk result (λ gather. Stands gather shape.now me index own.now.entry []) }
    {
        let own = OwnEntry::of(alloc, own)?;
        let slots = Slots::new(alloc, shape.need())?;
        Ok(Gather {
            alloc,
            shape: *shape,
            me,
            index,
            own,
            slots,
        })
    }

    /// The index whose value is wanted.
    pub fn index(&self) -> u64
        ensures { (shape : Shape) (me index : ℕ) (own : Entry) (pages : List Page) → Stands self.now shape me index own pages → result ≡ index }
    {
        self.index
    }

    /// Takes an Answer. It joins the pages where it begins at or before the index. The value is given where by these pages one
    /// member holds it whole or as many as are needed hold parts: that of the lowest that holds it whole, else that which the
    /// parts of the lowest give. Entries of another term or head count as none. The only error is want of memory.
    pub fn take(mut self, answer: &MessageView<'_>) -> Result<(Gather, Option<Blob>), OutOfMemory>
        requires kind { kind_of answer.now.frame ≡ kinds.Peer peer_kinds.Answer }
        requires same_shape { answer.now.shape ≡ self.shape }
        ensures stands { IfOk result (λ r. (shape : Shape) (me index : ℕ) (own : Entry) (pages : List Page) → Stands self shape me index own pages →
            Stands r.0 shape me index own (joined (Some index) (page_of answer.now.frame) pages)) }
        ensures gives { IfOk result (λ r. (shape : Shape) (me index : ℕ) (own : Entry) (pages : List Page) → Stands self shape me index own pages →
            IsGiven (gathered shape me index own (joined (Some index) (page_of answer.now.frame) pages)) r.1) }
        ensures value { IfOk result (λ r. (shape : Shape) (me index : ℕ) (own : Entry) (pages : List Page) → Stands self shape me index own pages →
            r.1 ≡ gathered_value shape me index own (joined (Some index) (page_of answer.now.frame) pages)) }

        // None is given exactly where nobody is known to hold the value whole, and too few to hold parts of it.
        ensures none { IfOk result (λ r. (shape : Shape) (me index : ℕ) (own : Entry) (pages : List Page) → Stands self shape me index own pages →
            (r.1 ≡ None) ↔ AreTooFew shape (form_shown me index own (joined (Some index) (page_of answer.now.frame) pages))) }
    {
        self.join(answer)?;
        let value = self.value()?;
        Ok((self, value))
    }

    /// Keeps the slot that the page has at the index, if it has one there.
    fn join(&mut self, page: &MessageView<'_>) -> Result<(), OutOfMemory>
        requires kind { kind_of page.now.frame ≡ kinds.Peer peer_kinds.Answer }
        requires same_shape { page.now.shape ≡ self.old.shape }
        ensures joins { OnOk result (Joins self.old self.new (page_of page.now.frame)) }
    {
        self.slots.keep(self.alloc, self.index, page)
    }

    /// The leader's own entry, lent.
    pub(crate) fn own(&self) -> EntryView<'_>
        ensures value { result ≡ self.now.own }
        ensures need { result.k ≡ self.now.shape.need }
    {
        self.own.view()
    }
}
