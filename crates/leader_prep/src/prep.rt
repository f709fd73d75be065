//! A new leader's preparation.
ghost use Rattle.std.specs.Prelude.{◌≡◌, ◌≤◌, ◌↔◌, ℕ, [], List, length, Option, Some, OnOk, IfOk};
ghost use Rattle.craft_base.specs.Shape.{Shape};
ghost use Rattle.entry_frames.specs.Kinds.{kind_of};
ghost use Rattle.entry_frames.specs.Limits.{last_place, most_entries};
ghost use Rattle.entry_frames.specs.MessageParts.{body_of, entries_of};
ghost use Rattle.entry_frames.specs.declared.kind.Kind.TheVariants as kinds;
ghost use Rattle.entry_frames.specs.declared.kind.PeerKind.TheVariants as peer_kinds;
ghost use Rattle.leader_prep.specs.Pages.{Page, joined, page_of};

use crate::ends::{end_in, is_past, least_of};
use crate::parts::first_part;
use crate::slots::Slots;
use crate::verdicts::Verdicts;
use craft_base::{MemberId, OutOfMemory, Shape};
use entry_frames::LogView;
use peer_frames::MessageView;
use std::alloc::Global;

/// The most members that a cluster can have.
const MAX_MEMBERS: usize = 15;

/// The preparation of a member that has won its term and holds parts alone above its commit index. Of the pages that the others
/// answered it keeps, for each of them, the slots at eight indexes from the cursor on, and the least index at which its log
/// was shown to end. It stands for all these pages: whatever it is asked, it answers as they tell.
#[derive(Drop)]
pub struct Prep {
    pub(crate) alloc: Global,
    pub(crate) shape: Shape,
    pub(crate) me: MemberId,
    pub(crate) cursor: Option<u64>,
    pub(crate) slots: Slots,
    ends: [Option<u64>; MAX_MEMBERS],
    ghost same_need: { slots.k ≡ shape.need },
}

impl Prep {
    ghost use Rattle.std.specs.Prelude.{map};
    ghost use Rattle.leader_prep.specs.Decisions.{cursor_of, decision};
    ghost use Rattle.leader_prep.specs.Solutions.{had};
    ghost use Rattle.leader_prep.specs.Standing.{AreVerdicts, IsNothing, IsWaiting, Stands, covers_cursor};

    /// The preparation of `me` with that log, before any answer. The only error is want of memory.
    pub fn begin<L: LogView>(
        alloc: Global,
        log: &L,
        shape: &Shape,
        me: MemberId,
    ) -> Result<Prep, OutOfMemory>
        ensures { IfOk result (λ prep. Stands prep shape.now me [] (cursor_of (L.log log.now).commit (L.log log.now).entries)) }
    {
        let slots = Slots::new(alloc, shape.need())?;
        Ok(Prep {
            alloc,
            shape: *shape,
            me,
            cursor: first_part(log),
            slots,
            ends: [None; MAX_MEMBERS],
        })
    }

    /// The index that is to be decided next: the least above the commit index that the log holds as a part, if there is one.
    pub fn cursor(&self) -> Option<u64>
        ensures { (shape : Shape) (me : ℕ) (pages : List Page) (cursor : Option ℕ) → Stands self.now shape me pages cursor → result ≡ cursor }
    {
        self.cursor
    }

    /// Whether that member has shown what it holds at the cursor; the node itself has, and so has each where there is no cursor.
    pub fn covers(&self, member: MemberId) -> bool
        ensures { (shape : Shape) (me : ℕ) (pages : List Page) (cursor : Option ℕ) → Stands self.now shape me pages cursor →
            result ≡ covers_cursor me pages cursor member }
    {
        match self.cursor {
            Some(index) => self.covers_at(index, member.number()),
            None => true,
        }
    }

    /// Takes an Answer, with the log of `begin` after the verdicts so far. It joins the pages where it begins at or before the
    /// cursor. Then it is decided, index by index from the cursor on, as long as more than half of the members cover the index:
    /// its value is rebuilt, or the log is cut there, which ends it. The only error is want of memory.
    pub fn take<L: LogView>(
        mut self,
        log: &L,
        answer: &MessageView<'_>,
    ) -> Result<(Prep, Verdicts), OutOfMemory>
        requires kind { kind_of answer.now.frame ≡ kinds.Peer peer_kinds.Answer }
        requires few { length (entries_of (body_of answer.now.frame)) ≤ most_entries }
        requires same_shape { answer.now.shape ≡ self.shape }
        requires need { (L.log log.now).k ≡ self.shape.need }
        requires cursor { self.cursor ≡ cursor_of (L.log log.now).commit (L.log log.now).entries }
        ensures stands { IfOk result (λ r. (shape : Shape) (me : ℕ) (pages : List Page) (cursor : Option ℕ) → Stands self shape me pages cursor →
            let all = joined cursor (page_of answer.now.frame) pages in
            Stands r.0 shape me all (decision shape me all (L.log log.now).commit (L.log log.now).entries).cursor) }
        ensures decides { IfOk result (λ r. (shape : Shape) (me : ℕ) (pages : List Page) (cursor : Option ℕ) → Stands self shape me pages cursor →
            let all = joined cursor (page_of answer.now.frame) pages in
            AreVerdicts (decision shape me all (L.log log.now).commit (L.log log.now).entries) r.1) }
        ensures values { IfOk result (λ r. (shape : Shape) (me : ℕ) (pages : List Page) (cursor : Option ℕ) → Stands self shape me pages cursor →
            let all = joined cursor (page_of answer.now.frame) pages in
            r.1.wholes.items ≡ map had (decision shape me all (L.log log.now).commit (L.log log.now).entries).rebuilt) }

        // Nothing is decided exactly where there is a cursor and too few members cover it.
        ensures waits { IfOk result (λ r. (shape : Shape) (me : ℕ) (pages : List Page) (cursor : Option ℕ) → Stands self shape me pages cursor →
            let all = joined cursor (page_of answer.now.frame) pages in
            IsNothing r.1 ↔ IsWaiting shape me all cursor) }
    {
        self.join(answer)?;
        let (verdicts, left) = self.decide(log)?;
        self.cursor = left;
        Ok((self, verdicts))
    }
}

impl Prep {
    ghost use Rattle.std.specs.Prelude.{◌<◌};
    ghost use Rattle.leader_prep.specs.Standing.{Joins, kept_covers, kept_shown};

    /// The page joins, where it begins at or before the cursor.
    fn join(&mut self, page: &MessageView<'_>) -> Result<(), OutOfMemory>
        requires kind { kind_of page.now.frame ≡ kinds.Peer peer_kinds.Answer }
        requires few { length (entries_of (body_of page.now.frame)) ≤ most_entries }
        requires same_shape { page.now.shape ≡ self.old.shape }
        requires cursor { (c : ℕ) → self.old.cursor ≡ Some c → c ≤ last_place }
        ensures same_shape { self.new.shape ≡ self.old.shape }
        ensures joins { OnOk result (Joins self.old self.new (page_of page.now.frame)) }
    {
        match self.cursor {
            Some(cursor) => self.join_from(cursor, page),
            None => Ok(()),
        }
    }

    fn join_from(&mut self, cursor: u64, page: &MessageView<'_>) -> Result<(), OutOfMemory>
        requires kind { kind_of page.now.frame ≡ kinds.Peer peer_kinds.Answer }
        requires few { length (entries_of (body_of page.now.frame)) ≤ most_entries }
        requires same_shape { page.now.shape ≡ self.old.shape }
        requires least { cursor ≤ last_place }
        requires cursor { self.old.cursor ≡ Some cursor }
        ensures same_shape { self.new.shape ≡ self.old.shape }
        ensures joins { OnOk result (Joins self.old self.new (page_of page.now.frame)) }
    {
        if page.start() > cursor {
            return Ok(());
        }
        self.slots.keep(self.alloc, cursor, page)?;
        let place = usize::from(page.from().number());
        self.ends[place] = least_of(end_in(page), self.ends[place]);
        Ok(())
    }

    /// Whether that member has shown what it holds at an index; the node itself has.
    pub(crate) fn covers_at(&self, index: u64, member: u8) -> bool
        requires { member < 15 }
        ensures { result ≡ kept_covers self.now index member }
    {
        member == self.me.number() || self.has_shown(index, member)
    }

    /// Whether the pages of that member cover an index.
    fn has_shown(&self, index: u64, member: u8) -> bool
        requires { member < 15 }
        ensures { result ≡ kept_shown self.now index member }
    {
        let end = self.ends[usize::from(member)];
        self.slots.at(member, index).is_some() || is_past(end, index)
    }
}
