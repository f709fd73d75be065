//! What messages of one member to another say, seen where it lies.
ghost use Rattle.std.specs.Prelude.{◌≡◌, ◌≤◌, ◌-◌, ◌^◌, ℕ, slice_get, IfOk};
ghost use Rattle.entry_frames.specs.Formats.{reading};
ghost use Rattle.entry_frames.specs.MessageFields.{vote_fields, vote_reply_fields, append_fields, append_entries_fields, append_reply_fields, matched_fields, refused_fields, ask_fields, answer_fields, answer_entries_fields, body_fields, least_with, greatest_with, most_behind, most_up_to};
ghost use Rattle.entry_frames.specs.Limits.{last_place, most_entries};
ghost use Rattle.entry_frames.specs.Logs.{viewed_with};
ghost use Rattle.entry_frames.specs.MessageParts.{entries_of};
ghost use Rattle.entry_frames.specs.Steps.{Reads};
ghost use Rattle.entry_frames.specs.Views.{IsK};

use crate::slots::Slots;
use craft_base::OutOfMemory;
use entry_frames::{EntryView, Fields, FrameFault, GREATEST, LAST_PLACE, Peer, PeerKind};
use std::alloc::Global;

/// What a peer message says. Its entries are lent.
#[derive(Drop)]
pub enum PeerView<'a> {
    Vote {
        last_term: u64,
        last: u64,
    },
    VoteReply {
        granted: bool,
    },
    Append {
        prev: u64,
        prev_term: u64,
        commit: u64,
        entries: Slots<'a>,
    },
    Matched {
        prev: u64,
        count: u8,
        mask: u8,
    },
    Refused {
        next: u64,
    },
    Ask {
        start: u64,
    },
    Answer {
        start: u64,
        last: u64,
        slots: Slots<'a>,
    },
}

/// The numbers of an append.
#[derive(Clone, Copy)]
struct AppendNumbers {
    prev: u64,
    prev_term: u64,
    commit: u64,
    count: u8,
}

impl<'a> PeerView<'a> {
    ghost use Rattle.entry_frames.specs.Kinds.{peer_kind};
    ghost use Rattle.peer_frames.specs.PeerViews.{peer_of_view, PeerHasK, HasNoEntries};

    /// Reads what a message of that kind and term says off the front of what is left of a frame.
    pub fn read(
        fields: &mut Fields<'a>,
        k: u8,
        term: u64,
        kind: PeerKind,
    ) -> Result<PeerView<'a>, FrameFault>
        requires needs { IsK k }
        ensures exact { Reads peer_of_view result fields.new (reading (body_fields k term kind) fields.old) }
        ensures need { IfOk result (PeerHasK k) }
    {
        match kind {
            PeerKind::Vote => PeerView::vote(fields),
            PeerKind::VoteReply => PeerView::vote_reply(fields),
            PeerKind::Append => PeerView::append(fields, k, term),
            PeerKind::AppendReply => PeerView::append_reply(fields),
            PeerKind::Ask => PeerView::ask(fields),
            PeerKind::Answer => PeerView::answer(fields, k, term),
        }
    }

    /// Its kind.
    pub fn kind(&self) -> PeerKind
        ensures { result ≡ peer_kind (peer_of_view self.now) }
    {
        match self {
            PeerView::Vote { .. } => PeerKind::Vote,
            PeerView::VoteReply { .. } => PeerKind::VoteReply,
            PeerView::Append { .. } => PeerKind::Append,
            PeerView::Matched { .. } | PeerView::Refused { .. } => PeerKind::AppendReply,
            PeerView::Ask { .. } => PeerKind::Ask,
            PeerView::Answer { .. } => PeerKind::Answer,
        }
    }

    /// The entry with that number, counted from 0 and lent, if it has one.
    pub fn entry(&self, n: u8) -> Option<EntryView<'a>>
        ensures { (k : ℕ) → PeerHasK k self.now → result ≡ viewed_with k (slice_get (entries_of (peer_of_view self.now)) n) }
    {
        match self {
            PeerView::Append { entries, .. } => entries.at(n),
            PeerView::Answer { slots, .. } => slots.at(n),
            _ => None,
        }
    }

    /// What it says, on its own. The only error is want of memory.
    pub fn to_peer(&self, alloc: Global) -> Result<Peer, OutOfMemory>
        ensures { IfOk result (λ peer. peer ≡ peer_of_view self.now) }
    {
        Ok(match self {
            PeerView::Vote { last_term, last } => Peer::Vote {
                last_term: *last_term,
                last: *last,
            },
            PeerView::VoteReply { granted } => Peer::VoteReply { granted: *granted },
            PeerView::Append {
                prev,
                prev_term,
                commit,
                entries,
            } => Peer::Append {
                prev: *prev,
                prev_term: *prev_term,
                commit: *commit,
                entries: entries.to_batch(alloc)?,
            },
            PeerView::Matched { prev, count, mask } => Peer::Matched {
                prev: *prev,
                count: *count,
                mask: *mask,
            },
            PeerView::Refused { next } => Peer::Refused { next: *next },
            PeerView::Ask { start } => Peer::Ask { start: *start },
            PeerView::Answer { start, last, slots } => Peer::Answer {
                start: *start,
                last: *last,
                slots: slots.to_batch(alloc)?,
            },
        })
    }

    fn vote(fields: &mut Fields<'a>) -> Result<PeerView<'a>, FrameFault>
        ensures exact { Reads peer_of_view result fields.new (reading vote_fields fields.old) }
        ensures entryless { IfOk result HasNoEntries }
    {
        let last_term = fields.u64(0, GREATEST)?;
        let last = fields.u64(least_with(last_term), greatest_with(last_term, LAST_PLACE))?;
        Ok(PeerView::Vote { last_term, last })
    }

    fn vote_reply(fields: &mut Fields<'a>) -> Result<PeerView<'a>, FrameFault>
        ensures exact { Reads peer_of_view result fields.new (reading vote_reply_fields fields.old) }
        ensures entryless { IfOk result HasNoEntries }
    {
        let granted = fields.byte(0, 1)?;
        Ok(PeerView::VoteReply {
            granted: granted == 1,
        })
    }

    fn append(fields: &mut Fields<'a>, k: u8, term: u64) -> Result<PeerView<'a>, FrameFault>
        requires needs { IsK k }
        ensures exact { Reads peer_of_view result fields.new (reading (append_fields k term) fields.old) }
        ensures need { IfOk result (PeerHasK k) }
    {
        let prev = fields.u64(0, LAST_PLACE)?;
        let prev_term = fields.u64(least_with(prev), greatest_with(prev, term))?;
        let commit = fields.u64(0, LAST_PLACE)?;
        let count = fields.byte(0, most_behind(prev))?;
        let numbers = AppendNumbers {
            prev,
            prev_term,
            commit,
            count,
        };
        PeerView::append_entries(fields, k, term, &numbers)
    }

    fn append_entries(
        fields: &mut Fields<'a>,
        k: u8,
        term: u64,
        numbers: &AppendNumbers,
    ) -> Result<PeerView<'a>, FrameFault>
        requires needs { IsK k }
        requires room { numbers.now.count ≤ most_entries }
        ensures exact { Reads peer_of_view result fields.new
            (reading (append_entries_fields k term numbers.now.prev numbers.now.prev_term numbers.now.commit numbers.now.count) fields.old) }
        ensures need { IfOk result (PeerHasK k) }
    {
        let entries = Slots::read(fields, k, true, term, numbers.count, numbers.prev_term)?;
        Ok(PeerView::Append {
            prev: numbers.prev,
            prev_term: numbers.prev_term,
            commit: numbers.commit,
            entries,
        })
    }

    fn append_reply(fields: &mut Fields<'a>) -> Result<PeerView<'a>, FrameFault>
        ensures exact { Reads peer_of_view result fields.new (reading append_reply_fields fields.old) }
        ensures entryless { IfOk result HasNoEntries }
    {
        let verdict = fields.byte(0, 1)?;
        if verdict == 1 {
            PeerView::matched(fields)
        } else {
            PeerView::refused(fields)
        }
    }

    fn matched(fields: &mut Fields<'a>) -> Result<PeerView<'a>, FrameFault>
        ensures exact { Reads peer_of_view result fields.new (reading matched_fields fields.old) }
        ensures entryless { IfOk result HasNoEntries }
    {
        let prev = fields.u64(0, LAST_PLACE)?;
        let count = fields.byte(0, most_behind(prev))?;
        let mask = fields.byte(0, full_mask(count))?;
        Ok(PeerView::Matched { prev, count, mask })
    }

    fn refused(fields: &mut Fields<'a>) -> Result<PeerView<'a>, FrameFault>
        ensures exact { Reads peer_of_view result fields.new (reading refused_fields fields.old) }
        ensures entryless { IfOk result HasNoEntries }
    {
        let next = fields.u64(1, LAST_PLACE + 1)?;
        Ok(PeerView::Refused { next })
    }

    fn ask(fields: &mut Fields<'a>) -> Result<PeerView<'a>, FrameFault>
        ensures exact { Reads peer_of_view result fields.new (reading ask_fields fields.old) }
        ensures entryless { IfOk result HasNoEntries }
    {
        let start = fields.u64(1, LAST_PLACE)?;
        Ok(PeerView::Ask { start })
    }

    fn answer(fields: &mut Fields<'a>, k: u8, term: u64) -> Result<PeerView<'a>, FrameFault>
        requires needs { IsK k }
        ensures exact { Reads peer_of_view result fields.new (reading (answer_fields k term) fields.old) }
        ensures need { IfOk result (PeerHasK k) }
    {
        let start = fields.u64(1, LAST_PLACE)?;
        let last = fields.u64(0, LAST_PLACE)?;
        let count = fields.byte(0, most_up_to(start, last))?;
        PeerView::answer_entries(fields, k, term, start, last, count)
    }

    fn answer_entries(
        fields: &mut Fields<'a>,
        k: u8,
        term: u64,
        start: u64,
        last: u64,
        count: u8,
    ) -> Result<PeerView<'a>, FrameFault>
        requires needs { IsK k }
        requires room { count ≤ most_entries }
        ensures exact { Reads peer_of_view result fields.new (reading (answer_entries_fields k term start last count) fields.old) }
        ensures need { IfOk result (PeerHasK k) }
    {
        let slots = Slots::read(fields, k, false, term, count, 0)?;
        Ok(PeerView::Answer { start, last, slots })
    }
}

/// 0 exactly where `n` is.
fn least_with(n: u64) -> u64
    ensures { result ≡ least_with n }
{
    if n == 0 { 0 } else { 1 }
}

/// The most where `n` isn't 0.
fn greatest_with(n: u64, most: u64) -> u64
    ensures { result ≡ greatest_with n most }
{
    if n == 0 { 0 } else { most }
}

/// How many entries there can be behind an index.
fn most_behind(prev: u64) -> u8
    ensures value { result ≡ most_behind prev }
    ensures range { result ≤ most_entries }
{
    LAST_PLACE.saturating_sub(prev).min(8) as u8
}

/// How many entries there can be from an index up to the last one.
fn most_up_to(start: u64, last: u64) -> u8
    requires { last ≤ last_place }
    ensures value { result ≡ most_up_to start last }
    ensures range { result ≤ most_entries }
{
    (last + 1).saturating_sub(start).min(8) as u8
}

/// The mask with a bit for each of so many entries.
fn full_mask(count: u8) -> u8
    requires { count ≤ most_entries }
    ensures { result ≡ 2 ^ count - 1 }
{
    ((1u16 << count) - 1) as u8
}
