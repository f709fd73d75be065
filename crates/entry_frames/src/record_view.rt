//! Records of a journal, seen where they lie.
ghost use Rattle.std.specs.Prelude.{◌≡◌, ◌++◌, List, ℕ, length, drop, IfOk};
ghost use Rattle.entry_frames.specs.Formats.{reading};
ghost use Rattle.entry_frames.specs.Records.{Term, Whole, term_fields, value_fields};
ghost use Rattle.entry_frames.specs.Steps.{Reads};

use crate::entry_view::EntryView;
use crate::fault::FrameFault;
use crate::fields::Fields;
use crate::limits::{GREATEST, LAST_PLACE, LONGEST_VALUE};
use crate::nobody::member_with;
use crate::record_kind::RecordKind;

/// A change of what a member keeps. Its entry and its bytes are lent.
#[derive(Drop)]
pub enum RecordView<'a> {
    /// A term, and the vote in it, if one was cast.
    Term(u64, Option<u8>),
    /// An entry at the end of the log.
    Add(EntryView<'a>),
    /// The entries from that index on go.
    Cut(u64),
    /// The entry at that index has this whole value, of 1 to 32,768 bytes.
    Whole(u64, &'a [u8]),
    /// The log is committed up to that index.
    Commit(u64),
}

impl<'a> RecordView<'a> {
    ghost use Rattle.entry_frames.specs.Formats.{Fits, front_of, spelling};
    ghost use Rattle.entry_frames.specs.Records.{Record, record_fields, record_fields_of};
    ghost use Rattle.entry_frames.specs.RecordViews.{record_of, HasK};
    ghost use Rattle.entry_frames.specs.Steps.{ReadsTo};
    ghost use Rattle.entry_frames.specs.Views.{IsK};

    /// Reads the record with which the bytes begin, and how many bytes it takes. Else the first fault from left to right.
    pub fn read(k: u8, bytes: &'a [u8]) -> Result<(RecordView<'a>, usize), FrameFault>
        requires needs { IsK k }

        // It is what the bytes spell, or the first field that ends past them or is out of range.
        ensures exact { ReadsTo (λ x. record_of x.0) (λ x. record { at = x.1; rest = drop x.1 bytes.now }) result (reading (record_fields k) (front_of bytes.now)) }
        ensures need { IfOk result (λ x. HasK k x.0) }

        // What is read is spelled so.
        ensures found { IfOk result (λ x. Fits (record_fields k) (record_of x.0) × (bytes.now ≡ spelling (record_fields k) (record_of x.0) ++ drop x.1 bytes.now)) }
        ensures len { IfOk result (λ x. x.1 ≡ length (spelling (record_fields k) (record_of x.0))) }

        // What is spelled so is read, whatever follows it.
        ensures only { (r : Record) (rest : List ℕ) → Fits (record_fields k) r → bytes.now ≡ spelling (record_fields k) r ++ rest
            → ReadsTo (λ x. record_of x.0) (λ x. record { at = x.1; rest = drop x.1 bytes.now }) result (Ok (record { value = r; cursor = record { at = length (spelling (record_fields k) r); rest = rest } })) }
    {
        RecordView::at_front(k, bytes)
    }

    /// The record with which the bytes begin, and how many bytes it takes.
    fn at_front(k: u8, bytes: &'a [u8]) -> Result<(RecordView<'a>, usize), FrameFault>
        requires needs { IsK k }
        ensures exact { ReadsTo (λ x. record_of x.0) (λ x. record { at = x.1; rest = drop x.1 bytes.now }) result (reading (record_fields k) (front_of bytes.now)) }
        ensures need { IfOk result (λ x. HasK k x.0) }
    {
        let mut fields = Fields::of(bytes);
        let view = RecordView::take(&mut fields, k)?;
        Ok((view, fields.at()))
    }

    /// Reads a record off the front of what is left of a body.
    fn take(fields: &mut Fields<'a>, k: u8) -> Result<RecordView<'a>, FrameFault>
        requires needs { IsK k }
        ensures exact { Reads record_of result fields.new (reading (record_fields k) fields.old) }
        ensures need { IfOk result (HasK k) }
    {
        let kind = RecordKind::read(fields)?;
        RecordView::take_as(fields, k, kind)
    }

    /// Reads a record of that kind off the front of what is left behind its kind.
    fn take_as(
        fields: &mut Fields<'a>,
        k: u8,
        kind: RecordKind,
    ) -> Result<RecordView<'a>, FrameFault>
        requires needs { IsK k }
        ensures exact { Reads record_of result fields.new (reading (record_fields_of k kind) fields.old) }
        ensures need { IfOk result (HasK k) }
    {
        match kind {
            RecordKind::Term => {
                let (term, vote) = take_term(fields)?;
                Ok(RecordView::Term(term, vote))
            }
            RecordKind::Add => Ok(RecordView::Add(EntryView::take(fields, k, 0, GREATEST)?)),
            RecordKind::Cut => Ok(RecordView::Cut(fields.u64(1, LAST_PLACE)?)),
            RecordKind::Whole => {
                let (index, bytes) = take_value(fields)?;
                Ok(RecordView::Whole(index, bytes))
            }
            RecordKind::Commit => Ok(RecordView::Commit(fields.u64(1, LAST_PLACE)?)),
        }
    }
}

/// A term and a vote.
fn take_term(fields: &mut Fields<'_>) -> Result<(u64, Option<u8>), FrameFault>
    ensures { Reads (λ x. Term x.0 x.1) result fields.new (reading term_fields fields.old) }
{
    let term = fields.u64(0, u64::MAX)?;
    let vote = fields.byte(0, u8::MAX)?;
    Ok((term, member_with(vote)))
}

/// An index and a value.
fn take_value<'a>(fields: &mut Fields<'a>) -> Result<(u64, &'a [u8]), FrameFault>
    ensures { Reads (λ x. Whole x.0 x.1.now) result fields.new (reading value_fields fields.old) }
{
    let index = fields.u64(1, LAST_PLACE)?;
    let len = fields.u32(1, LONGEST_VALUE)?;
    let bytes = fields.bytes(len as usize)?;
    Ok((index, bytes))
}
