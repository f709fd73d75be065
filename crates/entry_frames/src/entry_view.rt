//! Entries of the log, seen where they lie.
ghost use Rattle.std.specs.Prelude.{◌≡◌, ◌≤◌, ◌++◌, List, ℕ, length, drop, IfOk};

use crate::entry_parts::EntryParts;
use crate::fault::FrameFault;
use crate::fields::Fields;
use crate::limits::GREATEST;
use crate::op_kind::OpKind;
use crate::tag::Tag;
use craft_base::{Blob, Entry, Form, Head, Op, OutOfMemory};
use std::alloc::Global;
use std::marker::Model;

/// An entry that is lent, out of a frame or out of an entry, and how many fragments rebuild a value. It meets the ranges of
/// docs/FORMATS.md, "An entry".
#[derive(Drop)]
pub struct EntryView<'a> {
    k: u8,
    parts: EntryParts<'a>,
}

impl<'a> Model for EntryView<'a> {
    ghost use Rattle.entry_frames.specs.Views.{Viewed, entry_of, IsInRange};

    ghost Value = { Viewed };

    ghost view = { λ v. record { k = v.k; entry = entry_of v.parts } };

    ghost invariant = { λ v. IsInRange (record { k = v.k; entry = entry_of v.parts }) };
}

impl<'a> EntryView<'a> {
    ghost use Rattle.craft_base.specs.declared.command.Entry.{Entry};
    ghost use Rattle.entry_frames.specs.Entries.{entry_fields, entry_fields_in, form_bytes, is_whole, tag_of, entry_room};
    ghost use Rattle.entry_frames.specs.Formats.{Fits, front_of, spelling, reading};
    ghost use Rattle.entry_frames.specs.Steps.{Reads, ReadsTo};
    ghost use Rattle.entry_frames.specs.Views.{IsK, IsInRange};

    /// Lends the parts of an entry. It takes no memory.
    pub fn of(k: u8, entry: &'a Entry) -> EntryView<'a>
        requires needs { IsK k }
        requires fits { Fits (entry_fields k) entry.now }
        ensures { result ≡ record { k = k; entry = entry.now } }
    {
        let (tag, bytes) = match &entry.form {
            Form::Whole(bytes) => (Tag::Whole, bytes.as_bytes()),
            Form::Part(bytes) => (Tag::Part, bytes.as_bytes()),
        };
        EntryView {
            k: k,
            parts: EntryParts {
                term: entry.term,
                client: entry.head.client,
                seq: entry.head.seq,
                op: entry.head.op,
                key: entry.head.key.as_bytes(),
                vlen: entry.head.vlen,
                tag,
                bytes,
            },
        }
    }

    /// Reads the entry with which the bytes begin, and how many bytes it takes. Else the first fault from left to right.
    pub fn read(k: u8, bytes: &'a [u8]) -> Result<(EntryView<'a>, usize), FrameFault>
        requires needs { IsK k }

        // It is what the bytes spell, or the first field that ends past them or is out of range.
        ensures exact { ReadsTo (λ x. x.0.entry) (λ x. record { at = x.1; rest = drop x.1 bytes.now }) result (reading (entry_fields k) (front_of bytes.now)) }
        ensures need { IfOk result (λ x. x.0.k ≡ k) }

        // What is read is spelled so.
        ensures found { IfOk result (λ x. Fits (entry_fields k) x.0.entry × (bytes.now ≡ spelling (entry_fields k) x.0.entry ++ drop x.1 bytes.now)) }
        ensures len { IfOk result (λ x. x.1 ≡ length (spelling (entry_fields k) x.0.entry)) }

        // What is spelled so is read, whatever follows it.
        ensures only { (e : Entry) (rest : List ℕ) → Fits (entry_fields k) e → bytes.now ≡ spelling (entry_fields k) e ++ rest
            → ReadsTo (λ x. x.0.entry) (λ x. record { at = x.1; rest = drop x.1 bytes.now }) result (Ok (record { value = e; cursor = record { at = length (spelling (entry_fields k) e); rest = rest } })) }
    {
        EntryView::at_front(k, bytes)
    }

    /// The entry with which the bytes begin, and how many bytes it takes.
    fn at_front(k: u8, bytes: &'a [u8]) -> Result<(EntryView<'a>, usize), FrameFault>
        requires needs { IsK k }
        ensures exact { ReadsTo (λ x. x.0.entry) (λ x. record { at = x.1; rest = drop x.1 bytes.now }) result (reading (entry_fields k) (front_of bytes.now)) }
        ensures need { IfOk result (λ x. x.0.k ≡ k) }
    {
        let mut fields = Fields::of(bytes);
        let entry = EntryView::take(&mut fields, k, 0, GREATEST)?;
        Ok((entry, fields.at()))
    }

    /// Reads an entry with a term from `low` to `high` off the front of what is left of a frame. A term outside is out of
    /// range where the entry begins.
    pub fn take(
        fields: &mut Fields<'a>,
        k: u8,
        low: u64,
        high: u64,
    ) -> Result<EntryView<'a>, FrameFault>
        requires needs { IsK k }
        ensures exact { Reads (λ view. view.entry) result fields.new (reading (entry_fields_in k low high) fields.old) }
        ensures need { IfOk result (λ view. view.k ≡ k) }
    {
        let _rest = fields.rest();
        let tag = Tag::read(fields)?;
        let kind = OpKind::read_under(fields, tag)?;
        let parts = EntryParts::read(fields, k, low, high, tag, kind)?;
        Ok(EntryView { k: k, parts })
    }

    /// The same view once more.
    pub fn again(&self) -> EntryView<'a>
        ensures { result ≡ self.now }
    {
        EntryView {
            k: self.k,
            parts: self.parts,
        }
    }

    /// How many fragments rebuild a value: 1 to 8. With it the entry meets the ranges.
    pub fn k(&self) -> u8
        ensures value { result ≡ self.now.k }
        ensures range { IsK result }
        ensures fits { Fits (entry_fields self.now.k) self.now.entry }
    {
        self.k
    }

    /// The term of the leader that proposed it: 1 to 2^62.
    pub fn term(&self) -> u64
        ensures { result ≡ self.now.entry.term }
    {
        self.parts.term
    }

    /// Who asked: 1 to 2^62, or 0 for a Noop.
    pub fn client(&self) -> u64
        ensures { result ≡ self.now.entry.head.client }
    {
        self.parts.client
    }

    /// The client's number for the request: 1 to 2^62, or 0 for a Noop.
    pub fn seq(&self) -> u64
        ensures { result ≡ self.now.entry.head.seq }
    {
        self.parts.seq
    }

    /// What it does to the map.
    pub fn op(&self) -> Op
        ensures { result ≡ self.now.entry.head.op }
    {
        self.parts.op
    }

    /// The key: 1 to 255 bytes, or none for a Noop.
    pub fn key(&self) -> &'a [u8]
        ensures value { result.now ≡ self.now.entry.head.key }
        ensures range { length result.now ≤ 255 }
    {
        self.parts.key
    }

    /// The length of the value: 0 to 32,768.
    pub fn vlen(&self) -> u32
        ensures { result ≡ self.now.entry.head.vlen }
    {
        self.parts.vlen
    }

    /// Whether all bytes of the value are held, and not a fragment.
    pub fn is_whole(&self) -> bool
        ensures { result ≡ is_whole self.now.entry.form }
    {
        !self.parts.tag.is_part()
    }

    /// In which form it goes.
    pub fn tag(&self) -> Tag
        ensures { result ≡ tag_of self.now.entry.form }
    {
        self.parts.tag
    }

    /// What is held of the value: all of its bytes, or a fragment.
    pub fn bytes(&self) -> &'a [u8]
        ensures { result.now ≡ form_bytes self.now.entry.form }
    {
        self.parts.bytes
    }

    /// How many bytes its spelling has.
    pub fn size(&self) -> usize
        ensures value { result ≡ length (spelling (entry_fields self.now.k) self.now.entry) }
        ensures room { result ≡ entry_room self.now.entry }
    {
        let kind = OpKind::of(self.parts.op);
        let expected = if kind.expects() { 8 } else { 0 };
        let vlen = if kind.sets() { 4 } else { 0 };
        27 + expected + self.parts.key.len() + vlen + self.parts.bytes.len()
    }

    /// An entry of its own. The only error is want of memory.
    pub fn to_entry(&self, alloc: Global) -> Result<Entry, OutOfMemory>
        ensures { IfOk result (λ entry. entry ≡ self.now.entry) }
    {
        let key = Blob::copy_of(alloc, self.parts.key)?;
        let bytes = Blob::copy_of(alloc, self.parts.bytes)?;
        let form = match self.parts.tag {
            Tag::Whole => Form::Whole(bytes),
            Tag::Part => Form::Part(bytes),
        };
        Ok(Entry {
            term: self.parts.term,
            head: Head {
                client: self.parts.client,
                seq: self.parts.seq,
                op: self.parts.op,
                key,
                vlen: self.parts.vlen,
            },
            form,
        })
    }
}
