//! The parts of an entry, as they lie in a frame.
ghost use Rattle.std.specs.Prelude.{◌≡◌, ◌≤◌};
ghost use Rattle.entry_frames.specs.Formats.{reading};
ghost use Rattle.entry_frames.specs.Entries.{entry_fields_of, least_asked, greatest_asked, least_value, held_length};
ghost use Rattle.entry_frames.specs.Limits.{greatest};
ghost use Rattle.entry_frames.specs.Steps.{Reads};
ghost use Rattle.entry_frames.specs.Views.{entry_of, IsK};

use crate::fault::FrameFault;
use crate::fields::Fields;
use crate::limits::{GREATEST, LONGEST_VALUE};
use crate::op_kind::OpKind;
use crate::tag::Tag;
use craft_base::{Op, part_len};

/// The parts of an entry; its key and what is held of its value are lent out of the frame or the entry.
#[derive(Clone, Copy, Debug)]
pub struct EntryParts<'a> {
    pub term: u64,
    pub client: u64,
    pub seq: u64,
    pub op: Op,
    pub key: &'a [u8],
    pub vlen: u32,
    pub tag: Tag,
    pub bytes: &'a [u8],
}

impl<'a> EntryParts<'a> {
    /// Reads the parts behind the tag and the operation, with a term from `low` to `high`.
    pub fn read(
        fields: &mut Fields<'a>,
        k: u8,
        low: u64,
        high: u64,
        tag: Tag,
        kind: OpKind,
    ) -> Result<EntryParts<'a>, FrameFault>
        requires needs { IsK k }
        requires behind { 2 ≤ fields.old.at }
        ensures { Reads entry_of result fields.new (reading (entry_fields_of k low high tag kind) fields.old) }
    {
        let least = least_asked(kind);
        let term = fields.u64(1, GREATEST)?;
        fields.test(low <= term && term <= high, 10)?;
        let client = fields.u64(least, greatest_asked(kind))?;
        let seq = fields.u64(least, greatest_asked(kind))?;
        let expected = fields.u64_if(kind.expects(), 0, GREATEST)?;
        let key_len = fields.byte(least as u8, longest_key(kind))?;
        let key = fields.bytes(usize::from(key_len))?;
        let vlen = fields.u32_if(kind.sets(), least_value(tag), LONGEST_VALUE)?;
        let bytes = fields.bytes(held_len(k, tag, vlen))?;
        Ok(EntryParts {
            term,
            client,
            seq,
            op: kind.with_expected(expected),
            key,
            vlen,
            tag,
            bytes,
        })
    }
}

/// The least number of a client, of a request and of the bytes of a key.
fn least_asked(kind: OpKind) -> u64
    ensures value { result ≡ least_asked kind }
    ensures range { result ≤ 1 }
{
    if kind.is_asked() { 1 } else { 0 }
}

/// The greatest number of a client and of a request.
fn greatest_asked(kind: OpKind) -> u64
    ensures { result ≡ greatest_asked kind greatest }
{
    if kind.is_asked() { GREATEST } else { 0 }
}

/// The most bytes of a key.
fn longest_key(kind: OpKind) -> u8
    ensures { result ≡ greatest_asked kind 255 }
{
    if kind.is_asked() { 255 } else { 0 }
}

/// The fewest bytes of a value.
fn least_value(tag: Tag) -> u32
    ensures { result ≡ least_value tag }
{
    match tag {
        Tag::Whole => 0,
        Tag::Part => 1,
    }
}

/// How many bytes of a value of that length are held.
pub fn held_len(k: u8, tag: Tag, vlen: u32) -> usize
    requires { IsK k }
    ensures { result ≡ held_length k tag vlen }
{
    match tag {
        Tag::Whole => vlen as usize,
        Tag::Part => part_len(vlen as usize, k),
    }
}
