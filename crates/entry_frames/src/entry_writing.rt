//! Writing an entry.
ghost use Rattle.std.specs.Prelude.{◌≡◌, ◌≤◌, ◌+◌, ◌++◌, OnOk, OnErr, vec_len, vec_capacity};
ghost use Rattle.entry_frames.specs.Entries.{entry_fields, entry_room};
ghost use Rattle.entry_frames.specs.Formats.{spelling};
ghost use Rattle.entry_frames.specs.Operations.{expected_version};

use crate::entry_view::EntryView;
use crate::op_kind::OpKind;
use crate::put::{put_byte, put_bytes, put_u32_if, put_u64, put_u64_if};
use craft_base::{Op, OutOfMemory};
use std::alloc::Global;

/// Adds the one spelling of an entry at the end. The only error is want of memory, which leaves the bytes as they were.
pub fn write_entry(
    alloc: Global,
    out: &mut Vec<u8>,
    entry: &EntryView<'_>,
) -> Result<(), OutOfMemory>
    ensures written { OnOk result (out.new.items ≡ out.old.items ++ spelling (entry_fields entry.now.k) entry.now.entry) }
    ensures kept { OnErr result (out.new.items ≡ out.old.items) }
{
    let _ = alloc;
    out.reserve(entry.size())?;
    put_entry(out, entry);
    Ok(())
}

/// Adds the spelling of an entry where there is room.
fn put_entry(out: &mut Vec<u8>, entry: &EntryView<'_>)
    requires { vec_len out.old + entry_room entry.now.entry ≤ vec_capacity out.old }
    ensures { out.new.items ≡ out.old.items ++ spelling (entry_fields entry.now.k) entry.now.entry }
{
    let kind = OpKind::of(entry.op());
    put_byte(out, entry.tag().byte());
    put_byte(out, kind.byte());
    put_u64(out, entry.term());
    put_u64(out, entry.client());
    put_u64(out, entry.seq());
    put_u64_if(out, kind.expects(), expected_version(entry.op()));
    put_byte(out, entry.key().len() as u8);
    put_bytes(out, entry.key());
    put_u32_if(out, kind.sets(), entry.vlen());
    put_bytes(out, entry.bytes());
}

/// The version that an operation expects, 0 where it names none.
pub fn expected_version(op: Op) -> u64
    ensures { result ≡ expected_version op }
{
    match op {
        Op::PutIf(version) => version,
        _ => 0,
    }
}
