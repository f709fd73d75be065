//! Entries with a fragment of their value.
ghost use Rattle.std.specs.Prelude.{◌≡◌, IfOk};
ghost use Rattle.craft_base.specs.declared.command.Form.TheVariants as forms;
ghost use Rattle.entry_frames.specs.Entries.{form_bytes};
ghost use Rattle.entry_frames.specs.Views.{IsK};
ghost use Rattle.rs_code.specs.Fragments.{fragment};

use craft_base::{Blob, Entry, Form, Head, MemberId, OutOfMemory, part_len};
use entry_frames::EntryView;
use rs_code::part_into;
use std::alloc::Global;

/// The entry with the member's fragment in place of the value that it holds.
pub(crate) fn part_entry(
    alloc: Global,
    view: &EntryView<'_>,
    need: u8,
    member: MemberId,
) -> Result<Entry, OutOfMemory>
    requires { IsK need }
    ensures { IfOk result (λ entry. entry ≡ record view.now.entry { form = forms.Part (fragment (form_bytes view.now.entry.form) need member) }) }
{
    let part = part_of(alloc, view.bytes(), need, member)?;
    Ok(Entry {
        term: view.term(),
        head: Head {
            client: view.client(),
            seq: view.seq(),
            op: view.op(),
            key: Blob::copy_of(alloc, view.key())?,
            vlen: view.vlen(),
        },
        form: Form::Part(part),
    })
}

/// The member's fragment of a value.
fn part_of(alloc: Global, value: &[u8], need: u8, member: MemberId) -> Result<Blob, OutOfMemory>
    requires { IsK need }
    ensures { IfOk result (λ part. part ≡ fragment value.now need member) }
{
    let mut part = vec![in alloc; 0; part_len(value.len(), need)]?;
    part_into(value, need, member.number(), &mut part);
    Ok(Blob::of(part))
}
