//! In which form an entry goes.
ghost use Rattle.std.specs.Prelude.{◌≡◌, ◌≤◌, true, IfOk};
ghost use Rattle.entry_frames.specs.Entries.{entry_room, is_whole};
ghost use Rattle.entry_frames.specs.Views.{IsK};
ghost use Rattle.coded_append.specs.Batches.{has_value, sent_to};
ghost use Rattle.coded_append.specs.Ways.{IsWay, goes, sent_by};

use crate::parts::part_entry;
use craft_base::{Entry, MemberId, OutOfMemory, part_len};
use entry_frames::EntryView;
use std::alloc::Global;

/// In which form entries go to a member.
#[derive(Clone, Copy, Debug)]
pub(crate) enum Way {
    /// As they are, in whichever form the log holds them.
    Held,
    /// As they are, those that the log holds whole.
    Whole,
    /// Those that the log holds whole, and where the value has bytes with the member's fragment, `need` of which rebuild it.
    Part { need: u8, member: MemberId },
}

/// Whether the entry goes, were there room for it.
pub(crate) fn goes(view: &EntryView<'_>, way: &Way) -> bool
    ensures { result ≡ goes way.now view.now.entry }
{
    match way {
        Way::Held => true,
        Way::Whole | Way::Part { .. } => view.is_whole(),
    }
}

/// How many bytes the entry, which goes, has in the form in which it goes.
pub(crate) fn sent_size(view: &EntryView<'_>, way: &Way) -> usize
    requires goes { goes way.now view.now.entry ≡ true }
    requires way { IsWay way.now }
    ensures { result ≡ entry_room (sent_by way.now view.now.entry) }
{
    match way {
        Way::Held | Way::Whole => view.size(),
        Way::Part { need, member } => coded_size(view, *need, *member),
    }
}

/// Whether its value has bytes.
fn has_value(view: &EntryView<'_>) -> bool
    ensures { result ≡ has_value view.now.entry }
{
    view.vlen() > 0
}

/// How many bytes it has in Coded mode.
fn coded_size(view: &EntryView<'_>, need: u8, member: MemberId) -> usize
    requires whole { is_whole view.now.entry.form ≡ true }
    requires need { IsK need }
    ensures { result ≡ entry_room (sent_to need member view.now.entry) }
{
    if !has_value(view) {
        return view.size();
    }
    let value = view.bytes().len();
    view.size() - value + part_len(value, need)
}

/// The entry, which goes, in the form in which it goes. The only error is want of memory.
pub(crate) fn sent_entry(
    alloc: Global,
    view: &EntryView<'_>,
    way: &Way,
) -> Result<Entry, OutOfMemory>
    requires goes { goes way.now view.now.entry ≡ true }
    requires way { IsWay way.now }
    ensures { IfOk result (λ entry. entry ≡ sent_by way.now view.now.entry) }
{
    match way {
        Way::Held | Way::Whole => view.to_entry(alloc),
        Way::Part { need, member } => coded_entry(alloc, view, *need, *member),
    }
}

/// The entry as it goes in Coded mode.
fn coded_entry(
    alloc: Global,
    view: &EntryView<'_>,
    need: u8,
    member: MemberId,
) -> Result<Entry, OutOfMemory>
    requires whole { is_whole view.now.entry.form ≡ true }
    requires need { IsK need }
    ensures { IfOk result (λ entry. entry ≡ sent_to need member view.now.entry) }
{
    if !has_value(view) {
        return view.to_entry(alloc);
    }
    part_entry(alloc, view, need, member)
}
