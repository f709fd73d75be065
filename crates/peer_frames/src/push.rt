//! Adding fields at the end of a frame.
ghost use Rattle.std.specs.Prelude.{◌≡◌, ◌≤◌, ◌++◌, length, map, true, OnOk};
ghost use Rattle.std.specs.List.{flat_map, AllByRecursion};
ghost use Rattle.entry_frames.specs.Entries.{entry_fields};
ghost use Rattle.entry_frames.specs.Formats.{Fits, U8, U32, U64, number_bytes, spelling};
ghost use Rattle.entry_frames.specs.Views.{IsK};

use craft_base::OutOfMemory;
use entry_frames::{Batch, EntryView, write_entry};

/// A number of one byte.
pub fn push_byte(frame: &mut Vec<u8>, number: u8) -> Result<(), OutOfMemory>
    ensures { OnOk result (frame.new.items ≡ frame.old.items ++ number_bytes true U8 number) }
{
    frame.push(number)?;
    Ok(())
}

/// A number of four bytes, where it stands.
pub fn push_u32_if(frame: &mut Vec<u8>, stands: bool, number: u32) -> Result<(), OutOfMemory>
    ensures { OnOk result (frame.new.items ≡ frame.old.items ++ number_bytes stands U32 number) }
{
    if stands {
        frame.extend_from_slice(&number.to_be_bytes())?;
    }
    Ok(())
}

/// A number of eight bytes, where it stands.
pub fn push_u64_if(frame: &mut Vec<u8>, stands: bool, number: u64) -> Result<(), OutOfMemory>
    ensures { OnOk result (frame.new.items ≡ frame.old.items ++ number_bytes stands U64 number) }
{
    if stands {
        frame.extend_from_slice(&number.to_be_bytes())?;
    }
    Ok(())
}

/// A number of eight bytes.
pub fn push_u64(frame: &mut Vec<u8>, number: u64) -> Result<(), OutOfMemory>
    ensures { OnOk result (frame.new.items ≡ frame.old.items ++ number_bytes true U64 number) }
{
    push_u64_if(frame, true, number)
}

/// Bytes as they are.
pub fn push_bytes(frame: &mut Vec<u8>, bytes: &[u8]) -> Result<(), OutOfMemory>
    ensures { OnOk result (frame.new.items ≡ frame.old.items ++ bytes.now) }
{
    frame.extend_from_slice(bytes)?;
    Ok(())
}

/// The entries of a message, one after the other.
pub fn push_entries(frame: &mut Vec<u8>, k: u8, entries: &Batch) -> Result<(), OutOfMemory>
    requires needs { IsK k }
    requires fit { AllByRecursion (Fits (entry_fields k)) entries.now }
    ensures { OnOk result (frame.new.items ≡ frame.old.items ++ flat_map (spelling (entry_fields k)) entries.now) }
{
    for n in 0..entries.len() {
        if let Some(entry) = entries.at(n) {
            write_entry(*frame.allocator(), frame, &EntryView::of(k, entry))?;
        }
    }
    Ok(())
}
