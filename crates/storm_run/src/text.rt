//! A tally as text.
ghost use Rattle.std.specs.Prelude.{◌≡◌, ◌++◌, IfOk, OnOk};
ghost use Rattle.storm_run.specs.Storms as storms;
ghost use Rattle.storm_run.specs.Storms.{count_line};

use craft_base::OutOfMemory;
use std::alloc::Global;
use world_model::Tally;

/// Six lines, one for each number. The only error is want of memory.
pub(crate) fn tally_text(alloc: Global, tally: &Tally) -> Result<Vec<u8>, OutOfMemory>
    ensures { IfOk result (λ text. text.items ≡ storms.tally_text tally.now) }
{
    let mut text = Vec::new(alloc);
    push_line(alloc, &mut text, "events", tally.events)?;
    push_line(alloc, &mut text, "frames", tally.frames)?;
    push_line(alloc, &mut text, "replies", tally.replies)?;
    push_line(alloc, &mut text, "leaders", tally.leaders)?;
    push_line(alloc, &mut text, "commit", tally.commit)?;
    push_line(alloc, &mut text, "cuts", tally.cuts)?;
    Ok(text)
}

/// Appends the line of a number with its name.
fn push_line(alloc: Global, text: &mut Vec<u8>, name: &str, count: u64) -> Result<(), OutOfMemory>
    ensures { OnOk result (text.new.items ≡ text.old.items ++ count_line name.now count) }
{
    let line = format!(in alloc; "{name} {count}\n")?;
    text.extend_from_slice(line.as_bytes())?;
    Ok(())
}
