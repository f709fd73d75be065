//! The lines of the schedule above their columns.
use crate::paper::{column_x, part_height};
use crate::part::Part;
use crate::run::Step;
use crate::short::push_words;
use craft_base::OutOfMemory;
use std::fmt::Write;
use world_model::Verdict;

/// The most letters of a line that stand above its column.
const FACE: usize = 30;

/// Draws each event's line of the schedule above its column, grey where nothing came of it.
pub(crate) fn push_columns(
    drawing: &mut String,
    part: &Part<'_>,
    members: u8,
) -> Result<(), OutOfMemory> {
    for (column, step) in (0u8..part.columns()).zip(part.steps) {
        let number = part
            .first
            .saturating_add(usize::from(column))
            .saturating_add(1);
        push_column(drawing, column, number, step, members)?;
    }
    Ok(())
}

/// Draws a column.
fn push_column(
    drawing: &mut String,
    column: u8,
    number: usize,
    step: &Step,
    members: u8,
) -> Result<(), OutOfMemory> {
    let (x, bottom) = (column_x(column), part_height(members));
    let (class, verdict) = match step.verdict {
        Verdict::Done | Verdict::Stop => ("asked", ""),
        Verdict::NoFrame => ("asked grey", ": none"),
        Verdict::Skip => ("asked grey", ": skip"),
    };
    let line = &step.line;
    writeln!(drawing, "<path class=\"guide\" d=\"M{x} 170V{bottom}\"/>")?;
    write!(
        drawing,
        "<text class=\"{class}\" transform=\"translate({x} 164) rotate(-48)\"><title>{number} {line}{verdict}</title>{number} "
    )?;
    push_words(drawing, &[line.as_str()], FACE)?;
    writeln!(drawing, "{verdict}</text>")?;
    Ok(())
}
