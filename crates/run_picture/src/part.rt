//! A part of a run, whose events have a column each.
use crate::arrows::push_arrows;
use crate::columns::push_columns;
use crate::commits::push_commits;
use crate::lanes::{Lane, push_lanes};
use crate::marks::push_marks;
use crate::paper::part_y;
use crate::run::{Run, Step};
use craft_base::OutOfMemory;
use std::fmt::Write;

/// A part of a run.
#[derive(Clone, Copy)]
pub(crate) struct Part<'a> {
    /// Its number, from 0 on.
    pub(crate) number: u64,
    /// The place of its first event in the run.
    pub(crate) first: usize,
    /// Its events, at most `COLUMNS`.
    pub(crate) steps: &'a [Step],
}

impl Part<'_> {
    /// The column of an event, by its place in the run, where it is one of the part's.
    pub(crate) fn column_of(&self, event: usize) -> Option<u8> {
        let place = event.checked_sub(self.first)?;
        if place < self.steps.len() {
            u8::try_from(place).ok()
        } else {
            None
        }
    }

    /// How many columns it has.
    pub(crate) fn columns(&self) -> u8 {
        u8::try_from(self.steps.len()).unwrap_or(u8::MAX)
    }
}

/// Draws a part. The lanes are as the part before left them, and are left as this one leaves them.
pub(crate) fn push_part(
    drawing: &mut String,
    run: &Run,
    part: &Part<'_>,
    lanes: &mut [Lane],
) -> Result<(), OutOfMemory> {
    let y = part_y(part.number, run.members);
    writeln!(drawing, "<g transform=\"translate(0 {y})\">")?;
    push_columns(drawing, part, run.members)?;
    push_commits(drawing, part, lanes)?;
    push_lanes(drawing, part, lanes)?;
    push_arrows(drawing, run, part)?;
    push_marks(drawing, run, part)?;
    drawing.push_str("</g>\n")?;
    Ok(())
}
