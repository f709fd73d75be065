//! How far each member has committed, as a step line below its lane.
ghost use Rattle.std.specs.Prelude.{◌≤◌};

use crate::lanes::Lane;
use crate::paper::{LEFT, column_x, lane_y, lanes_end};
use crate::part::Part;
use crate::run::{Step, Told};
use craft_base::OutOfMemory;
use std::fmt::Write;

/// The indexes between which the step lines of a part lie.
#[derive(Clone, Copy, Debug)]
struct Scale {
    least: u64,
    greatest: u64,
}

impl Scale {
    /// How far above the bottom an index stands, in pixels: 0 to 16.
    fn height(self, index: u64) -> u64
        ensures { result ≤ 16 }
    {
        let span = self.greatest.saturating_sub(self.least);
        let above = index.saturating_sub(self.least);
        above
            .saturating_mul(16)
            .checked_div(span)
            .unwrap_or(0)
            .min(16)
    }
}

/// Draws a step line for each member. The lanes are as the part begins.
pub(crate) fn push_commits(
    drawing: &mut String,
    part: &Part<'_>,
    lanes: &[Lane],
) -> Result<(), OutOfMemory> {
    let scale = scale_of(part, lanes);
    for (number, lane) in (0u8..u8::MAX).zip(lanes) {
        push_steps(drawing, part, scale, number, lane.commit)?;
    }
    Ok(())
}

/// The least and the greatest index up to which a member commits in a part.
fn scale_of(part: &Part<'_>, lanes: &[Lane]) -> Scale {
    let least = lanes.iter().map(|lane| lane.commit).min().unwrap_or(0);
    let mut greatest = lanes.iter().map(|lane| lane.commit).max().unwrap_or(0);
    for step in part.steps {
        greatest = greatest.max(commit_of(step).unwrap_or(0));
    }
    Scale { least, greatest }
}

/// How far a member committed in an event.
fn commit_of(step: &Step) -> Option<u64> {
    let mut commit = None;
    for told in &step.told {
        if let Told::Commit { index } = told {
            commit = Some(*index);
        }
    }
    commit
}

/// Draws the step line of a member, which begins at that index.
fn push_steps(
    drawing: &mut String,
    part: &Part<'_>,
    scale: Scale,
    number: u8,
    commit: u64,
) -> Result<(), OutOfMemory> {
    let bottom = lane_y(number) + 52;
    let y = bottom - scale.height(commit);
    write!(drawing, "<path class=\"commit\" d=\"M{LEFT} {y}")?;
    for (column, step) in (0u8..part.columns()).zip(part.steps) {
        if let (true, Some(index)) = (step.member == Some(number), commit_of(step)) {
            let x = column_x(column);
            let y = bottom - scale.height(index);
            write!(drawing, "H{x}V{y}")?;
        }
    }
    let end = lanes_end(part.columns());
    writeln!(drawing, "H{end}\"/>")?;
    push_indexes(drawing, part, scale, number)
}

/// Draws the index of each step.
fn push_indexes(
    drawing: &mut String,
    part: &Part<'_>,
    scale: Scale,
    number: u8,
) -> Result<(), OutOfMemory> {
    let bottom = lane_y(number) + 52;
    for (column, step) in (0u8..part.columns()).zip(part.steps) {
        if let (true, Some(index)) = (step.member == Some(number), commit_of(step)) {
            let x = column_x(column) + 4;
            let y = bottom - scale.height(index) + 11;
            writeln!(
                drawing,
                "<text class=\"index\" x=\"{x}\" y=\"{y}\">commit {index}</text>"
            )?;
        }
    }
    Ok(())
}
