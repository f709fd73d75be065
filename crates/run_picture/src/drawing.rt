//! Both inputs are read, and the picture is drawn and written.
ghost use Rattle.std.specs.Prelude.{None, IfErr, OnOk};
ghost use Rattle.std.specs.Io.KnownBytes.{IsAtEnd};
ghost use Rattle.run_picture.specs.Pictures.{PictureEnds, ReadsNoRun};

use crate::fault::ReadFault;
use crate::lanes::Lane;
use crate::legend::push_legend;
use crate::paper::{COLUMNS, picture_height, picture_width};
use crate::part::{Part, push_part};
use crate::picture_end::PictureEnd;
use crate::reading::read_run;
use crate::run::Run;
use crate::style::STYLE;
use craft_base::{OutOfMemory, Shape};
use craft_edge::{Sink, Source, write_all};
use std::alloc::Global;
use std::fmt::Write;

/// Reads a schedule and the text of its run, and writes the picture of that run, in SVG, for a cluster of that shape. The text may end
/// early; what the schedule has behind it isn't looked at. The picture is made in memory and then written.
pub fn picture<S: Source, T: Source, O: Sink>(
    alloc: Global,
    shape: &Shape,
    schedule: &mut S,
    text: &mut T,
    out: &mut O,
) -> PictureEnd
    ensures ends { PictureEnds
        (record { schedule = S.left schedule.old; text = T.left text.old; taken = O.taken out.old; schedule_faults = S.faults schedule.old; text_faults = T.faults text.old; sink_faults = O.faults out.old })
        (record { schedule = S.left schedule.new; text = T.left text.new; taken = O.taken out.new; schedule_faults = S.faults schedule.new; text_faults = T.faults text.new; sink_faults = O.faults out.new }) result }
{
    let drawn = match draw(alloc, shape, schedule, text) {
        Ok(drawn) => drawn,
        Err(fault) => return PictureEnd::from(fault),
    };
    match write_all(out, drawn.as_bytes()) {
        Ok(()) => PictureEnd::End,
        Err(_) => PictureEnd::SinkFault,
    }
}

/// The picture of what the inputs tell.
fn draw<S: Source, T: Source>(
    alloc: Global,
    shape: &Shape,
    schedule: &mut S,
    text: &mut T,
) -> Result<String, ReadFault>
    ensures ended { OnOk result (IsAtEnd (T.left text.new)) }
    ensures failed { IfErr result (ReadsNoRun
        (record { schedule = S.left schedule.old; text = T.left text.old; taken = None; schedule_faults = S.faults schedule.old; text_faults = T.faults text.old; sink_faults = 0 })
        (record { schedule = S.left schedule.new; text = T.left text.new; taken = None; schedule_faults = S.faults schedule.new; text_faults = T.faults text.new; sink_faults = 0 })) }
{
    let run = read_run(alloc, shape, schedule, text)?;
    Ok(drawing_of(alloc, &run)?)
}

/// The picture of a run.
fn drawing_of(alloc: Global, run: &Run) -> Result<String, OutOfMemory> {
    let mut drawing = String::new(alloc);
    push_head(&mut drawing, run)?;
    let mut lanes = vec![in alloc; Lane::new(); usize::from(run.members)]?;
    for (number, steps) in run.steps.chunks(usize::from(COLUMNS)).enumerate() {
        let part = Part {
            number: number as u64,
            first: number.saturating_mul(usize::from(COLUMNS)),
            steps,
        };
        push_part(&mut drawing, run, &part, &mut lanes)?;
    }
    push_legend(&mut drawing, parts_of(run), run.members)?;
    drawing.push_str("</svg>\n")?;
    Ok(drawing)
}

/// How many parts the picture of a run has.
fn parts_of(run: &Run) -> u64 {
    run.steps.len().div_ceil(usize::from(COLUMNS)) as u64
}

/// The head of the picture: its size, its title, its style.
fn push_head(drawing: &mut String, run: &Run) -> Result<(), OutOfMemory> {
    let columns = u8::try_from(run.steps.len())
        .unwrap_or(COLUMNS)
        .min(COLUMNS);
    let width = picture_width(columns);
    let height = picture_height(parts_of(run), run.members);
    let (members, events, frames) = (run.members, run.steps.len(), run.frames.len());
    writeln!(
        drawing,
        "<svg xmlns=\"http://www.w3.org/2000/svg\" width=\"{width}\" height=\"{height}\" viewBox=\"0 0 {width} {height}\" role=\"img\">"
    )?;
    writeln!(
        drawing,
        "<title>A run of {members} members: {events} events, {frames} frames</title>"
    )?;
    drawing.push_str(STYLE)?;
    writeln!(
        drawing,
        "<rect class=\"paper\" width=\"{width}\" height=\"{height}\"/>"
    )?;
    writeln!(
        drawing,
        "<text class=\"title\" x=\"20\" y=\"30\">A run of {members} members: {events} events, {frames} frames</text>"
    )?;
    Ok(())
}
