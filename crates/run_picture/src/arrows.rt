//! The frames, as arrows from where they are sent to where they are taken.
use crate::paper::{LEFT, column_x, lane_y};
use crate::part::Part;
use crate::run::{Frame, Run, Step};
use craft_base::OutOfMemory;
use std::fmt::Write;

/// How far to the right a frame goes that isn't taken in its part, in pixels.
const STUB: u64 = 42;

/// How far an arrow is bent for each lane that it passes, in pixels.
const BEND: u64 = 26;

/// Draws the frames that are taken in a part, and the beginnings of those that are sent there and taken later or never.
pub(crate) fn push_arrows(
    drawing: &mut String,
    run: &Run,
    part: &Part<'_>,
) -> Result<(), OutOfMemory> {
    for (column, step) in (0u8..part.columns()).zip(part.steps) {
        let event = part.first.saturating_add(usize::from(column));
        push_sent(drawing, run, part, column, step)?;
        push_taken(drawing, run, part, column, event, step)?;
    }
    Ok(())
}

/// Draws the beginnings of the frames that an event sends and that no event of the part takes.
fn push_sent(
    drawing: &mut String,
    run: &Run,
    part: &Part<'_>,
    column: u8,
    step: &Step,
) -> Result<(), OutOfMemory> {
    for place in step.sent.0..step.sent.1 {
        if let Some(frame) = run.frames.get(place) {
            match frame.taken {
                None => push_lost(drawing, column, place, frame)?,
                Some(event) if part.column_of(event).is_none() => {
                    push_later(drawing, column, place, frame, event)?
                }
                Some(_) => {}
            }
        }
    }
    Ok(())
}

/// How far down a frame goes that isn't taken in its part: towards its receiver's lane, the farther the more.
fn stub_end(frame: &Frame) -> u64 {
    let away = 10 + 12 * u64::from(frame.from.abs_diff(frame.to));
    let y = lane_y(frame.from);
    if frame.from < frame.to {
        y + away
    } else {
        y.saturating_sub(away)
    }
}

/// Draws a frame that is never taken.
fn push_lost(
    drawing: &mut String,
    column: u8,
    place: usize,
    frame: &Frame,
) -> Result<(), OutOfMemory> {
    let (x, y, end) = (column_x(column), lane_y(frame.from), stub_end(frame));
    let (to, beside) = (x + STUB, x + STUB + 7);
    let (name, receiver) = (&frame.name, frame.to);
    drawing.push_str("<g>")?;
    push_title(drawing, place, frame, "is never taken")?;
    writeln!(
        drawing,
        "<path class=\"stub\" d=\"M{x} {y}L{to} {end}\"/><use href=\"#cross\" class=\"lost\" x=\"{to}\" y=\"{end}\"/>"
    )?;
    writeln!(
        drawing,
        "<text class=\"label\" x=\"{beside}\" y=\"{end}\">{name} to {receiver}</text></g>"
    )?;
    Ok(())
}

/// Draws the beginning of a frame that a later part takes first.
fn push_later(
    drawing: &mut String,
    column: u8,
    place: usize,
    frame: &Frame,
    event: usize,
) -> Result<(), OutOfMemory> {
    let (x, y, end) = (column_x(column), lane_y(frame.from), stub_end(frame));
    let (to, beside) = (x + STUB, x + STUB + 4);
    let event = event.saturating_add(1);
    drawing.push_str("<g>")?;
    push_title(drawing, place, frame, "is taken in a later part")?;
    writeln!(
        drawing,
        "<path class=\"frame\" d=\"M{x} {y}L{to} {end}\"/><text class=\"label later\" x=\"{beside}\" y=\"{end}\">to {event}</text></g>"
    )?;
    Ok(())
}

/// Draws the frame that an event takes, dashed where it isn't the first that does.
fn push_taken(
    drawing: &mut String,
    run: &Run,
    part: &Part<'_>,
    column: u8,
    event: usize,
    step: &Step,
) -> Result<(), OutOfMemory> {
    let (Some(place), Some(frame)) = (step.frame, run.taken_by(step)) else {
        return Ok(());
    };
    let class = if frame.taken == Some(event) {
        "frame"
    } else {
        "frame again"
    };
    let from = part.column_of(frame.event).map_or(LEFT, column_x);
    drawing.push_str("<g>")?;
    push_title(drawing, place, frame, "is taken here")?;
    push_arrow(drawing, class, from, column_x(column), frame)?;
    drawing.push_str("</g>\n")?;
    Ok(())
}

/// Draws an arrow that ends beside its receiver's lane. It is bent by the lanes that it passes, so that it lies on no other one.
fn push_arrow(
    drawing: &mut String,
    class: &str,
    from: u64,
    to: u64,
    frame: &Frame,
) -> Result<(), OutOfMemory> {
    let y = lane_y(frame.from);
    let end = lane_y(frame.to);
    let end = if frame.from < frame.to {
        end - 6
    } else {
        end + 6
    };
    let passed = u64::from(frame.from.abs_diff(frame.to).saturating_sub(1));
    let middle = from.saturating_add(to) / 2;
    let (bend_x, bend_y) = (middle.saturating_add(BEND * passed), (y + end) / 2);
    writeln!(
        drawing,
        "<path class=\"{class}\" d=\"M{from} {y}Q{bend_x} {bend_y} {to} {end}\"/>"
    )?;
    Ok(())
}

/// Writes the title of a frame, which a pointer shows: its number, members and words.
fn push_title(
    drawing: &mut String,
    place: usize,
    frame: &Frame,
    fate: &str,
) -> Result<(), OutOfMemory> {
    let number = place.saturating_add(1);
    let event = frame.event.saturating_add(1);
    let (from, to, words) = (frame.from, frame.to, &frame.words);
    write!(
        drawing,
        "<title>frame {number} from {from} to {to}, sent by event {event}, {fate}: {words}</title>"
    )?;
    Ok(())
}
