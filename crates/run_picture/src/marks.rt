//! The events, each a mark on the lane of its member, with what the member told beside it.
use crate::lanes::role_word;
use crate::paper::{column_x, lane_y};
use crate::part::Part;
use crate::run::{Frame, Kind, Run, Step, Told};
use craft_base::OutOfMemory;
use std::fmt::Write;
use world_model::Verdict;

/// Draws a mark for each event of a part that is some member's.
pub(crate) fn push_marks(
    drawing: &mut String,
    run: &Run,
    part: &Part<'_>,
) -> Result<(), OutOfMemory> {
    for (column, step) in (0u8..part.columns()).zip(part.steps) {
        if let Some(member) = step.member {
            let number = part
                .first
                .saturating_add(usize::from(column))
                .saturating_add(1);
            let (x, y) = (column_x(column), lane_y(member));
            write!(drawing, "<g transform=\"translate({x} {y})\">")?;
            push_title(drawing, number, step)?;
            push_mark(drawing, step)?;
            push_notes(drawing, run, step)?;
            drawing.push_str("</g>\n")?;
        }
    }
    Ok(())
}

/// Writes the title of an event, which a pointer shows: its line of the schedule, and those of the text.
fn push_title(drawing: &mut String, number: usize, step: &Step) -> Result<(), OutOfMemory> {
    let (line, text) = (&step.line, &step.text);
    let verdict = match step.verdict {
        Verdict::Done => "done",
        Verdict::NoFrame => "none",
        Verdict::Skip => "skip",
        Verdict::Stop => "stop",
    };
    writeln!(drawing, "<title>{number} {line}")?;
    write!(drawing, "{number} {verdict}\n{text}</title>")?;
    Ok(())
}

/// Draws the mark of an event.
fn push_mark(drawing: &mut String, step: &Step) -> Result<(), OutOfMemory> {
    let mark = match (step.verdict, step.kind) {
        (Verdict::NoFrame | Verdict::Skip, _) => "<circle class=\"idle\" r=\"4\"/>",
        (Verdict::Stop, _) => "<use href=\"#cross\" class=\"halt\"/>",
        (_, Kind::Tick) => "<circle class=\"dot\" r=\"3\"/>",
        (_, Kind::Take) => "<circle class=\"dot\" r=\"4\"/>",
        (_, Kind::Call) => "<path class=\"dot\" d=\"M-6 -6H6L0 6z\"/>",
        (_, Kind::Down) => "<path class=\"halt\" d=\"M0 -9V9\"/>",
        (_, Kind::Up) => "<path class=\"dot\" d=\"M-4 -7 7 0 -4 7z\"/>",
        (_, Kind::Show) => "<circle class=\"idle\" r=\"6\"/><circle class=\"dot\" r=\"2.5\"/>",
    };
    drawing.push_str(mark)?;
    Ok(())
}

/// Draws what the frame that is taken says, and what the member told, on that side of its lane from which no frame comes.
fn push_notes(drawing: &mut String, run: &Run, step: &Step) -> Result<(), OutOfMemory> {
    let frame = run.taken_by(step);
    let mut notes = Notes::beside(frame);
    if let Some(frame) = frame {
        notes.begin(drawing, "")?;
        push_what_is_said(drawing, frame)?;
    }
    if let (Verdict::Stop, Some(call)) = (step.verdict, step.stop) {
        notes.begin(drawing, "role")?;
        writeln!(drawing, "stop {call}</text>")?;
    }
    for told in &step.told {
        push_told(drawing, &mut notes, told)?;
    }
    Ok(())
}

/// Writes a frame's name, and the forms of the entries that it carries.
fn push_what_is_said(drawing: &mut String, frame: &Frame) -> Result<(), OutOfMemory> {
    let (name, forms) = (&frame.name, &frame.forms);
    if forms.is_empty() {
        writeln!(drawing, "{name}</text>")?;
    } else {
        writeln!(drawing, "{name} {forms}</text>")?;
    }
    Ok(())
}

/// Draws what a member told, but for how far it committed, which is drawn as a step.
fn push_told(drawing: &mut String, notes: &mut Notes, told: &Told) -> Result<(), OutOfMemory> {
    match told {
        Told::Role { role, term } => {
            let role = role_word(*role);
            notes.begin(drawing, "role")?;
            writeln!(drawing, "{role} t{term}</text>")?;
        }
        Told::Cut { index } => {
            drawing.push_str("<use href=\"#scissors\" class=\"cut\" x=\"20\"/>")?;
            notes.begin(drawing, "")?;
            writeln!(drawing, "cut {index}</text>")?;
        }
        Told::Whole { index } => {
            drawing.push_str("<use href=\"#square\" class=\"whole\" x=\"16\"/>")?;
            notes.begin(drawing, "")?;
            writeln!(drawing, "whole {index}</text>")?;
        }
        Told::Reply { client, words } => {
            notes.begin(drawing, "")?;
            writeln!(drawing, "{client}: {words}</text>")?;
        }
        Told::Commit { .. } => {}
    }
    Ok(())
}

/// The lines beside a mark, from the lane away.
#[derive(Clone, Copy, Debug)]
struct Notes {
    /// The sign of their place: the paper's places grow downwards.
    sign: &'static str,
    /// How far away the next one stands, in pixels.
    away: u64,
}

impl Notes {
    /// Below the lane where a frame comes from above, and else above it.
    fn beside(frame: Option<&Frame>) -> Notes {
        match frame {
            Some(frame) if frame.from < frame.to => Notes { sign: "", away: 20 },
            _ => Notes {
                sign: "-",
                away: 13,
            },
        }
    }

    /// Begins the text of the next one.
    fn begin(&mut self, drawing: &mut String, class: &str) -> Result<(), OutOfMemory> {
        let (sign, away) = (self.sign, self.away);
        self.away = away.saturating_add(12);
        write!(
            drawing,
            "<text class=\"label {class}\" text-anchor=\"middle\" y=\"{sign}{away}\">"
        )?;
        Ok(())
    }
}
