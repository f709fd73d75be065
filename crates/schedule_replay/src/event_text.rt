//! The text of a run: for each event its number and verdict, and a line for each output.
ghost use Rattle.std.specs.Prelude.{◌≡◌, ◌+◌, ◌^◌, ◌<◌, ◌≤◌, ◌++◌, ◌∷◌, [], All, length, IfOk, OnOk};
ghost use Rattle.std.specs.Fmt.{decimal};
ghost use Rattle.schedule_replay.specs.Told.{TellsOf};
ghost use Rattle.schedule_text.specs.Sends.{SendsPeer};
ghost use Rattle.world_model.specs.Lines as lines;
ghost use Rattle.world_model.specs.World as model;

use crate::happened::Happened;
use craft_base::{Blob, MemberId, OutOfMemory};
use peer_frames::Output;
use schedule_text::line_of;
use std::alloc::Global;
use world_model::Verdict;

/// The text of an event with that number. `frame` is the number of the next frame that is sent.
pub fn event_text(
    alloc: Global,
    number: u64,
    frame: u64,
    happened: &Happened,
) -> Result<Blob, OutOfMemory>
    requires range { frame + length happened.now.outputs.items < 2 ^ 64 }
    requires sends { All SendsPeer happened.now.outputs.items }
    ensures { IfOk result (λ text. (h : model.Happened) → TellsOf happened.now h → text ≡ lines.event_lines number frame h) }
{
    let mut text = Vec::new(alloc);
    push_verdict(alloc, &mut text, number, happened.verdict)?;
    push_outputs(alloc, &mut text, happened.member, frame, &happened.outputs)?;
    text.extend_from_slice(&happened.shown)?;
    Ok(Blob::of(text))
}

/// Adds the line of an event with that number.
fn push_verdict(
    alloc: Global,
    text: &mut Vec<u8>,
    number: u64,
    verdict: Verdict,
) -> Result<(), OutOfMemory>
    ensures { OnOk result (text.new.items ≡ text.old.items ++ lines.line_of (decimal number ∷ lines.verdict_word verdict ∷ [])) }
{
    let word = verdict_word(verdict);
    let line = format!(in alloc; "{number} {word}\n")?;
    text.extend_from_slice(line.as_bytes())?;
    Ok(())
}

/// Adds a line for each output of a member.
fn push_outputs(
    alloc: Global,
    text: &mut Vec<u8>,
    member: MemberId,
    frame: u64,
    outputs: &[Output],
) -> Result<(), OutOfMemory>
    requires range { frame + length outputs.now < 2 ^ 64 }
    requires sends { All SendsPeer outputs.now }
    ensures { OnOk result (text.new.items ≡ text.old.items ++ lines.output_lines member frame outputs.now) }
{
    let mut frame = frame;
    for output in outputs {
        line_of(alloc, text, member, frame, output)?;
        frame = next_frame(frame, output);
    }
    Ok(())
}

/// The number of the next frame after an output.
fn next_frame(frame: u64, output: &Output) -> u64
    requires { frame + 1 < 2 ^ 64 }
    ensures next { result ≡ lines.next_frame frame output.now }
    ensures range { result ≤ frame + 1 }
{
    match output {
        Output::Send { .. } => frame + 1,
        _ => frame,
    }
}

fn verdict_word(verdict: Verdict) -> &'static str
    ensures { result.now ≡ lines.verdict_word verdict }
{
    match verdict {
        Verdict::Done => "done",
        Verdict::NoFrame => "none",
        Verdict::Skip => "skip",
        Verdict::Stop => "stop",
    }
}
