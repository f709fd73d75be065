//! The text of an event: its number and verdict, and a line for each output.
ghost use Rattle.std.specs.Prelude.{◌≡◌, ◌++◌, All, IfOk, OnOk, codes};
ghost use Rattle.schedule_text.specs.Sends.{SendsPeer};
ghost use Rattle.world_model.specs.Lines as lines;
ghost use Rattle.net_node.specs.NodeRun as run;

use craft_base::{MemberId, OutOfMemory};
use peer_frames::Output;
use schedule_text::line_of;
use std::alloc::Global;

/// The text of an event of that number at a member, which tells these outputs, and the number of the next frame that is sent
/// after it. `frame` is that of the first one.
pub fn event_text(
    alloc: Global,
    number: u64,
    me: MemberId,
    frame: u64,
    outputs: &[Output],
) -> Result<(Vec<u8>, u64), OutOfMemory>
    requires { All SendsPeer outputs.now }
    ensures text { IfOk result (λ x. x.0.items ≡ run.verdict_line number (codes "done") ++ run.told_lines me frame outputs.now) }
    ensures next { IfOk result (λ x. x.1 ≡ run.frames_after frame outputs.now) }
{
    let mut text = verdict_line(alloc, number, "done")?;
    let next = push_outputs(alloc, &mut text, me, frame, outputs)?;
    Ok((text, next))
}

/// The line of an event with that number and verdict.
pub fn verdict_line(alloc: Global, number: u64, verdict: &str) -> Result<Vec<u8>, OutOfMemory>
    ensures { IfOk result (λ text. text.items ≡ run.verdict_line number verdict.now) }
{
    let line = format!(in alloc; "{number} {verdict}\n")?;
    let text = line.as_bytes().to_vec(alloc)?;
    Ok(text)
}

/// Adds a line for each output, and answers the number of the next frame.
fn push_outputs(
    alloc: Global,
    text: &mut Vec<u8>,
    me: MemberId,
    frame: u64,
    outputs: &[Output],
) -> Result<u64, OutOfMemory>
    requires { All SendsPeer outputs.now }
    ensures text { OnOk result (text.new.items ≡ text.old.items ++ run.told_lines me frame outputs.now) }
    ensures next { IfOk result (λ next. next ≡ run.frames_after frame outputs.now) }
{
    let mut frame = frame;
    for output in outputs {
        line_of(alloc, text, me, frame, output)?;
        frame = next_frame(frame, output);
    }
    Ok(frame)
}

/// The number of the next frame after an output. It stands still at the greatest number of 64 bits.
fn next_frame(frame: u64, output: &Output) -> u64
    ensures { result ≡ run.capped (lines.next_frame frame output.now) }
{
    match output {
        Output::Send { .. } => frame.saturating_add(1),
        _ => frame,
    }
}
