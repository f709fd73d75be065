//! The network: the messages that members send, in their order, each as its bytes.
ghost use Rattle.std.specs.Prelude.{◌≡◌, ◌-◌, ◌++◌, ◌∷◌, [], List, All, OnOk, IfSome, MatchOption, None, Some, map, slice_get};
ghost use Rattle.entry_frames.specs.declared.message.Message.{Message};
ghost use Rattle.world_model.specs.Ranges.{HasSpelling};
ghost use Rattle.world_model.specs.World.{sent_among};
ghost use Rattle.schedule_replay.specs.Network.{frame_bytes, CanBeSent, IsSent};

use craft_base::{Blob, OutOfMemory, Shape};
use peer_frames::{MessageView, Output, write_message};
use std::alloc::Global;

/// Adds the messages among what a member told to those that were sent.
pub fn keep_messages(
    alloc: Global,
    shape: &Shape,
    sent: &mut Vec<Blob>,
    outputs: &[Output],
) -> Result<(), OutOfMemory>
    requires { All (CanBeSent shape.now) outputs.now }
    ensures { OnOk result (sent.new.items ≡ sent.old.items ++ map (frame_bytes shape.now) (sent_among outputs.now)) }
{
    for output in outputs {
        keep_message(alloc, shape, sent, output)?;
    }
    Ok(())
}

/// Adds what a member sends, if it sends something.
fn keep_message(
    alloc: Global,
    shape: &Shape,
    sent: &mut Vec<Blob>,
    output: &Output,
) -> Result<(), OutOfMemory>
    requires { CanBeSent shape.now output.now }
    ensures { OnOk result (sent.new.items ≡ sent.old.items ++ map (frame_bytes shape.now) (sent_among (output.now ∷ []))) }
{
    match output {
        Output::Send { message } => sent.push(write_message(alloc, shape, message)?)?,
        Output::Role { .. }
        | Output::Cut { .. }
        | Output::Whole { .. }
        | Output::Commit { .. }
        | Output::Reply { .. } => {}
    }
    Ok(())
}

/// The message in the frame of that number, if it was sent. Frames are numbered from 1.
pub fn frame_in<'a>(shape: &Shape, sent: &'a [Blob], number: u64) -> Option<MessageView<'a>>
    requires { All (IsSent shape.now) sent.now }
    ensures sent { (ms : List Message) → All (HasSpelling shape.now) ms → sent.now ≡ map (frame_bytes shape.now) ms →
        MatchOption result (slice_get ms (number - 1) ≡ None) (λ view. slice_get ms (number - 1) ≡ Some view.frame) }
    ensures read { IfSome result (λ view. view.shape ≡ shape.now) }
{
    let position = number.saturating_sub(1) as usize;
    let frame = sent.get(position)?;
    let Ok(view) = MessageView::read(shape, frame.as_bytes()) else {
        unreachable!()
    };
    Some(view)
}
