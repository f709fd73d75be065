//! What a packet says to a node.
ghost use Rattle.std.specs.Prelude.{◌≡◌, ◌≢◌, ℕ, IfOk};
ghost use Rattle.entry_frames.specs.Formats.{Fits, reading_all};
ghost use Rattle.entry_frames.specs.Kinds.{kind_of};
ghost use Rattle.entry_frames.specs.MessageFields.{frame_fields};
ghost use Rattle.entry_frames.specs.MessageParts.{receiver_byte};
ghost use Rattle.entry_frames.specs.declared.kind.Kind.TheVariants as kinds;
ghost use Rattle.net_node.specs.Hearing.{IsHeardBy, event_of_heard};
ghost use Rattle.net_node.specs.NodeRun as run;

use craft_base::{MemberId, OutOfMemory, Request, Shape};
use entry_frames::Kind;
use peer_frames::{Message, MessageView};
use std::alloc::Global;

/// What a packet says to a node, if it is for it.
#[derive(Drop)]
pub enum Heard<'a> {
    /// Another member says something.
    Peer(MessageView<'a>),
    /// A client asks.
    Asked(Request),
    /// It is no frame of the cluster, or it isn't for this node.
    Nothing,
}

/// What a packet says to a member of the cluster. The only error is want of memory.
pub fn heard_in<'a>(
    alloc: Global,
    shape: &Shape,
    me: MemberId,
    bytes: &'a [u8],
) -> Result<Heard<'a>, OutOfMemory>
    ensures heard { IfOk result (λ heard. (place : ℕ) → event_of_heard place heard ≡ run.event_if_read me place (reading_all (frame_fields shape.now) bytes.now)) }
    ensures ranged { IfOk result (IsHeardBy shape.now me) }
{
    let Ok(view) = MessageView::read(shape, bytes) else {
        return Ok(Heard::Nothing);
    };
    match view.message_kind() {
        Kind::Answered => return Ok(Heard::Nothing),
        Kind::Peer(_) | Kind::Request => {}
    }
    if view.to() != me {
        return Ok(Heard::Nothing);
    }
    heard_of(alloc, view)
}

/// What a frame says to the member that it is for.
fn heard_of<'a>(alloc: Global, view: MessageView<'a>) -> Result<Heard<'a>, OutOfMemory>
    requires kind { kind_of view.frame ≢ kinds.Answered }
    requires fits { Fits (frame_fields view.shape) view.frame }
    ensures heard { IfOk result (λ heard. (place : ℕ) → event_of_heard place heard ≡ run.event_of_message (receiver_byte view.entry.frame) place view.entry.frame) }
    ensures ranged { IfOk result (IsHeardBy view.entry.shape (receiver_byte view.entry.frame)) }
{
    match view.message_kind() {
        Kind::Peer(_) => Ok(Heard::Peer(view)),
        Kind::Request => match view.to_message(alloc)? {
            Message::Request { request, .. } => Ok(Heard::Asked(request)),
            Message::Peer { .. } | Message::Answered { .. } => unreachable!(),
        },
        Kind::Answered => unreachable!(),
    }
}
