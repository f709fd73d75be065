//! A request as the bytes that are sent.
ghost use Rattle.std.specs.Prelude.{◌≡◌, ◌<◌, IfOk};
ghost use Rattle.craft_base.specs.Shape.{members_of};
ghost use Rattle.entry_frames.specs.Formats.{Fits};
ghost use Rattle.entry_frames.specs.MessageFields.{request_fields};
ghost use Rattle.craft_client.specs.Asking.{frame_to};

use craft_base::{Blob, MemberId, OutOfMemory, Request, Shape};
use entry_frames::Message;
use peer_frames::write_message;
use std::alloc::Global;

/// The bytes of the request to that member.
pub fn request_frame(
    alloc: Global,
    shape: &Shape,
    request: &Request,
    member: MemberId,
) -> Result<Blob, OutOfMemory>
    requires request { Fits request_fields request.now }
    requires member { member < members_of shape.now }
    ensures { IfOk result (λ blob. blob ≡ frame_to shape.now request.now member) }
{
    shape.law();
    let message = Message::Request {
        to: member,
        request: copy_of(alloc, request)?,
    };
    write_message(alloc, shape, &message)
}

/// A copy of a request.
fn copy_of(alloc: Global, request: &Request) -> Result<Request, OutOfMemory>
    ensures { IfOk result (λ copy. copy ≡ request.now) }
{
    Ok(Request {
        client: request.client,
        seq: request.seq,
        op: request.op,
        key: Blob::copy_of(alloc, request.key.as_bytes())?,
        value: Blob::copy_of(alloc, request.value.as_bytes())?,
    })
}
