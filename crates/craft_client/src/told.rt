//! What a packet tells a client that waits for the reply to one request.
ghost use Rattle.std.specs.Prelude.{◌≡◌, IfOk};
ghost use Rattle.craft_client.specs.Asking.{is_nothing, is_reply_for, said_by, told_by_packet};
ghost use Rattle.craft_client.specs.Members.{NamesMember};

use craft_base::{MemberId, OutOfMemory, Reply, Request, Shape};
use entry_frames::{Kind, Message};
use peer_frames::MessageView;
use std::alloc::Global;

/// What a packet tells a client that waits for the reply to one request.
#[derive(Debug, Drop)]
pub enum Told {
    /// Nothing that ends the waiting.
    Nothing,
    /// That another member is to be asked.
    Elsewhere(MemberId),
    /// The final reply, and the member that gives it.
    Final((MemberId, Reply)),
}

impl Told {
    /// Whether it is nothing.
    pub fn is_nothing(&self) -> bool
        ensures { result ≡ is_nothing self.now }
    {
        match self {
            Told::Nothing => true,
            Told::Elsewhere(_) | Told::Final(_) => false,
        }
    }
}

/// What a packet of these bytes tells the client of that request. It takes memory for a reply to that request alone.
pub fn told_by(
    alloc: Global,
    shape: &Shape,
    request: &Request,
    bytes: &[u8],
) -> Result<Told, OutOfMemory>
    ensures told { IfOk result (λ told. told ≡ told_by_packet shape.now request.now bytes.now) }
    ensures member { IfOk result (NamesMember shape.now) }
{
    let Ok(view) = MessageView::read(shape, bytes) else {
        return Ok(Told::Nothing);
    };
    if !is_reply(&view, request) {
        return Ok(Told::Nothing);
    }
    let Message::Answered { from, reply, .. } = view.to_message(alloc)? else {
        unreachable!()
    };
    Ok(said(from, reply))
}

/// Whether a message replies to that request.
fn is_reply(view: &MessageView<'_>, request: &Request) -> bool
    ensures { result ≡ is_reply_for request.now view.now.frame }
{
    match view.message_kind() {
        Kind::Answered => view.client() == request.client && view.seq() == request.seq,
        Kind::Peer(_) | Kind::Request => false,
    }
}

/// What that reply of a member tells the client.
fn said(from: MemberId, reply: Reply) -> Told
    ensures { result ≡ said_by from reply }
{
    match reply {
        Reply::Elsewhere(Some(hint)) => Told::Elsewhere(hint),
        Reply::Elsewhere(None) | Reply::Preparing | Reply::Busy => Told::Nothing,
        _ => Told::Final((from, reply)),
    }
}
