//! Frames, read where they lie.
ghost use Rattle.std.specs.Prelude.{◌≡◌, ◌-◌, true, IfOk};
ghost use Rattle.craft_base.specs.Shape.{members_of};
ghost use Rattle.entry_frames.specs.Formats.{U8, number_at, reading, within};
ghost use Rattle.entry_frames.specs.declared.kind.Kind.TheVariants as kinds;
ghost use Rattle.entry_frames.specs.Kinds.{kind_of};
ghost use Rattle.entry_frames.specs.MessageFields.{frame_fields, ends_fields, peer_fields, said_fields, asked_fields, answered_fields, replied_fields};
ghost use Rattle.entry_frames.specs.Steps.{Reads};
ghost use Rattle.entry_frames.specs.Views.{IsK};
ghost use Rattle.peer_frames.specs.FrameViews.{message_of_view, FrameHasK, HasNoBody};

use crate::peer_view::PeerView;
use crate::reply_view::{ReplyView, read_reply};
use crate::request_view::{RequestView, read_request};
use craft_base::{MemberId, OutOfMemory, Shape};
use entry_frames::{Fields, FrameFault, GREATEST, Kind, Message, PeerKind};
use std::alloc::Global;

/// The byte that stands for a client in the cursor of a member.
pub const CLIENT: u8 = 255;

/// The first two bytes of each frame, and the version of the format behind them.
pub const FIRST: u8 = 0x43;

pub const SECOND: u8 = 0x52;

pub const VERSION: u8 = 1;

/// All that travels; entries, keys and values are lent.
#[derive(Drop)]
pub enum FrameView<'a> {
    Peer {
        from: MemberId,
        to: MemberId,
        term: u64,
        body: PeerView<'a>,
    },
    Request {
        to: MemberId,
        request: RequestView<'a>,
    },
    Answered {
        from: MemberId,
        client: u64,
        seq: u64,
        reply: ReplyView<'a>,
    },
}

impl<'a> FrameView<'a> {
    /// Reads a frame of a cluster off the front of what is left.
    pub fn read(fields: &mut Fields<'a>, shape: &Shape) -> Result<FrameView<'a>, FrameFault>
        ensures exact { Reads message_of_view result fields.new (reading (frame_fields shape.now) fields.old) }
        ensures need { IfOk result (FrameHasK shape.now.need) }
    {
        let faults = shape.faults();
        let k = shape.need();
        fields.byte(FIRST, FIRST)?;
        fields.byte(SECOND, SECOND)?;
        fields.byte(VERSION, VERSION)?;
        fields.byte(faults, faults)?;
        fields.byte(k, k)?;
        let kind = Kind::read(fields)?;
        FrameView::read_as(fields, shape, k, kind)
    }

    /// Its kind.
    pub fn kind(&self) -> Kind
        ensures { result ≡ kind_of (message_of_view self.now) }
    {
        match self {
            FrameView::Peer { body, .. } => Kind::Peer(body.kind()),
            FrameView::Request { .. } => Kind::Request,
            FrameView::Answered { .. } => Kind::Answered,
        }
    }

    /// A message of its own. The only error is want of memory.
    pub fn to_message(&self, alloc: Global) -> Result<Message, OutOfMemory>
        ensures { IfOk result (λ message. message ≡ message_of_view self.now) }
    {
        match self {
            FrameView::Peer {
                from,
                to,
                term,
                body,
            } => Ok(Message::Peer {
                from: *from,
                to: *to,
                term: *term,
                body: body.to_peer(alloc)?,
            }),
            FrameView::Request { to, request } => Ok(Message::Request {
                to: *to,
                request: request.to_request(alloc)?,
            }),
            FrameView::Answered {
                from,
                client,
                seq,
                reply,
            } => Ok(Message::Answered {
                from: *from,
                client: *client,
                seq: *seq,
                reply: reply.to_reply(alloc)?,
            }),
        }
    }

    /// Reads a frame of that kind, behind its kind.
    fn read_as(
        fields: &mut Fields<'a>,
        shape: &Shape,
        k: u8,
        kind: Kind,
    ) -> Result<FrameView<'a>, FrameFault>
        requires needs { IsK k }
        requires same { k ≡ shape.now.need }
        ensures exact { Reads message_of_view result fields.new (reading (ends_fields shape.now kind) fields.old) }
        ensures need { IfOk result (FrameHasK shape.now.need) }
    {
        match kind {
            Kind::Peer(kind) => FrameView::peer(fields, shape, k, kind),
            Kind::Request => FrameView::asked(fields, shape),
            Kind::Answered => FrameView::answered(fields, shape),
        }
    }

    fn peer(
        fields: &mut Fields<'a>,
        shape: &Shape,
        k: u8,
        kind: PeerKind,
    ) -> Result<FrameView<'a>, FrameFault>
        requires needs { IsK k }
        requires same { k ≡ shape.now.need }
        ensures exact { Reads message_of_view result fields.new (reading (ends_fields shape.now (kinds.Peer kind)) fields.old) }
        ensures need { IfOk result (FrameHasK shape.now.need) }
    {
        let from = read_member(fields, shape)?;
        let to = read_member(fields, shape)?;
        fields.test(from.number() != to.number(), 1)?;
        let term = fields.u64(1, GREATEST)?;
        FrameView::peer_said(fields, k, from, to, term, kind)
    }

    fn peer_said(
        fields: &mut Fields<'a>,
        k: u8,
        from: MemberId,
        to: MemberId,
        term: u64,
        kind: PeerKind,
    ) -> Result<FrameView<'a>, FrameFault>
        requires needs { IsK k }
        ensures exact { Reads message_of_view result fields.new (reading (said_fields k from to term kind) fields.old) }
        ensures need { IfOk result (FrameHasK k) }
    {
        let body = PeerView::read(fields, k, term, kind)?;
        Ok(FrameView::Peer {
            from,
            to,
            term,
            body,
        })
    }

    fn asked(fields: &mut Fields<'a>, shape: &Shape) -> Result<FrameView<'a>, FrameFault>
        ensures exact { Reads message_of_view result fields.new (reading (ends_fields shape.now kinds.Request) fields.old) }
        ensures entryless { IfOk result HasNoBody }
    {
        let from = fields.byte(CLIENT, CLIENT)?;
        let to = read_member(fields, shape)?;
        fields.test(from != to.number(), 1)?;
        FrameView::request(fields, to)
    }

    fn request(fields: &mut Fields<'a>, to: MemberId) -> Result<FrameView<'a>, FrameFault>
        ensures exact { Reads message_of_view result fields.new (reading (asked_fields to) fields.old) }
        ensures entryless { IfOk result HasNoBody }
    {
        let request = read_request(fields)?;
        Ok(FrameView::Request { to, request })
    }

    fn answered(fields: &mut Fields<'a>, shape: &Shape) -> Result<FrameView<'a>, FrameFault>
        ensures exact { Reads message_of_view result fields.new (reading (ends_fields shape.now kinds.Answered) fields.old) }
        ensures entryless { IfOk result HasNoBody }
    {
        let from = read_member(fields, shape)?;
        let to = fields.byte(CLIENT, CLIENT)?;
        fields.test(from.number() != to, 1)?;
        FrameView::answered_from(fields, shape, from)
    }

    fn answered_from(
        fields: &mut Fields<'a>,
        shape: &Shape,
        from: MemberId,
    ) -> Result<FrameView<'a>, FrameFault>
        ensures exact { Reads message_of_view result fields.new (reading (answered_fields (members_of shape.now) from) fields.old) }
        ensures entryless { IfOk result HasNoBody }
    {
        let client = fields.u64(1, GREATEST)?;
        let seq = fields.u64(1, GREATEST)?;
        FrameView::replied(fields, shape, from, client, seq)
    }

    fn replied(
        fields: &mut Fields<'a>,
        shape: &Shape,
        from: MemberId,
        client: u64,
        seq: u64,
    ) -> Result<FrameView<'a>, FrameFault>
        ensures exact { Reads message_of_view result fields.new (reading (replied_fields (members_of shape.now) from client seq) fields.old) }
        ensures entryless { IfOk result HasNoBody }
    {
        match read_reply(fields, shape) {
            Ok(reply) => Ok(FrameView::Answered {
                from,
                client,
                seq,
                reply,
            }),
            Err(fault) => Err(fault),
        }
    }
}

/// Reads a member of the cluster.
fn read_member(fields: &mut Fields<'_>, shape: &Shape) -> Result<MemberId, FrameFault>
    ensures { Reads (λ member. member) result fields.new (number_at true U8 (within 0 (members_of shape.now - 1)) fields.old) }
{
    let at = fields.at();
    let number = fields.byte(0, shape.members() - 1)?;
    MemberId::new(shape, number).ok_or(FrameFault::Bad(at))
}
