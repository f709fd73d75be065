//! Writing a message.
ghost use Rattle.std.specs.Prelude.{◌≡◌, ◌≤◌, ◌++◌, length, IfOk, OnOk};
ghost use Rattle.std.specs.List.{AllByRecursion};
ghost use Rattle.craft_base.specs.declared.command.Reply.TheVariants.{Value as ReplyValue};
ghost use Rattle.entry_frames.specs.Entries.{entry_fields};
ghost use Rattle.entry_frames.specs.Formats.{Fits, spelling};
ghost use Rattle.entry_frames.specs.declared.peer.Peer.TheVariants as peers;
ghost use Rattle.entry_frames.specs.declared.reply_kind.ReplyKind.TheVariants as reply_kinds;
ghost use Rattle.entry_frames.specs.Kinds.{peer_kind};
ghost use Rattle.entry_frames.specs.Limits.{longest_value};
ghost use Rattle.entry_frames.specs.MessageFields.{frame_fields, body_fields, request_fields, vote_fields, vote_reply_fields, append_reply_fields, ask_fields};
ghost use Rattle.entry_frames.specs.Replies.{reply_fields, reply_fields_of, reply_kind, value_told};
ghost use Rattle.entry_frames.specs.Views.{IsK};
ghost use Rattle.peer_frames.specs.Texts.{append_text, answer_text, head_text, u64_text};

use crate::frame_view::{CLIENT, FIRST, SECOND, VERSION};
use crate::push::{push_byte, push_bytes, push_entries, push_u32_if, push_u64, push_u64_if};
use craft_base::{Blob, OutOfMemory, Reply, Request, Shape};
use entry_frames::{
    Batch, Kind, Message, OpKind, Peer, PeerKind, ReplyKind, expected_version, member_byte,
};
use std::alloc::Global;

/// The one spelling of a message that meets the ranges of docs/FORMATS.md, "Messages". The only error is want of memory.
pub fn write_message(alloc: Global, shape: &Shape, message: &Message) -> Result<Blob, OutOfMemory>
    requires { Fits (frame_fields shape.now) message.now }
    ensures { IfOk result (λ blob. blob ≡ spelling (frame_fields shape.now) message.now) }
{
    let mut frame = Vec::new(alloc);
    push_frame(&mut frame, shape, message)?;
    Ok(Blob::of(frame))
}

/// The kind of what a peer message says.
fn kind_of_peer(body: &Peer) -> PeerKind
    ensures { result ≡ peer_kind body.now }
{
    match body {
        Peer::Vote { .. } => PeerKind::Vote,
        Peer::VoteReply { .. } => PeerKind::VoteReply,
        Peer::Append { .. } => PeerKind::Append,
        Peer::Matched { .. } | Peer::Refused { .. } => PeerKind::AppendReply,
        Peer::Ask { .. } => PeerKind::Ask,
        Peer::Answer { .. } => PeerKind::Answer,
    }
}

fn push_vote(frame: &mut Vec<u8>, last_term: u64, last: u64) -> Result<(), OutOfMemory>
    ensures { OnOk result (frame.new.items ≡ frame.old.items ++ spelling vote_fields (peers.Vote last_term last)) }
{
    push_u64(frame, last_term)?;
    push_u64(frame, last)
}

fn push_vote_reply(frame: &mut Vec<u8>, granted: bool) -> Result<(), OutOfMemory>
    ensures { OnOk result (frame.new.items ≡ frame.old.items ++ spelling vote_reply_fields (peers.VoteReply granted)) }
{
    push_byte(frame, u8::from(granted))
}

fn push_matched(frame: &mut Vec<u8>, prev: u64, count: u8, mask: u8) -> Result<(), OutOfMemory>
    ensures { OnOk result (frame.new.items ≡ frame.old.items ++ spelling append_reply_fields (peers.Matched prev count mask)) }
{
    push_byte(frame, 1)?;
    push_u64(frame, prev)?;
    push_byte(frame, count)?;
    push_byte(frame, mask)
}

fn push_refused(frame: &mut Vec<u8>, next: u64) -> Result<(), OutOfMemory>
    ensures { OnOk result (frame.new.items ≡ frame.old.items ++ spelling append_reply_fields (peers.Refused next)) }
{
    push_byte(frame, 0)?;
    push_u64(frame, next)
}

fn push_ask(frame: &mut Vec<u8>, start: u64) -> Result<(), OutOfMemory>
    ensures { OnOk result (frame.new.items ≡ frame.old.items ++ spelling ask_fields (peers.Ask start)) }
{
    push_u64(frame, start)
}

fn push_append(
    frame: &mut Vec<u8>,
    k: u8,
    prev: u64,
    prev_term: u64,
    commit: u64,
    entries: &Batch,
) -> Result<(), OutOfMemory>
    requires needs { IsK k }
    requires fit { AllByRecursion (Fits (entry_fields k)) entries.now }
    ensures { OnOk result (frame.new.items ≡ frame.old.items ++ append_text k prev prev_term commit entries.now) }
{
    push_u64(frame, prev)?;
    push_u64(frame, prev_term)?;
    push_u64(frame, commit)?;
    push_byte(frame, entries.len())?;
    push_entries(frame, k, entries)?;
    Ok(())
}

fn push_answer(
    frame: &mut Vec<u8>,
    k: u8,
    start: u64,
    last: u64,
    slots: &Batch,
) -> Result<(), OutOfMemory>
    requires needs { IsK k }
    requires fit { AllByRecursion (Fits (entry_fields k)) slots.now }
    ensures { OnOk result (frame.new.items ≡ frame.old.items ++ answer_text k start last slots.now) }
{
    push_u64(frame, start)?;
    push_u64(frame, last)?;
    push_byte(frame, slots.len())?;
    push_entries(frame, k, slots)?;
    Ok(())
}

/// The term of a peer message, and what it says.
fn push_said(frame: &mut Vec<u8>, k: u8, term: u64, body: &Peer) -> Result<(), OutOfMemory>
    requires needs { IsK k }
    requires fit { Fits (body_fields k term (peer_kind body.now)) body.now }
    ensures { OnOk result (frame.new.items ≡ frame.old.items ++ u64_text term ++ spelling (body_fields k term (peer_kind body.now)) body.now) }
{
    push_u64(frame, term)?;
    match body {
        Peer::Vote { last_term, last } => push_vote(frame, *last_term, *last)?,
        Peer::VoteReply { granted } => push_vote_reply(frame, *granted)?,
        Peer::Append {
            prev,
            prev_term,
            commit,
            entries,
        } => push_append(frame, k, *prev, *prev_term, *commit, entries)?,
        Peer::Matched { prev, count, mask } => push_matched(frame, *prev, *count, *mask)?,
        Peer::Refused { next } => push_refused(frame, *next)?,
        Peer::Ask { start } => push_ask(frame, *start)?,
        Peer::Answer { start, last, slots } => push_answer(frame, k, *start, *last, slots)?,
    }
    Ok(())
}

/// A client's request.
fn push_request(frame: &mut Vec<u8>, request: &Request) -> Result<(), OutOfMemory>
    requires { Fits request_fields request.now }
    ensures { OnOk result (frame.new.items ≡ frame.old.items ++ spelling request_fields request.now) }
{
    let kind = OpKind::of(request.op);
    let key = request.key.as_bytes();
    let value = request.value.as_bytes();
    push_u64(frame, request.client)?;
    push_u64(frame, request.seq)?;
    push_byte(frame, kind.byte())?;
    push_u64_if(frame, kind.expects(), expected_version(request.op))?;
    push_byte(frame, key.len() as u8)?;
    push_bytes(frame, key)?;
    push_u32_if(frame, kind.sets(), value.len() as u32)?;
    push_bytes(frame, value)?;
    Ok(())
}

/// What a client is told.
fn push_reply(frame: &mut Vec<u8>, reply: &Reply) -> Result<(), OutOfMemory>
    requires { length (value_told reply.now) ≤ longest_value }
    ensures { OnOk result (frame.new.items ≡ frame.old.items ++ spelling (reply_fields 0) reply.now) }
{
    push_byte(frame, kind_of_reply(reply).byte())?;
    match reply {
        Reply::Done(version) | Reply::Differs(version) => push_u64(frame, *version),
        Reply::Gone(was_there) => push_byte(frame, u8::from(*was_there)),
        Reply::Value(version, value) => push_found(frame, *version, value.as_bytes()),
        Reply::Elsewhere(hint) => push_byte(frame, member_byte(hint.map(|member| member.number()))),
        Reply::Nothing | Reply::Old | Reply::Preparing | Reply::Busy | Reply::Full => Ok(()),
    }
}

/// A version and a value.
fn push_found(frame: &mut Vec<u8>, version: u64, value: &[u8]) -> Result<(), OutOfMemory>
    requires { length value.now ≤ longest_value }
    ensures { OnOk result (frame.new.items ≡ frame.old.items ++ spelling (reply_fields_of 0 reply_kinds.Found) (ReplyValue version value.now)) }
{
    push_u64(frame, version)?;
    push_u32_if(frame, true, value.len() as u32)?;
    push_bytes(frame, value)?;
    Ok(())
}

/// The kind of a reply.
fn kind_of_reply(reply: &Reply) -> ReplyKind
    ensures { result ≡ reply_kind reply.now }
{
    match reply {
        Reply::Done(_) => ReplyKind::Done,
        Reply::Differs(_) => ReplyKind::Differs,
        Reply::Gone(_) => ReplyKind::Gone,
        Reply::Value(_, _) => ReplyKind::Found,
        Reply::Nothing => ReplyKind::Nothing,
        Reply::Old => ReplyKind::Old,
        Reply::Elsewhere(_) => ReplyKind::Elsewhere,
        Reply::Preparing => ReplyKind::Preparing,
        Reply::Busy => ReplyKind::Busy,
        Reply::Full => ReplyKind::Full,
    }
}

/// The head of a frame: the cluster's, the kind, and who sends and receives it.
fn push_head(
    frame: &mut Vec<u8>,
    shape: &Shape,
    kind: Kind,
    from: u8,
    to: u8,
) -> Result<(), OutOfMemory>
    ensures { OnOk result (frame.new.items ≡ frame.old.items ++ head_text shape.now kind from to) }
{
    push_byte(frame, FIRST)?;
    push_byte(frame, SECOND)?;
    push_byte(frame, VERSION)?;
    push_byte(frame, shape.faults())?;
    push_byte(frame, shape.need())?;
    push_byte(frame, kind.byte())?;
    push_byte(frame, from)?;
    push_byte(frame, to)
}

/// A whole message.
fn push_frame(frame: &mut Vec<u8>, shape: &Shape, message: &Message) -> Result<(), OutOfMemory>
    requires { Fits (frame_fields shape.now) message.now }
    ensures { OnOk result (frame.new.items ≡ frame.old.items ++ spelling (frame_fields shape.now) message.now) }
{
    let k = shape.need();
    match message {
        Message::Peer {
            from,
            to,
            term,
            body,
        } => {
            let kind = Kind::Peer(kind_of_peer(body));
            push_head(frame, shape, kind, from.number(), to.number())?;
            push_said(frame, k, *term, body)?;
        }
        Message::Request { to, request } => {
            push_head(frame, shape, Kind::Request, CLIENT, to.number())?;
            push_request(frame, request)?;
        }
        Message::Answered {
            from,
            client,
            seq,
            reply,
        } => {
            push_head(frame, shape, Kind::Answered, from.number(), CLIENT)?;
            push_u64(frame, *client)?;
            push_u64(frame, *seq)?;
            push_reply(frame, reply)?;
        }
    }
    Ok(())
}
