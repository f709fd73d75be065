//! Messages, seen where they lie.
ghost use Rattle.std.specs.Prelude.{◌≡◌, ◌≢◌, length, slice_get, IfOk, Ok};

use crate::frame_view::FrameView;
use crate::peer_view::PeerView;
use craft_base::{MemberId, OutOfMemory, Shape};
use entry_frames::{EntryView, Fields, FrameFault, Kind, Message};
use std::alloc::Global;
use std::marker::Model;

/// A message of a cluster, lent out of a datagram. It meets the ranges of docs/FORMATS.md, "Messages".
#[derive(Drop)]
pub struct MessageView<'a> {
    shape: Shape,
    frame: FrameView<'a>,
}

impl<'a> Model for MessageView<'a> {
    ghost use Rattle.peer_frames.specs.FrameViews.{ViewedFrame, IsFrame, message_of_view, FrameHasK};

    ghost Value = { ViewedFrame };

    ghost view = { λ v. record { shape = v.shape; frame = message_of_view v.frame } };

    ghost invariant = { λ v. IsFrame (record { shape = v.shape; frame = message_of_view v.frame }) × FrameHasK v.shape.need v.frame };
}

impl<'a> MessageView<'a> {
    ghost use Rattle.entry_frames.specs.Formats.{Fits, front_of, spelling, reading, reading_all};
    ghost use Rattle.entry_frames.specs.declared.message.Message.{Message};
    ghost use Rattle.entry_frames.specs.declared.kind.Kind.TheVariants as kinds;
    ghost use Rattle.entry_frames.specs.Kinds.{kind_byte, kind_of};
    ghost use Rattle.entry_frames.specs.MessageFields.{frame_fields};
    ghost use Rattle.entry_frames.specs.MessageParts.{sender_byte, receiver_byte, body_of, term_of, last_term_of, last_of, granted_of, prev_of, prev_term_of, commit_of, entries_of, verdict_of, mask_of, next_of, start_of};
    ghost use Rattle.entry_frames.specs.Steps.{ReadsAll};
    ghost use Rattle.entry_frames.specs.Logs.{viewed_with};
    ghost use Rattle.peer_frames.specs.FrameViews.{said_in, body_behind, entries_told, asker_of, asked_number_of};

    /// Reads the message that these bytes are, all of them. Else the first fault from left to right; bytes behind the last
    /// field are out of range.
    pub fn read(shape: &Shape, bytes: &'a [u8]) -> Result<MessageView<'a>, FrameFault>
        // It is what the bytes spell, or the first field that ends past them or is out of range.
        ensures exact { ReadsAll (λ v. v.frame) result (reading_all (frame_fields shape.now) bytes.now) }
        ensures shape { IfOk result (λ v. v.shape ≡ shape.now) }

        // What is read is spelled so.
        ensures found { IfOk result (λ v. Fits (frame_fields shape.now) v.frame × (bytes.now ≡ spelling (frame_fields shape.now) v.frame)) }

        // What is spelled so is read.
        ensures only { (f : Message) → Fits (frame_fields shape.now) f → bytes.now ≡ spelling (frame_fields shape.now) f → ReadsAll (λ v. v.frame) result (Ok f) }
    {
        MessageView::all_of(shape, bytes)
    }

    /// The message that all of the bytes are.
    fn all_of(shape: &Shape, bytes: &'a [u8]) -> Result<MessageView<'a>, FrameFault>
        ensures exact { ReadsAll (λ v. v.frame) result (reading_all (frame_fields shape.now) bytes.now) }
        ensures shape { IfOk result (λ v. v.shape ≡ shape.now) }
    {
        let mut fields = Fields::of(bytes);
        let frame = FrameView::read(&mut fields, shape)?;
        if !fields.rest().is_empty() {
            return Err(FrameFault::Bad(fields.at()));
        }
        Ok(MessageView {
            shape: *shape,
            frame,
        })
    }

    /// Its kind: 1 Vote, 2 VoteReply, 3 Append, 4 Matched or Refused, 5 Ask, 6 Answer, 7 Request, 8 Answered.
    pub fn kind(&self) -> u8
        ensures { result ≡ kind_byte (kind_of self.now.frame) }
    {
        self.frame.kind().byte()
    }

    /// Its kind, by name.
    pub fn message_kind(&self) -> Kind
        ensures { result ≡ kind_of self.now.frame }
    {
        self.frame.kind()
    }

    /// Who sends it: a member, where it isn't a client's request.
    pub fn from(&self) -> MemberId
        requires { kind_of self.now.frame ≢ kinds.Request }
        ensures { result ≡ sender_byte self.now.frame }
    {
        match &self.frame {
            FrameView::Peer { from, .. } | FrameView::Answered { from, .. } => *from,
            FrameView::Request { .. } => unreachable!(),
        }
    }

    /// Who receives it: a member, where it isn't a reply to a client.
    pub fn to(&self) -> MemberId
        requires { kind_of self.now.frame ≢ kinds.Answered }
        ensures { result ≡ receiver_byte self.now.frame }
    {
        match &self.frame {
            FrameView::Peer { to, .. } | FrameView::Request { to, .. } => *to,
            FrameView::Answered { .. } => unreachable!(),
        }
    }

    /// The term of a peer message: 1 to 2^62; 0 of others.
    pub fn term(&self) -> u64
        ensures { result ≡ term_of self.now.frame }
    {
        match &self.frame {
            FrameView::Peer { term, .. } => *term,
            _ => 0,
        }
    }

    /// What a peer message says.
    fn body(&self) -> Option<&PeerView<'a>>
        ensures { body_behind result ≡ said_in self.now.frame }
    {
        match &self.frame {
            FrameView::Peer { body, .. } => Some(body),
            _ => None,
        }
    }

    /// The term of the last entry of a candidate's log; 0 but for a Vote.
    pub fn last_term(&self) -> u64
        ensures { result ≡ last_term_of (body_of self.now.frame) }
    {
        match self.body() {
            Some(PeerView::Vote { last_term, .. }) => *last_term,
            _ => 0,
        }
    }

    /// The index of a log's last entry, in a Vote and in an Answer; 0 else.
    pub fn last(&self) -> u64
        ensures { result ≡ last_of (body_of self.now.frame) }
    {
        match self.body() {
            Some(PeerView::Vote { last, .. } | PeerView::Answer { last, .. }) => *last,
            _ => 0,
        }
    }

    /// Whether a vote is granted; false but for a VoteReply.
    pub fn granted(&self) -> bool
        ensures { result ≡ granted_of (body_of self.now.frame) }
    {
        match self.body() {
            Some(PeerView::VoteReply { granted }) => *granted,
            _ => false,
        }
    }

    /// The index behind which entries stand, in an Append and in a Matched; 0 else.
    pub fn prev(&self) -> u64
        ensures { result ≡ prev_of (body_of self.now.frame) }
    {
        match self.body() {
            Some(PeerView::Append { prev, .. } | PeerView::Matched { prev, .. }) => *prev,
            _ => 0,
        }
    }

    /// The term at that index; 0 but for an Append.
    pub fn prev_term(&self) -> u64
        ensures { result ≡ prev_term_of (body_of self.now.frame) }
    {
        match self.body() {
            Some(PeerView::Append { prev_term, .. }) => *prev_term,
            _ => 0,
        }
    }

    /// The leader's commit index; 0 but for an Append.
    pub fn commit(&self) -> u64
        ensures { result ≡ commit_of (body_of self.now.frame) }
    {
        match self.body() {
            Some(PeerView::Append { commit, .. }) => *commit,
            _ => 0,
        }
    }

    /// How many entries it has, or, of a Matched, it speaks of: 0 to 8.
    pub fn count(&self) -> u8
        ensures { result ≡ entries_told (body_of self.now.frame) }
    {
        match self.body() {
            Some(PeerView::Append { entries, .. }) => entries.len(),
            Some(PeerView::Answer { slots, .. }) => slots.len(),
            Some(PeerView::Matched { count, .. }) => *count,
            _ => 0,
        }
    }

    /// Whether it is a Matched; of kind 4 alone the other is a Refused.
    pub fn is_matched(&self) -> bool
        ensures { result ≡ verdict_of (body_of self.now.frame) }
    {
        match self.body() {
            Some(PeerView::Matched { .. }) => true,
            _ => false,
        }
    }

    /// Which of the entries that a Matched speaks of its sender holds whole; 0 else.
    pub fn mask(&self) -> u8
        ensures { result ≡ mask_of (body_of self.now.frame) }
    {
        match self.body() {
            Some(PeerView::Matched { mask, .. }) => *mask,
            _ => 0,
        }
    }

    /// Where a leader may go on; 0 but for a Refused.
    pub fn next(&self) -> u64
        ensures { result ≡ next_of (body_of self.now.frame) }
    {
        match self.body() {
            Some(PeerView::Refused { next }) => *next,
            _ => 0,
        }
    }

    /// From which index on a log is asked for or shown; 0 but for an Ask and an Answer.
    pub fn start(&self) -> u64
        ensures { result ≡ start_of (body_of self.now.frame) }
    {
        match self.body() {
            Some(PeerView::Ask { start } | PeerView::Answer { start, .. }) => *start,
            _ => 0,
        }
    }

    /// The entry with that number of an Append or an Answer, counted from 0 and lent out of the datagram; `None` exactly where
    /// it has no more than `n`.
    pub fn entry(&self, n: u8) -> Option<EntryView<'a>>
        ensures { result ≡ viewed_with self.now.shape.need (slice_get (entries_of (body_of self.now.frame)) n) }
    {
        match &self.frame {
            FrameView::Peer { body, .. } => body.entry(n),
            _ => None,
        }
    }

    /// The client of a request or of a reply to one; 0 of a peer message.
    pub fn client(&self) -> u64
        ensures { result ≡ asker_of self.now.frame }
    {
        match &self.frame {
            FrameView::Peer { .. } => 0,
            FrameView::Request { request, .. } => request.client,
            FrameView::Answered { client, .. } => *client,
        }
    }

    /// The client's number of a request or of a reply to one; 0 of a peer message.
    pub fn seq(&self) -> u64
        ensures { result ≡ asked_number_of self.now.frame }
    {
        match &self.frame {
            FrameView::Peer { .. } => 0,
            FrameView::Request { request, .. } => request.seq,
            FrameView::Answered { seq, .. } => *seq,
        }
    }

    /// A message of its own. The only error is want of memory.
    pub fn to_message(&self, alloc: Global) -> Result<Message, OutOfMemory>
        ensures { IfOk result (λ message. message ≡ self.now.frame) }
    {
        self.frame.to_message(alloc)
    }
}
