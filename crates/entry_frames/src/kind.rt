//! The kinds of messages: the sixth byte of their spelling.
ghost use Rattle.std.specs.Prelude.{◌≡◌};

use crate::fault::FrameFault;
use crate::fields::Fields;

/// The kind of a message of one member to another.
#[derive(Clone, Copy, Debug, PartialEq, Eq)]
pub enum PeerKind {
    Vote,
    VoteReply,
    Append,
    /// Matched or Refused.
    AppendReply,
    Ask,
    Answer,
}

/// The kind of a message.
#[derive(Clone, Copy, Debug, PartialEq, Eq)]
pub enum Kind {
    Peer(PeerKind),
    Request,
    Answered,
}

impl Kind {
    ghost use Rattle.std.specs.Prelude.{Some, None, if◌then◌else◌, true};
    ghost use Rattle.entry_frames.specs.Formats.{U8, number_at};
    ghost use Rattle.entry_frames.specs.Kinds.{kind_byte, kind_with, is_kind_byte};
    ghost use Rattle.entry_frames.specs.Steps.{ReadsByte};

    /// The byte that it is written as.
    pub fn byte(self) -> u8
        ensures { result ≡ kind_byte self }
    {
        match self {
            Kind::Peer(PeerKind::Vote) => 1,
            Kind::Peer(PeerKind::VoteReply) => 2,
            Kind::Peer(PeerKind::Append) => 3,
            Kind::Peer(PeerKind::AppendReply) => 4,
            Kind::Peer(PeerKind::Ask) => 5,
            Kind::Peer(PeerKind::Answer) => 6,
            Kind::Request => 7,
            Kind::Answered => 8,
        }
    }

    /// The kind that is written as that byte, if one is.
    fn with_byte(byte: u8) -> Option<Kind>
        ensures { result ≡ (if is_kind_byte byte then Some (kind_with byte) else None) }
    {
        match byte {
            1 => Some(Kind::Peer(PeerKind::Vote)),
            2 => Some(Kind::Peer(PeerKind::VoteReply)),
            3 => Some(Kind::Peer(PeerKind::Append)),
            4 => Some(Kind::Peer(PeerKind::AppendReply)),
            5 => Some(Kind::Peer(PeerKind::Ask)),
            6 => Some(Kind::Peer(PeerKind::Answer)),
            7 => Some(Kind::Request),
            8 => Some(Kind::Answered),
            _ => None,
        }
    }

    /// Reads a kind off the front of what is left of a frame.
    pub fn read(fields: &mut Fields<'_>) -> Result<Kind, FrameFault>
        ensures { ReadsByte kind_with result fields.new (number_at true U8 is_kind_byte fields.old) }
    {
        let at = fields.at();
        let byte = fields.byte(0, u8::MAX)?;
        Kind::with_byte(byte).ok_or(FrameFault::Bad(at))
    }
}
