//! The kinds of replies to clients: the first byte of their spelling.
ghost use Rattle.std.specs.Prelude.{◌≡◌};

use crate::fault::FrameFault;
use crate::fields::Fields;

/// The kind of a reply.
#[derive(Clone, Copy, Debug, PartialEq, Eq)]
pub enum ReplyKind {
    Done,
    Differs,
    Gone,
    Found,
    Nothing,
    Old,
    Elsewhere,
    Preparing,
    Busy,
    Full,
}

impl ReplyKind {
    ghost use Rattle.std.specs.Prelude.{Some, None, if◌then◌else◌, true};
    ghost use Rattle.entry_frames.specs.Formats.{U8, number_at};
    ghost use Rattle.entry_frames.specs.Replies.{reply_byte, reply_kind_with, is_reply_byte};
    ghost use Rattle.entry_frames.specs.Steps.{ReadsByte};

    /// The byte that it is written as.
    pub fn byte(self) -> u8
        ensures { result ≡ reply_byte self }
    {
        match self {
            ReplyKind::Done => 1,
            ReplyKind::Differs => 2,
            ReplyKind::Gone => 3,
            ReplyKind::Found => 4,
            ReplyKind::Nothing => 5,
            ReplyKind::Old => 6,
            ReplyKind::Elsewhere => 7,
            ReplyKind::Preparing => 8,
            ReplyKind::Busy => 9,
            ReplyKind::Full => 10,
        }
    }

    /// The kind that is written as that byte, if one is.
    fn with_byte(byte: u8) -> Option<ReplyKind>
        ensures { result ≡ (if is_reply_byte byte then Some (reply_kind_with byte) else None) }
    {
        match byte {
            1 => Some(ReplyKind::Done),
            2 => Some(ReplyKind::Differs),
            3 => Some(ReplyKind::Gone),
            4 => Some(ReplyKind::Found),
            5 => Some(ReplyKind::Nothing),
            6 => Some(ReplyKind::Old),
            7 => Some(ReplyKind::Elsewhere),
            8 => Some(ReplyKind::Preparing),
            9 => Some(ReplyKind::Busy),
            10 => Some(ReplyKind::Full),
            _ => None,
        }
    }

    /// Reads a kind off the front of what is left of a frame.
    pub fn read(fields: &mut Fields<'_>) -> Result<ReplyKind, FrameFault>
        ensures { ReadsByte reply_kind_with result fields.new (number_at true U8 is_reply_byte fields.old) }
    {
        let at = fields.at();
        let byte = fields.byte(0, u8::MAX)?;
        ReplyKind::with_byte(byte).ok_or(FrameFault::Bad(at))
    }
}
