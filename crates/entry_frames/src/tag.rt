//! In which form an entry goes: the first byte of its spelling.
ghost use Rattle.std.specs.Prelude.{◌≡◌};

use crate::fault::FrameFault;
use crate::fields::Fields;

/// The form of an entry.
#[derive(Clone, Copy, Debug, PartialEq, Eq)]
pub enum Tag {
    /// All bytes of its value.
    Whole,
    /// A fragment of its value.
    Part,
}

impl Tag {
    ghost use Rattle.std.specs.Prelude.{Some, None, if◌then◌else◌, true};
    ghost use Rattle.entry_frames.specs.Entries.{tag_byte, tag_with, is_tag_byte, is_part};
    ghost use Rattle.entry_frames.specs.Formats.{U8, number_at};
    ghost use Rattle.entry_frames.specs.Steps.{ReadsByte};

    /// The byte that it is written as.
    pub fn byte(self) -> u8
        ensures { result ≡ tag_byte self }
    {
        match self {
            Tag::Whole => 1,
            Tag::Part => 2,
        }
    }

    /// Whether it is a fragment.
    pub fn is_part(self) -> bool
        ensures { result ≡ is_part self }
    {
        self == Tag::Part
    }

    /// The form that is written as that byte, if one is.
    pub fn with_byte(byte: u8) -> Option<Tag>
        ensures { result ≡ (if is_tag_byte byte then Some (tag_with byte) else None) }
    {
        match byte {
            1 => Some(Tag::Whole),
            2 => Some(Tag::Part),
            _ => None,
        }
    }

    /// Reads a tag off the front of what is left of a frame.
    pub fn read(fields: &mut Fields<'_>) -> Result<Tag, FrameFault>
        ensures { ReadsByte tag_with result fields.new (number_at true U8 is_tag_byte fields.old) }
    {
        let at = fields.at();
        let byte = fields.byte(0, u8::MAX)?;
        Tag::with_byte(byte).ok_or(FrameFault::Bad(at))
    }
}
