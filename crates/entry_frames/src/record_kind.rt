//! The kinds of a journal's records: the first byte of their spelling.
ghost use Rattle.std.specs.Prelude.{◌≡◌};

use crate::fault::FrameFault;
use crate::fields::Fields;

/// The kind of a record.
#[derive(Clone, Copy, Debug, PartialEq, Eq)]
pub enum RecordKind {
    Term,
    Add,
    Cut,
    Whole,
    Commit,
}

impl RecordKind {
    ghost use Rattle.std.specs.Prelude.{Some, None, if◌then◌else◌, true};
    ghost use Rattle.entry_frames.specs.Formats.{U8, number_at};
    ghost use Rattle.entry_frames.specs.Records.{record_byte, record_kind_with, is_record_byte};
    ghost use Rattle.entry_frames.specs.Steps.{ReadsByte};

    /// The byte that it is written as.
    pub fn byte(self) -> u8
        ensures { result ≡ record_byte self }
    {
        match self {
            RecordKind::Term => 1,
            RecordKind::Add => 2,
            RecordKind::Cut => 3,
            RecordKind::Whole => 4,
            RecordKind::Commit => 5,
        }
    }

    /// The kind that is written as that byte, if one is.
    fn with_byte(byte: u8) -> Option<RecordKind>
        ensures { result ≡ (if is_record_byte byte then Some (record_kind_with byte) else None) }
    {
        match byte {
            1 => Some(RecordKind::Term),
            2 => Some(RecordKind::Add),
            3 => Some(RecordKind::Cut),
            4 => Some(RecordKind::Whole),
            5 => Some(RecordKind::Commit),
            _ => None,
        }
    }

    /// Reads a kind off the front of what is left of a body.
    pub fn read(fields: &mut Fields<'_>) -> Result<RecordKind, FrameFault>
        ensures { ReadsByte record_kind_with result fields.new (number_at true U8 is_record_byte fields.old) }
    {
        let at = fields.at();
        let byte = fields.byte(0, u8::MAX)?;
        RecordKind::with_byte(byte).ok_or(FrameFault::Bad(at))
    }
}
