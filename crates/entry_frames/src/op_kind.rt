//! The operations of entries and requests as bytes.
ghost use Rattle.std.specs.Prelude.{◌≡◌};

use crate::fault::FrameFault;
use crate::fields::Fields;
use crate::tag::Tag;
use craft_base::Op;

/// An operation without the version that it expects.
#[derive(Clone, Copy, Debug, PartialEq, Eq)]
pub enum OpKind {
    Noop,
    Put,
    PutIf,
    Del,
    Get,
}

impl OpKind {
    ghost use Rattle.std.specs.Prelude.{Some, None, if◌then◌else◌, true, ◌||◌, not};
    ghost use Rattle.entry_frames.specs.Operations.{row, is_op_byte, op_kind_with, op_kind, op_with};
    ghost use Rattle.entry_frames.specs.Entries.{is_part, is_op_byte_under};
    ghost use Rattle.entry_frames.specs.Formats.{U8, number_at};
    ghost use Rattle.entry_frames.specs.Steps.{ReadsByte};

    /// Of which kind an operation is.
    pub fn of(op: Op) -> OpKind
        ensures { result ≡ op_kind op }
    {
        match op {
            Op::Noop => OpKind::Noop,
            Op::Put => OpKind::Put,
            Op::PutIf(_) => OpKind::PutIf,
            Op::Del => OpKind::Del,
            Op::Get => OpKind::Get,
        }
    }

    /// The operation of this kind that expects this version, where it expects one.
    pub fn with_expected(self, version: u64) -> Op
        ensures { result ≡ op_with self version }
    {
        match self {
            OpKind::Noop => Op::Noop,
            OpKind::Put => Op::Put,
            OpKind::PutIf => Op::PutIf(version),
            OpKind::Del => Op::Del,
            OpKind::Get => Op::Get,
        }
    }

    /// The byte that it is written as.
    pub fn byte(self) -> u8
        ensures { result ≡ (row self).byte }
    {
        match self {
            OpKind::Noop => 0,
            OpKind::Put => 1,
            OpKind::PutIf => 2,
            OpKind::Del => 3,
            OpKind::Get => 4,
        }
    }

    /// The kind that is written as that byte, if one is.
    pub fn with_byte(byte: u8) -> Option<OpKind>
        ensures { result ≡ (if is_op_byte byte then Some (op_kind_with byte) else None) }
    {
        match byte {
            0 => Some(OpKind::Noop),
            1 => Some(OpKind::Put),
            2 => Some(OpKind::PutIf),
            3 => Some(OpKind::Del),
            4 => Some(OpKind::Get),
            _ => None,
        }
    }

    /// Whether a client asks for it, under a number and for a key.
    pub fn is_asked(self) -> bool
        ensures { result ≡ (row self).asked }
    {
        self != OpKind::Noop
    }

    /// Whether it names the version that it expects.
    pub fn expects(self) -> bool
        ensures { result ≡ (row self).expects }
    {
        self == OpKind::PutIf
    }

    /// Whether it has a value.
    pub fn sets(self) -> bool
        ensures { result ≡ (row self).sets }
    {
        matches!(self, OpKind::Put | OpKind::PutIf)
    }

    /// Whether an entry with that tag can have it: only what has a value can be held as a part.
    fn goes_under(self, tag: Tag) -> bool
        ensures { result ≡ (not (is_part tag) || (row self).sets) }
    {
        !tag.is_part() || self.sets()
    }

    /// Reads the operation of an entry with that tag off the front of what is left of a frame.
    pub fn read_under(fields: &mut Fields<'_>, tag: Tag) -> Result<OpKind, FrameFault>
        ensures { ReadsByte op_kind_with result fields.new (number_at true U8 (is_op_byte_under tag) fields.old) }
    {
        let at = fields.at();
        let byte = fields.byte(0, u8::MAX)?;
        match OpKind::with_byte(byte) {
            Some(kind) if kind.goes_under(tag) => Ok(kind),
            _ => Err(FrameFault::Bad(at)),
        }
    }
}
