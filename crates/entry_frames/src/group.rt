//! Groups of records: what a journal takes or leaves as one.
ghost use Rattle.std.specs.Prelude.{◌≡◌, ◌≤◌, ◌↔◌, ◌++◌, [], ℕ, length, drop, true, IfOk};
ghost use Rattle.std.specs.Int.{w64, to_be_bytes};
ghost use Rattle.entry_frames.specs.Formats.{Fits, spelling};
ghost use Rattle.entry_frames.specs.Records.{record_fields, group_bytes};
ghost use Rattle.entry_frames.specs.RecordViews.{record_of, HasK};

use crate::record_view::RecordView;
use crate::record_writing::push_record;
use craft_base::OutOfMemory;
use std::alloc::Global;
use std::marker::Model;

/// The bytes of the length that stands in front of a body.
const LENGTH: usize = 8;

/// A group that is still to be closed. Contracts see the body so far.
#[derive(Drop)]
pub struct GroupBuilder {
    bytes: Vec<u8>,
}

impl Model for GroupBuilder {
    ghost use Rattle.std.specs.Prelude.{List, ℕ, drop, length, ◌≤◌};

    ghost Value = { List ℕ };

    ghost view = { λ builder. drop 8 builder.bytes.items };

    ghost invariant = { λ builder. 8 ≤ length builder.bytes.items };
}

/// What stands behind a gate of a journal: the length of a body, the body, and the next gate, which is closed. Contracts see
/// the body, which is the spellings of its records.
#[derive(Debug, Drop)]
pub struct Group {
    bytes: Vec<u8>,
}

impl Model for Group {
    ghost use Rattle.std.specs.Prelude.{List, ℕ};
    ghost use Rattle.entry_frames.specs.Records.{body_within, IsGroup};

    ghost Value = { List ℕ };

    ghost view = { λ group. body_within group.bytes.items };

    ghost invariant = { λ group. IsGroup group.bytes.items };
}

impl GroupBuilder {
    /// A group without records. The only error is want of memory.
    pub fn new(alloc: Global) -> Result<GroupBuilder, OutOfMemory>
        ensures { IfOk result (λ builder. builder ≡ []) }
    {
        let mut bytes = Vec::new(alloc);
        bytes.extend_from_slice(&[0; LENGTH])?;
        Ok(GroupBuilder { bytes })
    }

    /// Adds a record's one spelling. The only error is want of memory; the group is then gone.
    pub fn put(self, item: &RecordView<'_>) -> Result<GroupBuilder, OutOfMemory>
        requires { (k : ℕ) → HasK k item.now → Fits (record_fields k) (record_of item.now) }
        ensures { IfOk result (λ builder. (k : ℕ) → HasK k item.now → builder ≡ self ++ spelling (record_fields k) (record_of item.now)) }
    {
        let mut bytes = self.bytes;
        push_record(&mut bytes, item)?;
        Ok(GroupBuilder { bytes })
    }

    /// Closes the group. The only error is want of memory; the group is then gone.
    pub fn close(self) -> Result<Group, OutOfMemory>
        ensures { IfOk result (λ group. group ≡ self) }
    {
        let mut bytes = self.bytes;
        let len = bytes.len() - LENGTH;
        bytes.push(0)?;
        write_length(&mut bytes, len as u64);
        Ok(Group { bytes })
    }
}

/// Writes a length over the first bytes.
fn write_length(bytes: &mut [u8], len: u64)
    requires { 8 ≤ length bytes.old }
    ensures { bytes.new ≡ to_be_bytes w64 len ++ drop 8 bytes.old }
{
    let (front, _) = bytes.split_at_mut(LENGTH);
    front.copy_from_slice(&len.to_be_bytes());
}

impl Group {
    /// Whether no record was put into it.
    pub fn is_empty(&self) -> bool
        ensures { (result ≡ true) ↔ (self.now ≡ []) }
    {
        self.bytes.len() == LENGTH + 1
    }

    /// The bytes that follow a gate: the length, the body and the next gate, which is closed.
    pub fn as_bytes(&self) -> &[u8]
        ensures { result.now ≡ group_bytes self.now }
    {
        &self.bytes
    }
}
