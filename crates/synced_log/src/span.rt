//! Where a group lies in a file.

/// How far behind the offset of its gate a group's body begins: the gate is one byte, the body's length eight.
pub const TO_BODY: usize = 9;

/// The offset of a group's gate, and the length of its body.
#[derive(Clone, Copy, Debug, PartialEq, Eq)]
pub struct GroupSpan {
    pub gate: u64,
    pub len: usize,
}
