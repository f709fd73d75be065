//! The groups of a file that was read.
ghost use Rattle.std.specs.Prelude.{◌≡◌, ◌≤◌, ◌+◌, length, take, drop, slice_get, Some, MatchOption};

use crate::span::{GroupSpan, TO_BODY};
use craft_base::Shape;
use std::marker::Model;

/// The groups of a journal, each with the offset of its gate and its body. Each of their records can be applied to what the
/// records before it leave.
#[derive(Drop)]
pub struct Groups {
    shape: Shape,
    file: Vec<u8>,
    spans: Vec<GroupSpan>,
}

impl Model for Groups {
    ghost use Rattle.synced_log.specs.Journal.{Kept, AreKept};
    ghost use Rattle.synced_log.specs.Walks.{all_placed, AllInside};

    ghost Value = { Kept };

    ghost view = { λ g. record { shape = g.shape; placed = all_placed g.file.items g.spans.items } };

    ghost invariant = { λ g. AreKept (record { shape = g.shape; placed = all_placed g.file.items g.spans.items }) × AllInside g.file.items g.spans.items };
}

impl Groups {
    ghost use Rattle.synced_log.specs.Journal.{AreKept, Kept};
    ghost use Rattle.synced_log.specs.Walks.{all_placed, AllInside};

    /// The groups at these spans of a file.
    pub(crate) fn of(shape: &Shape, file: Vec<u8>, spans: Vec<GroupSpan>) -> Groups
        requires kept { AreKept (record { shape = shape.now; placed = all_placed file.items spans.items }) }
        requires inside { AllInside file.items spans.items }
        ensures { result ≡ record { shape = shape.now; placed = all_placed file.items spans.items } }
    {
        Groups {
            shape: *shape,
            file,
            spans,
        }
    }

    /// How many groups there are.
    pub fn count(&self) -> u64
        ensures value { result ≡ length self.now.placed }
        ensures kept { AreKept self.now }
    {
        self.spans.len() as u64
    }

    /// The offset of a group's gate, and its body, the first group being number 0; `None` exactly where there are no more.
    pub fn at(&self, n: u64) -> Option<(u64, &[u8])>
        ensures { MatchOption result (length self.now.placed ≤ n) (λ x. slice_get self.now.placed n ≡ Some (record { gate = x.0; body = x.1.now })) }
    {
        if n >= self.spans.len() as u64 {
            return None;
        }
        let span = self.spans[n as usize];
        Some((span.gate, body_at(&self.file, span)))
    }
}

/// The body of the group at that span.
fn body_at(file: &[u8], span: GroupSpan) -> &[u8]
    requires { span.gate + 9 + span.len ≤ length file.now }
    ensures { result.now ≡ take span.len (drop (span.gate + 9) file.now) }
{
    let start = span.gate as usize + TO_BODY;
    &file[start..start + span.len]
}
