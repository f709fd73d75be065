//! The groups of a file, one behind the other.
ghost use Rattle.std.specs.Prelude.{◌≤◌, length, IfOk};
ghost use Rattle.synced_log.specs.Walks.{WalksWhole};

use crate::header::HEADER;
use crate::outline::Outline;
use crate::records::apply_group;
use crate::span::{GroupSpan, TO_BODY};
use craft_base::{OutOfMemory, Shape};
use std::alloc::Global;

/// A gate that is open.
pub const OPEN: u8 = 1;

/// How the groups of a file end, and at which offset.
#[derive(Clone, Copy, Debug, PartialEq, Eq)]
pub enum Ended {
    /// At a gate that isn't open.
    Closed(u64),
    /// At the first fault.
    Faulty(u64),
}

/// The spans of a file's groups behind its header, and how they end. Each record is tested before it is applied. The only
/// error is want of memory.
pub fn walk(
    alloc: Global,
    shape: &Shape,
    file: &[u8],
) -> Result<(Vec<GroupSpan>, Ended), OutOfMemory>
    requires { 32 ≤ length file.now }
    ensures { IfOk result (λ x. WalksWhole shape.now file.now x.0.items x.1) }
{
    let mut outline = Outline::new(alloc);
    let mut spans = Vec::new(alloc);
    let mut at = HEADER;
    while at < file.len() {
        if file[at] != OPEN {
            return Ok((spans, Ended::Closed(at as u64)));
        }
        let Some(len) = apply_group(shape, &mut outline, &file[at + 1..])? else {
            return Ok((spans, Ended::Faulty(at as u64)));
        };
        spans.push(GroupSpan {
            gate: at as u64,
            len,
        })?;
        at += TO_BODY + len;
    }
    Ok((spans, Ended::Faulty(at as u64)))
}
