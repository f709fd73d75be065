//! What tests of clients share: requests, the frames that a leader takes, and a member that leads.
ghost use Rattle.std.specs.Prelude.{◌≡◌, ◌==◌, ◌||◌, length, IfOk};
ghost use Rattle.entry_frames.specs.Formats.{Fits};
ghost use Rattle.entry_frames.specs.MessageFields.{request_fields};
ghost use Rattle.entry_frames.specs.Operations.{expected_version, row};

use super::text::told_text;
use super::{started, take};
use crate::{Core, Event, Output, Turned};
use craft_base::{Blob, Op, Request};
use entry_frames::{GREATEST, LONGEST_VALUE, LogView, OpKind};
use std::alloc::Global;
use std::test::Fail;

/// What client 7 asks for, in short: its number, the operation, the key and the value.
pub(crate) type Row<'a> = (u64, Op, &'a [u8], &'a [u8]);

/// The version that an operation expects, 0 where it names none.
fn expected(op: Op) -> u64
    ensures { result ≡ expected_version op }
{
    match op {
        Op::PutIf(version) => version,
        Op::Noop | Op::Put | Op::Del | Op::Get => 0,
    }
}

/// Whether that value goes with the operation: only some set one.
fn suits(kind: OpKind, value: &[u8]) -> bool
    ensures { result ≡ ((row kind).sets || (length value.now == 0)) }
{
    kind.sets() || value.is_empty()
}

/// A request, where it is one that a client can make.
pub(crate) fn asked(alloc: Global, client: u64, row: Row<'_>) -> Result<Request, Fail>
    ensures { IfOk result (λ r. Fits request_fields r) }
{
    let (seq, op, key, value) = row;
    if client == 0 || client > GREATEST || seq == 0 || seq > GREATEST {
        return Err("no such number".into());
    }
    if key.is_empty() || key.len() > 255 || value.len() > LONGEST_VALUE as usize {
        return Err("too long".into());
    }
    let kind = OpKind::of(op);
    if !kind.is_asked() || !suits(kind, value) || expected(op) > GREATEST {
        return Err("not asked for".into());
    }
    Ok(Request {
        client,
        seq,
        op,
        key: Blob::copy_of(alloc, key)?,
        value: Blob::copy_of(alloc, value)?,
    })
}

/// The turn of a request of client 7, at place 5.
pub(crate) fn call(alloc: Global, core: Core, row: Row<'_>) -> Result<(Core, Turned), Fail> {
    let request = asked(alloc, 7, row)?;
    let event = Event::Call {
        place: 5,
        request: &request,
    };
    Ok(core.turn(&event)?)
}

/// How a frame of three members begins, each of which has each value whole: its kind, who sends it, who receives it, and its term.
pub(crate) fn frame_of(
    alloc: Global,
    kind: u8,
    from: u8,
    to: u8,
    term: u64,
) -> Result<Vec<u8>, Fail> {
    let mut frame = Vec::new(alloc);
    frame.extend_from_slice(&[0x43, 0x52, 1, 1, 1, kind, from, to])?;
    add_numbers(&mut frame, &[term])?;
    Ok(frame)
}

/// Adds numbers of eight bytes.
pub(crate) fn add_numbers(frame: &mut Vec<u8>, numbers: &[u64]) -> Result<(), Fail> {
    for number in numbers {
        frame.extend_from_slice(&number.to_be_bytes())?;
    }
    Ok(())
}

/// Member 1 tells member 0 that its log is member 0's up to `prev + count`, and that it holds that whole.
pub(crate) fn matched(
    alloc: Global,
    core: Core,
    term: u64,
    prev: u64,
    count: u8,
) -> Result<(Core, Turned), Fail> {
    let mut frame = frame_of(alloc, 4, 1, 0, term)?;
    frame.push(1)?;
    add_numbers(&mut frame, &[prev])?;
    let mut mask = 0;
    for _ in 0..count {
        mask = mask << 1_u32 | 1;
    }
    frame.extend_from_slice(&[count, mask])?;
    take(core, &frame)
}

/// A member has waited long enough and stands for election, and the other one votes for it.
pub(crate) fn elected(
    alloc: Global,
    core: Core,
    me: u8,
    other: u8,
    term: u64,
) -> Result<(Core, Turned), Fail> {
    let mut core = core;
    for _ in 0..3 {
        let (next, _turned) = core.turn(&Event::Tick { word: 0 })?;
        core = next;
    }
    let mut frame = frame_of(alloc, 2, other, me, term)?;
    frame.push(1)?;
    take(core, &frame)
}

/// Member 0 leads term 1, and its empty entry is committed.
pub(crate) fn leading(alloc: Global) -> Result<Core, Fail> {
    let (core, _turned) = elected(alloc, started(alloc, 0)?, 0, 1, 1)?;
    let (core, _turned) = matched(alloc, core, 1, 0, 1)?;
    Ok(core)
}

/// What member 0 tells client 7 of a request, once member 1 holds its entry too.
pub(crate) fn answered(alloc: Global, core: Core, row: Row<'_>) -> Result<(Core, String), Fail> {
    let (core, _turned) = call(alloc, core, row)?;
    let last = core.store().last();
    let (core, turned) = matched(alloc, core, 1, last.saturating_sub(1), 1)?;
    Ok((core, replies_text(alloc, &turned)?))
}

/// What clients are told, one after the other.
pub(crate) fn replies_text(alloc: Global, turned: &Turned) -> Result<String, Fail> {
    let mut text = String::new(alloc);
    for output in &turned.outputs {
        if let Output::Reply { .. } = output {
            if !text.is_empty() {
                text.push_str("; ")?;
            }
            text.push_str(&told_text(alloc, output)?)?;
        }
    }
    Ok(text)
}
