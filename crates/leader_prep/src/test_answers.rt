//! Logs and answers for the tests.
use crate::kept_log::KeptLog;
use crate::parts::first_part;
use crate::{Prep, Verdicts};
use craft_base::{MemberId, Shape};
use entry_frames::{EntryView, Kind, PeerKind};
use peer_frames::MessageView;
use std::alloc::{AllocError, Global};
use std::process::Abort;
use std::test::Fail;

/// An entry: a Noop of a term; or a Put of client 7, by its term, its number, and what is held of its two bytes. Any two
/// fragments rebuild them: of 00 80 the members 0 to 4 have 80, 1d, 9d, 3a and ba.
#[derive(Clone, Copy)]
pub(crate) enum Held {
    Noop(u8),
    Part(u8, u8, u8),
    Whole(u8, u8, [u8; 2]),
}

/// Adds the spelling of an entry.
fn push_entry(bytes: &mut Vec<u8>, held: Held) -> Result<(), AllocError> {
    match held {
        Held::Noop(term) => {
            bytes.extend_from_slice(&[1, 0, 0, 0, 0, 0, 0, 0, 0, term])?;
            bytes.extend_from_slice(&[0; 17])
        }
        Held::Part(term, seq, byte) => {
            push_put(bytes, 2, term, seq)?;
            bytes.push(byte)?;
            Ok(())
        }
        Held::Whole(term, seq, value) => {
            push_put(bytes, 1, term, seq)?;
            bytes.extend_from_slice(&value)
        }
    }
}

/// Adds what stands before the bytes of a Put.
fn push_put(bytes: &mut Vec<u8>, tag: u8, term: u8, seq: u8) -> Result<(), AllocError> {
    bytes.extend_from_slice(&[tag, 1, 0, 0, 0, 0, 0, 0, 0, term])?;
    bytes.extend_from_slice(&[0, 0, 0, 0, 0, 0, 0, 7, 0, 0, 0, 0, 0, 0, 0, seq])?;
    bytes.extend_from_slice(&[1, 0x61, 0, 0, 0, 2])
}

/// The spellings of entries, one after the other.
pub(crate) fn bytes_of(alloc: Global, entries: &[Held]) -> Result<Vec<u8>, AllocError> {
    let mut bytes = Vec::new(alloc);
    for held in entries {
        push_entry(&mut bytes, *held)?;
    }
    Ok(bytes)
}

/// The log of at most sixteen entries that these bytes are, committed up to the first of them.
pub(crate) fn log_of<'a>(alloc: Global, bytes: &'a [u8]) -> Result<KeptLog<'a>, Fail> {
    let mut log = KeptLog::new(alloc, 2);
    let mut rest = bytes;
    for place in 0..16u64 {
        if place == 1 {
            log.commit_all();
        }
        if rest.is_empty() {
            return Ok(log);
        }
        let (view, len) = EntryView::read(2, rest)?;
        log.push(view)?;
        rest = rest.get(len..).ok_or("no rest")?;
    }
    Ok(log)
}

/// An Answer of term 9: who shows it, from which index on, and the last index of its log.
#[derive(Clone, Copy)]
pub(crate) struct Shown {
    pub from: u8,
    pub start: u8,
    pub last: u8,
}

/// The bytes of an Answer with these entries.
fn frame_of(
    alloc: Global,
    prep: &Prep,
    shown: Shown,
    entries: &[Held],
) -> Result<Vec<u8>, AllocError> {
    let mut bytes = Vec::new(alloc);
    let faults = prep.shape.faults();
    bytes.extend_from_slice(&[0x43, 0x52, 1, faults, 2, 6, shown.from, prep.me.number()])?;
    for number in [9, shown.start, shown.last] {
        bytes.extend_from_slice(&[0, 0, 0, 0, 0, 0, 0, number])?;
    }
    bytes.push(entries.len().min(8) as u8)?;
    bytes.extend_from_slice(&bytes_of(alloc, entries)?)?;
    Ok(bytes)
}

/// What is decided by an answer with these entries.
#[tactic(auto, using(crate::proofs::Ranges::told))]
pub(crate) fn taken(
    rt: &impl Abort,
    alloc: Global,
    prep: Prep,
    log: &KeptLog<'_>,
    shown: Shown,
    entries: &[Held],
) -> Result<(Prep, Verdicts), Fail> {
    let frame = frame_of(alloc, &prep, shown, entries)?;
    let answer = MessageView::read(&prep.shape, &frame)?;
    let Kind::Peer(PeerKind::Answer) = answer.message_kind() else {
        return Err("no Answer".into());
    };
    assert!(rt; answer.count() <= 8);
    assert!(rt; log.k() == prep.shape.need());
    assert!(rt; prep.cursor == first_part(log));
    Ok(prep.take(log, &answer)?)
}

/// The preparation of a member with that log, in a cluster that survives so many failures.
pub(crate) fn begun(alloc: Global, faults: u8, me: u8, log: &KeptLog<'_>) -> Result<Prep, Fail> {
    let shape = Shape::new(faults, 2)?;
    let me = MemberId::new(&shape, me).ok_or("no such member")?;
    Ok(Prep::begin(alloc, log, &shape, me)?)
}

/// What was rebuilt, where the log is cut, whether all is decided, and the cursor that is left.
pub(crate) fn text_of(alloc: Global, prep: &Prep, made: &Verdicts) -> Result<String, AllocError> {
    let cursor = prep.cursor();
    format!(in alloc; "{:?} {:?} {} {cursor:?}", made.wholes, made.cut, made.done)
}
