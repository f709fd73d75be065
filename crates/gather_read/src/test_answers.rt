//! Entries, wants and answers for the tests.
use crate::Gather;
use craft_base::{MemberId, Shape};
use entry_frames::{EntryView, Kind, PeerKind};
use peer_frames::MessageView;
use std::alloc::{AllocError, Global};
use std::process::Abort;
use std::test::Fail;

/// An entry: a Noop of a term; or a Put of client 7, by its term, its number, and what is held of its two bytes. Where two or three
/// fragments rebuild them, the members 0 to 4 have 80, 1d, 9d, 3a and ba of 00 80.
#[derive(Clone, Copy)]
pub(crate) enum Held {
    Noop(u8),
    Part(u8, u8, u8),
    Whole(u8, u8, [u8; 2]),
}

/// Adds the spelling of an entry.
fn push_entry(bytes: &mut Vec<u8>, held: Held) -> Result<(), AllocError> {
    match held {
        Held::Noop(term) => {
            bytes.extend_from_slice(&[1, 0, 0, 0, 0, 0, 0, 0, 0, term])?;
            bytes.extend_from_slice(&[0; 17])
        }
        Held::Part(term, seq, byte) => {
            push_put(bytes, 2, term, seq)?;
            bytes.push(byte)?;
            Ok(())
        }
        Held::Whole(term, seq, value) => {
            push_put(bytes, 1, term, seq)?;
            bytes.extend_from_slice(&value)
        }
    }
}

/// Adds what stands before the bytes of a Put.
fn push_put(bytes: &mut Vec<u8>, tag: u8, term: u8, seq: u8) -> Result<(), AllocError> {
    bytes.extend_from_slice(&[tag, 1, 0, 0, 0, 0, 0, 0, 0, term])?;
    bytes.extend_from_slice(&[0, 0, 0, 0, 0, 0, 0, 7, 0, 0, 0, 0, 0, 0, 0, seq])?;
    bytes.extend_from_slice(&[1, 0x61, 0, 0, 0, 2])
}

/// An Answer of term 9: who shows it, from which index on, and the last index of its log.
#[derive(Clone, Copy)]
pub(crate) struct Shown {
    pub from: u8,
    pub start: u8,
    pub last: u8,
}

/// The bytes of an Answer with these entries.
fn frame_of(
    alloc: Global,
    gather: &Gather,
    shown: Shown,
    entries: &[Held],
) -> Result<Vec<u8>, AllocError> {
    let mut bytes = Vec::new(alloc);
    let (faults, need) = (gather.shape.faults(), gather.shape.need());
    bytes.extend_from_slice(&[0x43, 0x52, 1, faults, need, 6])?;
    bytes.extend_from_slice(&[shown.from, gather.me.number()])?;
    for number in [9, shown.start, shown.last] {
        bytes.extend_from_slice(&[0, 0, 0, 0, 0, 0, 0, number])?;
    }
    bytes.push(entries.len().min(8) as u8)?;
    for held in entries {
        push_entry(&mut bytes, *held)?;
    }
    Ok(bytes)
}

/// What is had after an answer with these entries, as text.
pub(crate) fn taken(
    alloc: Global,
    gather: Gather,
    shown: Shown,
    entries: &[Held],
) -> Result<(Gather, String), Fail> {
    let frame = frame_of(alloc, &gather, shown, entries)?;
    let answer = MessageView::read(&gather.shape, &frame)?;
    let Kind::Peer(PeerKind::Answer) = answer.message_kind() else {
        return Err("no Answer".into());
    };
    let (gather, value) = gather.take(&answer)?;
    let text = match value {
        Some(value) => format!(in alloc; "{:?}", value.as_bytes())?,
        None => format!(in alloc; "none")?,
    };
    Ok((gather, text))
}

/// The want of a member that holds that part at index 2, in a cluster that survives so many failures and needs so many fragments.
pub(crate) fn wanted(
    rt: &impl Abort,
    alloc: Global,
    (faults, need): (u8, u8),
    me: u8,
    own: Held,
) -> Result<Gather, Fail> {
    let shape = Shape::new(faults, need)?;
    let me = MemberId::new(&shape, me).ok_or("no such member")?;
    let mut bytes = Vec::new(alloc);
    push_entry(&mut bytes, own)?;
    let (view, _) = EntryView::read(shape.need(), &bytes)?;
    assert!(rt; !view.is_whole());
    assert!(rt; shape.need() == view.k());
    Ok(Gather::want(alloc, &shape, me, 2, &view)?)
}
