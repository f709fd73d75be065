//! What the contracts don't say: that calls succeed, on a journal worked out by hand.
use crate::LogStore;
use craft_base::{MemberId, Shape};
use craft_edge::Disk;
use crash_disk::MemDisk;
use entry_frames::{EntryView, LogView};
use std::alloc::Global;
use std::test::Fail;
use synced_log::Journal;
use test_text::bytes_of;

// By hand, as all of these tables: the header of member 1 of three, any two of whose fragments rebuild a value.
const HEADER: &str = "43524146544c4f47 01 01 02 01 0000000000000000000000000000000000000000";

/// Groups, each an open gate, the length of its body and its records.
const GROUPS: [&str; 4] = [
    // term 2 without a vote; a Noop
    "01 0000000000000026
        01 0000000000000002 ff
        02 01 00 0000000000000002 0000000000000000 0000000000000000 00",
    // a fragment of a Put of three bytes; a Del
    "01 0000000000000041
        02 02 01 0000000000000002 0000000000000007 0000000000000008 01 6b 00000003 aabb
        02 01 03 0000000000000002 0000000000000007 0000000000000009 02 6b79",
    // the whole value of the entry at index 2; the log is committed up to it
    "01 0000000000000019
        04 0000000000000002 00000003 76616c
        05 0000000000000002",
    // term 3 with a vote for member 0; the entry at index 3 goes
    "01 0000000000000013
        01 0000000000000003 00
        03 0000000000000003",
];

/// The state that no group, the first one, the first two and so on leave: term, vote, last index, commit index and the bytes of
/// the values; then of each entry its term, client, number, operation, key, length of the value, form and what is held.
const LEFT: [&str; 5] = [
    "0 None 0 0 0",
    "2 None 1 0 0; 2 0 0 Noop [] 0 whole []",
    "2 None 3 0 3; 2 0 0 Noop [] 0 whole []; 2 7 8 Put [107] 3 part [170, 187]; 2 7 9 Del [107, 121] 0 whole []",
    "2 None 3 2 3; 2 0 0 Noop [] 0 whole []; 2 7 8 Put [107] 3 whole [118, 97, 108]; 2 7 9 Del [107, 121] 0 whole []",
    "3 Some(0) 2 2 3; 2 0 0 Noop [] 0 whole []; 2 7 8 Put [107] 3 whole [118, 97, 108]",
];

/// The journal of that many groups.
fn journal_of(alloc: Global, count: usize) -> Result<Vec<u8>, Fail> {
    let mut text = String::from_str(alloc, HEADER)?;
    for shape in GROUPS.iter().take(count) {
        text.push_str(shape)?;
    }
    text.push_str("00")?;
    Ok(bytes_of(alloc, text.as_str())?)
}

/// The state that a journal of member 1 leaves.
fn replayed(alloc: Global, bytes: &[u8]) -> Result<LogStore, Fail> {
    let mut disk = MemDisk::new(Vec::new(alloc));
    disk.write_at(0, bytes)?;
    let shape = Shape::new(1, 2)?;
    let me = MemberId::new(&shape, 1).ok_or("no such member")?;
    match Journal::open(alloc, disk, &shape, me) {
        Ok((_, groups)) => Ok(LogStore::replay(alloc, &shape, &groups)?),
        Err((fault, _)) => Err(fault.into()),
    }
}

/// An entry as text.
fn entry_text(alloc: Global, entry: &EntryView<'_>) -> Result<String, Fail> {
    let form = if entry.is_whole() { "whole" } else { "part" };
    Ok(format!(in alloc;
        "{} {} {} {:?} {:?} {} {form} {:?}",
        entry.term(),
        entry.client(),
        entry.seq(),
        entry.op(),
        entry.key(),
        entry.vlen(),
        entry.bytes()
    )?)
}

/// A state as text.
fn state_text(alloc: Global, store: &LogStore) -> Result<String, Fail> {
    let mut text = format!(in alloc;
        "{} {:?} {} {} {}",
        store.term(),
        store.vote(),
        store.last(),
        store.commit(),
        store.bulk()
    )?;
    for index in 1..=store.last() {
        let entry = store.at(index).ok_or("no such entry")?;
        text.push_str("; ")?;
        text.push_str(&entry_text(alloc, &entry)?)?;
    }
    Ok(text)
}

#[test]
fn each_group_leaves_what_is_worked_out(rt: HostRuntime) -> Result<(), Fail> {
    let alloc = rt.alloc();
    for (count, want) in LEFT.iter().enumerate() {
        let store = replayed(alloc, &journal_of(alloc, count)?)?;
        assert_eq!(rt;
            state_text(alloc, &store)?.as_str(),
            *want,
            "{count} groups"
        );
    }
    Ok(())
}

#[test]
fn the_log_shows_nothing_beside_its_entries(rt: HostRuntime) -> Result<(), Fail> {
    let alloc = rt.alloc();
    let store = replayed(alloc, &journal_of(alloc, 4)?)?;
    for (index, term) in [(0, 0), (1, 2), (2, 2)] {
        assert!(rt; index <= store.last(), "at {index}");
        assert_eq!(rt; store.term_at(index), term, "at {index}");
    }
    for index in [0, 3, u64::MAX] {
        assert!(rt; store.at(index).is_none(), "at {index}");
    }
    Ok(())
}
