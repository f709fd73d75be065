//! What the contract doesn't say: that it means Raft's rule, on logs worked out by hand.
use crate::kept_log::KeptLog;
use crate::new_commit;
use craft_base::{Known, MemberId, Shape};
use entry_frames::{EntryView, LogView};
use heard_book::Heard;
use std::alloc::Global;
use std::fmt::Write;
use std::test::Fail;
use test_text::bytes_of;

/// What a member told: its number, behind which index its log matches, for how many entries, and which of them it holds whole.
type Told = (u8, u64, u8, u8);

/// The bytes of entries of these terms, each below 10: a Noop, or a part of a Put where it isn't whole.
fn entry_bytes(alloc: Global, entries: &[(u8, bool)]) -> Result<Vec<u8>, Fail> {
    let mut text = String::new(alloc);
    for (term, whole) in entries {
        if *whole {
            write!(
                text,
                "0100 000000000000000{term} 0000000000000000 0000000000000000 00 "
            )?;
        } else {
            write!(
                text,
                "0201 000000000000000{term} 0000000000000007 0000000000000001 0161 00000002 1d "
            )?;
        }
    }
    Ok(bytes_of(alloc, text.as_str())?)
}

/// The log of at most eight entries that these bytes are, committed up to that index.
fn log_of<'a>(alloc: Global, bytes: &'a [u8], commit: u64) -> Result<KeptLog<'a>, Fail> {
    let mut log = KeptLog::new(alloc, 2);
    let mut rest = bytes;
    for place in 0..8 {
        if place == commit {
            log.commit_all();
        }
        if rest.is_empty() {
            return Ok(log);
        }
        let (view, len) = EntryView::read(2, rest)?;
        log.push(view)?;
        rest = rest.get(len..).ok_or("no rest")?;
    }
    Ok(log)
}

/// Up to where member 0 may commit its log of these entries as the leader of that term, in a cluster that survives so many
/// failures and rebuilds a value from two fragments. What it was told it heard when its log had eight entries.
fn committed(
    alloc: Global,
    faults: u8,
    entries: &[(u8, bool)],
    commit: u64,
    told: &[Told],
    term: u64,
) -> Result<u64, Fail> {
    let shape = Shape::new(faults, 2)?;
    let me = MemberId::default();
    let bytes = entry_bytes(alloc, entries)?;
    let log = log_of(alloc, &bytes, commit)?;
    let mut heard = Heard::new(alloc, &shape, me)?;
    for (number, prev, count, mask) in told {
        let member = MemberId::new(&shape, *number).ok_or("no such member")?;
        heard = heard.matched(member, *prev, *count, *mask, 8)?;
    }
    heard.settle(commit);
    if heard.settled() > log.commit() {
        return Err("settled above the commit index".into());
    }
    Ok(new_commit(&heard, &log, &shape, me, term))
}

// Figure 8 of the Raft paper: the leader of term 4 has an entry of term 2 from before. That three of five members hold it
// doesn't commit it; that they hold one of term 4 behind it commits both.
#[test]
fn an_older_term_commits_with_one_of_the_leaders_own(rt: HostRuntime) -> Result<(), Fail> {
    let alloc = rt.alloc();
    let log = [(1, true), (2, true), (4, true)];
    let older = [(1, 1, 1, 1), (2, 1, 1, 1)];
    assert_eq!(rt; committed(alloc, 2, &log, 1, &older, 4)?, 1);
    let one_has_both = [(1, 1, 2, 3), (2, 1, 1, 1)];
    assert_eq!(rt; committed(alloc, 2, &log, 1, &one_has_both, 4)?, 1);
    let both = [(1, 1, 2, 3), (2, 1, 2, 3)];
    assert_eq!(rt; committed(alloc, 2, &log, 1, &both, 4)?, 3);
    Ok(())
}

// The entry at index 3 is held whole by the leader alone, and in some form by three of five.
#[test]
fn nothing_commits_past_a_gap(rt: HostRuntime) -> Result<(), Fail> {
    let alloc = rt.alloc();
    let log = [(1, true), (4, true), (4, true), (4, true)];
    let gap = [(1, 1, 3, 5), (2, 1, 3, 5)];
    assert_eq!(rt; committed(alloc, 2, &log, 1, &gap, 4)?, 2);
    let first = [(1, 1, 3, 6), (2, 1, 3, 6)];
    assert_eq!(rt; committed(alloc, 2, &log, 1, &first, 4)?, 1);
    let none = [(1, 1, 3, 7), (2, 1, 3, 7)];
    assert_eq!(rt; committed(alloc, 2, &log, 1, &none, 4)?, 4);
    Ok(())
}

// Two of five don't suffice, and one that told it twice is one.
#[test]
fn more_than_half_have_to_hold_an_entry(rt: HostRuntime) -> Result<(), Fail> {
    let alloc = rt.alloc();
    let log = [(4, true)];
    let one = [(1, 0, 1, 1), (1, 0, 1, 1)];
    assert_eq!(rt; committed(alloc, 2, &log, 0, &one, 4)?, 0);
    let two = [(1, 0, 1, 1), (4, 0, 1, 1)];
    assert_eq!(rt; committed(alloc, 2, &log, 0, &two, 4)?, 1);
    Ok(())
}

// Of three members one other suffices, where the leader's own log has the entry whole, and what the leader told itself doesn't.
#[test]
fn the_leaders_own_log_counts_once(rt: HostRuntime) -> Result<(), Fail> {
    let alloc = rt.alloc();
    let one = [(2, 0, 1, 1)];
    assert_eq!(rt; committed(alloc, 1, &[(4, true)], 0, &one, 4)?, 1);
    assert_eq!(rt; committed(alloc, 1, &[(4, false)], 0, &one, 4)?, 0);
    let itself = [(0, 0, 1, 1)];
    assert_eq!(rt; committed(alloc, 1, &[(4, true)], 0, &itself, 4)?, 0);
    let others = [(1, 0, 1, 1), (2, 0, 1, 1)];
    assert_eq!(rt; committed(alloc, 1, &[(4, false)], 0, &others, 4)?, 1);
    Ok(())
}

// With k = 2 an entry that others hold as parts needs all of three members, and four of five. The leader's own form counts too.
#[test]
fn parts_need_as_many_more_members(rt: HostRuntime) -> Result<(), Fail> {
    let alloc = rt.alloc();
    let parts = [(1, 0, 1, 0), (2, 0, 1, 0), (3, 0, 1, 0)];
    let (one, two) = ([(1, 0, 1, 0)], [(1, 0, 1, 0), (2, 0, 1, 0)]);
    assert_eq!(rt; committed(alloc, 1, &[(4, true)], 0, &one, 4)?, 0);
    assert_eq!(rt; committed(alloc, 1, &[(4, true)], 0, &two, 4)?, 1);
    assert_eq!(rt; committed(alloc, 2, &[(4, true)], 0, &two, 4)?, 0);
    assert_eq!(rt; committed(alloc, 2, &[(4, true)], 0, &parts, 4)?, 1);
    assert_eq!(rt; committed(alloc, 2, &[(4, false)], 0, &parts, 4)?, 1);
    let mixed = [(1, 0, 1, 1), (2, 0, 1, 0)];
    assert_eq!(rt; committed(alloc, 2, &[(4, true)], 0, &mixed, 4)?, 0);
    Ok(())
}

#[test]
fn nothing_commits_past_the_last_entry(rt: HostRuntime) -> Result<(), Fail> {
    let alloc = rt.alloc();
    let others = [(1, 0, 3, 7), (2, 0, 3, 7)];
    assert_eq!(rt; committed(alloc, 1, &[(4, true)], 0, &others, 4)?, 1);
    assert_eq!(rt; committed(alloc, 1, &[(4, true)], 1, &others, 4)?, 1);
    assert_eq!(rt; committed(alloc, 1, &[], 0, &others, 4)?, 0);
    Ok(())
}
