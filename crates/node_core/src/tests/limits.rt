//! When a log takes no more requests.
ghost use Rattle.std.specs.Prelude.{◌≡◌, IfOk};

use super::asking::{Row, add_numbers, call, elected, leading, matched, replies_text};
use super::take;
use super::text::{leaves, tells};
use crate::{Core, Event, Turned};
use craft_base::{MemberId, Op, Shape};
use entry_frames::{EntryView, LAST_PLACE, LONGEST_VALUE, LogView};
use log_store::LogStore;
use std::alloc::Global;
use std::test::Fail;

/// A put of the client with the number of its index.
const fn put(seq: u64) -> Row<'static> {
    (seq, Op::Put, b"a", b"x")
}

// 64 entries may be open. Eight of them are committed, and then there is room for eight.
#[test]
fn so_many_entries_may_be_open(rt: HostRuntime) -> Result<(), Fail> {
    let alloc = rt.alloc();
    let mut core = leading(alloc)?;
    for seq in 1..=64 {
        let (next, turned) = call(alloc, core, put(seq))?;
        core = next;
        assert_eq!(rt; replies_text(alloc, &turned)?.as_str(), "");
    }
    let (core, turned) = call(alloc, core, put(65))?;
    leaves(&rt, alloc, &turned, "", &["reply 5 7 65 busy"])?;
    assert_eq!(rt; core.store().last(), 65);
    let (mut core, turned) = matched(alloc, core, 1, 1, 8)?;
    assert_eq!(rt; turned.outputs.len(), 10);
    for seq in 65..=72 {
        let (next, turned) = call(alloc, core, put(seq))?;
        core = next;
        assert_eq!(rt; replies_text(alloc, &turned)?.as_str(), "");
    }
    let (_core, turned) = call(alloc, core, put(73))?;
    tells(&rt, alloc, &turned, &["reply 5 7 73 busy"])
}

/// An entry of term 1 that sets the key `a` to a value of that length, of which an eighth is held.
fn part(alloc: Global, vlen: u32) -> Result<Vec<u8>, Fail> {
    let mut bytes = Vec::new(alloc);
    bytes.extend_from_slice(&[2, 1])?;
    add_numbers(&mut bytes, &[1, 1, 1])?;
    bytes.extend_from_slice(&[1, 97])?;
    bytes.extend_from_slice(&vlen.to_be_bytes())?;
    for _ in 0..vlen.div_ceil(8) {
        bytes.push(0)?;
    }
    Ok(bytes)
}

/// An empty entry of term 1.
fn noop(alloc: Global) -> Result<Vec<u8>, Fail> {
    let mut bytes = Vec::new(alloc);
    bytes.extend_from_slice(&[1, 0])?;
    add_numbers(&mut bytes, &[1, 0, 0])?;
    bytes.push(0)?;
    Ok(bytes)
}

/// The log with the same entry so many times more.
pub(crate) fn longer(store: LogStore, entry: &EntryView<'_>, count: u64) -> Result<LogStore, Fail>
    requires { entry.now.k ≡ store.shape.need }
    ensures { IfOk result (λ after. after.shape ≡ store.shape) }
{
    let mut store = store;
    for _ in 0..count {
        let last = store.last();
        if last >= LAST_PLACE {
            return Err("no room".into());
        }
        if store.term_at(last) > entry.term() || entry.term() > store.term() {
            return Err("no term of the log".into());
        }
        store = store.append(entry)?;
    }
    Ok(store)
}

/// The log, committed up to that index.
fn committed(store: LogStore, index: u64) -> Result<LogStore, Fail>
    ensures { IfOk result (λ after. after.shape ≡ store.shape) }
{
    if index <= store.commit() || index > store.last() {
        return Err("no such index".into());
    }
    let mut store = store;
    store.set_commit(index);
    Ok(store)
}

/// An empty log in term 1.
pub(crate) fn begun(alloc: Global, shape: &Shape) -> LogStore
    ensures { result.shape ≡ shape.now }
{
    let mut store = LogStore::new(alloc, shape);
    store.set_term(1, None);
    store
}

/// A log of three members with so many empty entries.
pub(crate) fn with_noops(alloc: Global, count: u64) -> Result<LogStore, Fail>
    ensures { IfOk result (λ store. store.shape ≡ record { faults = 1; need = 1 }) }
{
    let shape = Shape::new(1, 1)?;
    let bytes = noop(alloc)?;
    let (entry, _len) = EntryView::read(1, &bytes)?;
    longer(begun(alloc, &shape), &entry, count)
}

/// Member 0 leads term 2 over that log, which its empty entry makes one longer.
fn leading_over(alloc: Global, store: LogStore) -> Result<Core, Fail>
    requires { store.shape ≡ record { faults = 1; need = 1 } }
{
    let shape = Shape::new(1, 1)?;
    let me = MemberId::new(&shape, 0).ok_or("no such member")?;
    let core = Core::boot(alloc, &shape, me, store)?;
    let (core, _turned) = elected(alloc, core, 0, 1, 2)?;
    Ok(core)
}

// The log takes its last request as the entry at 900,000.
#[test]
fn a_log_of_so_many_entries_is_full(rt: HostRuntime) -> Result<(), Fail> {
    let alloc = rt.alloc();
    let store = committed(with_noops(alloc, 899_998)?, 899_998)?;
    let core = leading_over(alloc, store)?;
    assert_eq!(rt; core.store().last(), 899_999);
    let (core, turned) = call(alloc, core, put(1))?;
    assert_eq!(rt; replies_text(alloc, &turned)?.as_str(), "");
    assert_eq!(rt; core.store().last(), 900_000);
    let (core, turned) = call(alloc, core, put(2))?;
    leaves(&rt, alloc, &turned, "", &["reply 5 7 2 full"])?;
    // what it has taken it answers
    let (core, turned) = matched_in(alloc, core, 899_998, 2)?;
    tells(
        &rt,
        alloc,
        &turned,
        &["commit 900000", "reply 5 7 1 done 900000"],
    )?;
    let (_core, turned) = call(alloc, core, put(1))?;
    tells(&rt, alloc, &turned, &["reply 5 7 1 done 900000"])
}

/// What the leader over so many empty entries, none of them committed, tells a client.
fn told_over(alloc: Global, count: u64) -> Result<String, Fail> {
    let core = leading_over(alloc, with_noops(alloc, count)?)?;
    let (_core, turned) = call(alloc, core, put(1))?;
    replies_text(alloc, &turned)
}

#[test]
fn a_full_log_says_so_rather_than_busy(rt: HostRuntime) -> Result<(), Fail> {
    let alloc = rt.alloc();
    assert_eq!(rt; told_over(alloc, 899_998)?.as_str(), "reply 5 7 1 busy");
    assert_eq!(rt; told_over(alloc, 899_999)?.as_str(), "reply 5 7 1 full");
    Ok(())
}

/// Member 1 tells member 0, which leads term 2, that its log is member 0's up to `prev + count`.
fn matched_in(alloc: Global, core: Core, prev: u64, count: u8) -> Result<(Core, Turned), Fail> {
    matched(alloc, core, 2, prev, count)
}

/// A vote for member 0 of 15, in term 2.
fn vote_of(alloc: Global, member: u8) -> Result<Vec<u8>, Fail> {
    let mut frame = Vec::new(alloc);
    frame.extend_from_slice(&[0x43, 0x52, 1, 7, 8, 2, member, 0])?;
    add_numbers(&mut frame, &[2])?;
    frame.push(1)?;
    Ok(frame)
}

/// A log of fifteen members, committed, with values of that many bytes in all. The member has an eighth of each.
fn with_bytes(alloc: Global, shape: &Shape, bytes: u64) -> Result<LogStore, Fail>
    requires { shape.now.need ≡ 8 }
    ensures { IfOk result (λ store. store.shape ≡ shape.now) }
{
    let whole = bytes / u64::from(LONGEST_VALUE);
    let rest = bytes % u64::from(LONGEST_VALUE);
    let long = part(alloc, LONGEST_VALUE)?;
    let short = part(alloc, rest as u32)?;
    let (entry, _len) = EntryView::read(8, &long)?;
    let store = longer(begun(alloc, shape), &entry, whole)?;
    let (entry, _len) = EntryView::read(8, &short)?;
    let store = longer(store, &entry, 1)?;
    committed(store, whole + 1)
}

// One byte more, and then it is full.
#[test]
fn a_log_of_so_many_bytes_is_full(rt: HostRuntime) -> Result<(), Fail> {
    let alloc = rt.alloc();
    let shape = Shape::new(7, 8)?;
    let me = MemberId::new(&shape, 0).ok_or("no such member")?;
    let store = with_bytes(alloc, &shape, 499_999_999)?;
    assert_eq!(rt; store.bulk(), 499_999_999);
    let mut core = Core::boot(alloc, &shape, me, store)?;
    for _ in 0..3 {
        core = core.turn(&Event::Tick { word: 0 })?.0;
    }
    for member in 1..=7 {
        core = take(core, &vote_of(alloc, member)?)?.0;
    }
    let (core, turned) = call(alloc, core, put(1))?;
    assert_eq!(rt; replies_text(alloc, &turned)?.as_str(), "");
    assert_eq!(rt; core.store().bulk(), 500_000_000);
    let (_core, turned) = call(alloc, core, (2, Op::Get, b"a", b""))?;
    tells(&rt, alloc, &turned, &["reply 5 7 2 full"])
}
