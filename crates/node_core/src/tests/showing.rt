//! What a member shows of its log to one that has won its term, member 2.
ghost use Rattle.std.specs.Prelude.{◌≡◌, IfOk};

use super::asking::{add_numbers, frame_of};
use super::limits::{begun, longer, with_noops};
use super::text::leaves;
use super::{FIRST_APPEND, MIXED, VOTED, started, stood, take};
use crate::{Core, Event, Role};
use craft_base::{MemberId, Shape};
use entry_frames::EntryView;
use log_store::LogStore;
use std::alloc::Global;
use std::process::Abort;
use std::test::Fail;
use test_text::bytes_of;

/// Member 2 asks a member for its log from an index on.
fn question(alloc: Global, to: u8, term: u64, start: u64) -> Result<Vec<u8>, Fail> {
    let mut frame = frame_of(alloc, 5, 2, to, term)?;
    add_numbers(&mut frame, &[start])?;
    Ok(frame)
}

/// Who it takes for the leader.
fn hint_of(core: &Core) -> Option<u8> {
    core.member.hint.map(|leader| leader.number())
}

/// A tick that tells nothing.
fn wait(rt: &impl Abort, alloc: Global, core: Core) -> Result<Core, Fail> {
    let (core, turned) = core.turn(&Event::Tick { word: 0 })?;
    leaves(rt, alloc, &turned, "", &[])?;
    Ok(core)
}

/// Member 1 tells that, and records nothing, where it is asked in term 1 for its log from an index on.
fn shows(rt: &impl Abort, alloc: Global, core: Core, start: u64, told: &str) -> Result<Core, Fail> {
    let (core, turned) = take(core, &question(alloc, 1, 1, start)?)?;
    leaves(rt, alloc, &turned, "", &[told])?;
    Ok(core)
}

#[test]
fn who_follows_shows_its_log_and_waits_anew(rt: HostRuntime) -> Result<(), Fail> {
    let alloc = rt.alloc();
    let (core, _turned) = take(started(alloc, 1)?, &bytes_of(alloc, FIRST_APPEND)?)?;
    assert_eq!(rt; hint_of(&core), Some(0));
    let core = wait(&rt, alloc, wait(&rt, alloc, core)?)?;
    let core = shows(&rt, alloc, core, 1, "send 1 2 1 answer 1 1 w")?;
    assert_eq!(rt; hint_of(&core), Some(2));
    let core = wait(&rt, alloc, wait(&rt, alloc, core)?)?;
    // behind the end nothing is shown but where that is
    let core = shows(&rt, alloc, core, 2, "send 1 2 1 answer 2 1 ")?;
    let core = shows(&rt, alloc, core, 1_000_000, "send 1 2 1 answer 1000000 1 ")?;
    assert_eq!(rt; core.role(), Role::Follower);
    Ok(())
}

#[test]
fn who_has_not_won_follows_who_has(rt: HostRuntime) -> Result<(), Fail> {
    let alloc = rt.alloc();
    let (core, turned) = take(stood(&rt, alloc)?, &question(alloc, 0, 1, 1)?)?;
    leaves(
        &rt,
        alloc,
        &turned,
        "",
        &["role Follower 1", "send 0 2 1 answer 1 0 "],
    )?;
    assert_eq!(rt; hint_of(&core), Some(2));
    Ok(())
}

#[test]
fn who_leads_shows_nothing(rt: HostRuntime) -> Result<(), Fail> {
    let alloc = rt.alloc();
    let (core, _turned) = take(stood(&rt, alloc)?, &bytes_of(alloc, VOTED)?)?;
    let (core, turned) = take(core, &question(alloc, 0, 1, 1)?)?;
    leaves(&rt, alloc, &turned, "", &[])?;
    assert_eq!(rt; core.role(), Role::Leader);
    Ok(())
}

// The group of term 2 without a vote.
#[test]
fn a_question_of_a_higher_term_is_answered_in_it(rt: HostRuntime) -> Result<(), Fail> {
    let alloc = rt.alloc();
    let (_core, turned) = take(started(alloc, 1)?, &question(alloc, 1, 2, 1)?)?;
    leaves(
        &rt,
        alloc,
        &turned,
        "000000000000000a 01 0000000000000002 ff 00",
        &["role Follower 2", "send 1 2 2 answer 1 0 "],
    )
}

/// Member 1 of three over that log.
fn over(alloc: Global, store: LogStore) -> Result<Core, Fail>
    requires { store.shape ≡ record { faults = 1; need = 1 } }
{
    let shape = Shape::new(1, 1)?;
    let me = MemberId::new(&shape, 1).ok_or("no such member")?;
    Ok(Core::boot(alloc, &shape, me, store)?)
}

#[test]
fn a_page_ends_at_eight_entries(rt: HostRuntime) -> Result<(), Fail> {
    let alloc = rt.alloc();
    let core = over(alloc, with_noops(alloc, 9)?)?;
    let core = shows(&rt, alloc, core, 1, "send 1 2 1 answer 1 9 wwwwwwww")?;
    let core = shows(&rt, alloc, core, 2, "send 1 2 1 answer 2 9 wwwwwwww")?;
    let _core = shows(&rt, alloc, core, 3, "send 1 2 1 answer 3 9 wwwwwww")?;
    Ok(())
}

/// An entry of term 1 that sets the key `a` to a value of that length, which makes 32 bytes more of the entry.
fn put_of(alloc: Global, vlen: u32) -> Result<Vec<u8>, Fail> {
    let mut bytes = Vec::new(alloc);
    bytes.extend_from_slice(&[1, 1])?;
    add_numbers(&mut bytes, &[1, 7, 1])?;
    bytes.extend_from_slice(&[1, 97])?;
    bytes.extend_from_slice(&vlen.to_be_bytes())?;
    bytes.extend_from_slice(&vec![in alloc; 0x76; vlen as usize]?)?;
    Ok(bytes)
}

/// A log of two such entries.
fn with_values(alloc: Global, one: u32, other: u32) -> Result<LogStore, Fail>
    ensures { IfOk result (λ store. store.shape ≡ record { faults = 1; need = 1 }) }
{
    let shape = Shape::new(1, 1)?;
    let first = put_of(alloc, one)?;
    let second = put_of(alloc, other)?;
    let (entry, _len) = EntryView::read(1, &first)?;
    let store = longer(begun(alloc, &shape), &entry, 1)?;
    let (entry, _len) = EntryView::read(1, &second)?;
    longer(store, &entry, 1)
}

// Two entries of 28,000 bytes are 56,000 bytes.
#[test]
fn a_page_ends_at_56_000_bytes(rt: HostRuntime) -> Result<(), Fail> {
    let alloc = rt.alloc();
    for (len, want) in [
        (27_968, "send 1 2 1 answer 1 2 ww"),
        (27_969, "send 1 2 1 answer 1 2 w"),
    ] {
        let core = over(alloc, with_values(alloc, 27_968, len)?)?;
        let _core = shows(&rt, alloc, core, 1, want)?;
    }
    Ok(())
}

/// Term, and from which index on.
const MIXED_QUESTION: &str = "4352010102 05 02 01 0000000000000001 0000000000000001";

#[test]
fn a_page_shows_parts_as_parts(rt: HostRuntime) -> Result<(), Fail> {
    let alloc = rt.alloc();
    let shape = Shape::new(1, 2)?;
    let me = MemberId::new(&shape, 1).ok_or("no such member")?;
    let core = Core::boot(alloc, &shape, me, LogStore::new(alloc, &shape))?;
    let (core, _turned) = take(core, &bytes_of(alloc, MIXED)?)?;
    let (_core, turned) = take(core, &bytes_of(alloc, MIXED_QUESTION)?)?;
    leaves(&rt, alloc, &turned, "", &["send 1 2 1 answer 1 3 wpw"])
}
