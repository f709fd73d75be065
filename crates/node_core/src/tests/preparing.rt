//! How a member that has won its term prepares to lead it: member 1 of three, any two of whose fragments rebuild a value.
use super::asking::call;
use super::text::leaves;
use super::{MIXED, take};
use crate::{Core, Event, Role};
use craft_base::{MemberId, Op, Shape};
use log_store::LogStore;
use std::alloc::Global;
use std::process::Abort;
use std::test::Fail;
use test_text::bytes_of;

/// By hand, behind a head of F = 1, k = 2 and the kind, the sender and the receiver: term, granted.
const VOTED: &str = "4352010102 02 02 01 0000000000000002 01";

/// The questions for the log of the others, from index 2 on.
const QUESTIONS: [&str; 2] = ["send 1 0 2 ask 2", "send 1 2 2 ask 2"];

/// Member 1, which holds its own fragment at index 2 and has won term 2.
fn preparing(rt: &impl Abort, alloc: Global) -> Result<Core, Fail> {
    let shape = Shape::new(1, 2)?;
    let me = MemberId::new(&shape, 1).ok_or("no such member")?;
    let core = Core::boot(alloc, &shape, me, LogStore::new(alloc, &shape))?;
    let (mut core, _turned) = take(core, &bytes_of(alloc, MIXED)?)?;
    for _ in 0..3 {
        core = core.turn(&Event::Tick { word: 0 })?.0;
    }
    let (core, turned) = take(core, &bytes_of(alloc, VOTED)?)?;
    leaves(
        rt,
        alloc,
        &turned,
        "",
        &["role Preparing 2", QUESTIONS[0], QUESTIONS[1]],
    )?;
    Ok(core)
}

#[test]
fn who_prepares_asks_again_and_tells_clients_so(rt: HostRuntime) -> Result<(), Fail> {
    let alloc = rt.alloc();
    let core = preparing(&rt, alloc)?;
    let (core, turned) = core.turn(&Event::Tick { word: 0 })?;
    leaves(&rt, alloc, &turned, "", &QUESTIONS)?;
    let (core, turned) = call(alloc, core, (1, Op::Put, b"a", b"x"))?;
    leaves(&rt, alloc, &turned, "", &["reply 5 7 1 preparing"])?;
    assert_eq!(rt; core.role(), Role::Preparing);
    Ok(())
}

/// Term, start, last, count, member 2's fragment at index 2 and the value at index 3.
const SHOWN: &str = "4352010102 06 02 01 0000000000000002 0000000000000002 0000000000000003 02
    02 01 0000000000000001 0000000000000007 0000000000000001 01 61 00000002 9d
    01 01 0000000000000001 0000000000000007 0000000000000002 01 61 00000002 0080";

// The group has the value at index 2 and the empty entry. All that isn't known to be held goes whole, since one other is healthy.
#[test]
fn two_fragments_make_the_value(rt: HostRuntime) -> Result<(), Fail> {
    let alloc = rt.alloc();
    let core = preparing(&rt, alloc)?;
    let (core, turned) = take(core, &bytes_of(alloc, SHOWN)?)?;
    leaves(
        &rt,
        alloc,
        &turned,
        "000000000000002b 04 0000000000000002 00000002 0080
            02 01 00 0000000000000002 0000000000000000 0000000000000000 00 00",
        &[
            "role Leader 2",
            "whole 2",
            "send 1 0 2 append 0 0 0 wwww",
            "send 1 2 2 append 0 0 0 wwww",
        ],
    )?;
    assert_eq!(rt; core.role(), Role::Leader);
    Ok(())
}

/// Term, start, last, count: its log ends before.
const SHORT: &str = "4352010102 06 02 01 0000000000000002 0000000000000002 0000000000000001 00";

#[test]
fn what_nobody_can_have_committed_is_removed(rt: HostRuntime) -> Result<(), Fail> {
    let alloc = rt.alloc();
    let core = preparing(&rt, alloc)?;
    let (core, turned) = take(core, &bytes_of(alloc, SHORT)?)?;
    leaves(
        &rt,
        alloc,
        &turned,
        "0000000000000025 03 0000000000000002
            02 01 00 0000000000000002 0000000000000000 0000000000000000 00 00",
        &[
            "role Leader 2",
            "cut 2 true",
            "send 1 0 2 append 0 0 0 ww",
            "send 1 2 2 append 0 0 0 ww",
        ],
    )?;
    // what comes late it hears, and does no more
    let (_core, turned) = take(core, &bytes_of(alloc, SHOWN)?)?;
    leaves(&rt, alloc, &turned, "", &[])
}

/// The page begins behind the index that is to be decided.
const LATER: &str = "4352010102 06 02 01 0000000000000002 0000000000000003 0000000000000003 01
    01 01 0000000000000001 0000000000000007 0000000000000002 01 61 00000002 0080";

#[test]
fn a_page_with_a_gap_before_it_decides_nothing(rt: HostRuntime) -> Result<(), Fail> {
    let alloc = rt.alloc();
    let core = preparing(&rt, alloc)?;
    let (core, turned) = take(core, &bytes_of(alloc, LATER)?)?;
    leaves(&rt, alloc, &turned, "", &[])?;
    assert_eq!(rt; core.role(), Role::Preparing);
    Ok(())
}
