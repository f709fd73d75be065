//! What a leader does that holds a value in part alone: member 1 of three, any two of whose fragments rebuild a value.
use super::asking::call;
use super::take;
use super::text::{leaves, tells};
use crate::{Core, Event, Role};
use craft_base::{MemberId, Op, Shape};
use log_store::LogStore;
use std::alloc::Global;
use std::process::Abort;
use std::test::Fail;
use test_text::bytes_of;

/// By hand, behind a head of F = 1, k = 2 and the kind, the sender and the receiver: term, prev, its term, commit, count, an empty
/// entry and one with member 1's fragment of the two bytes 00 and 80.
const FRAGMENT: &str =
    "4352010102 03 00 01 0000000000000001 0000000000000000 0000000000000000 0000000000000000 02
    01 00 0000000000000001 0000000000000000 0000000000000000 00
    02 01 0000000000000001 0000000000000007 0000000000000001 01 61 00000002 1d";

/// The same fields, without an entry: both are committed.
const COMMITTED: &str =
    "4352010102 03 00 01 0000000000000001 0000000000000002 0000000000000001 0000000000000002 00";

/// Term, granted.
const VOTED: &str = "4352010102 02 02 01 0000000000000002 01";

/// Term, yes, prev, count, mask: member 2 has what is behind index 2, whole.
const MATCHED: &str = "4352010102 04 02 01 0000000000000002 01 0000000000000002 02 03";

/// Term, no, next: member 0 has the first entry alone.
const REFUSED: &str = "4352010102 04 00 01 0000000000000002 00 0000000000000002";

/// Term, start, last, count, member 2's fragment at index 2.
const SHOWN: &str = "4352010102 06 02 01 0000000000000002 0000000000000002 0000000000000004 01
    02 01 0000000000000001 0000000000000007 0000000000000001 01 61 00000002 9d";

/// The same of another request.
const OTHER_SHOWN: &str = "4352010102 06 02 01 0000000000000002 0000000000000002 0000000000000004 01
    02 01 0000000000000001 0000000000000007 0000000000000002 01 61 00000002 9d";

/// The group of the value at index 2.
const WHOLE: &str = "000000000000000f 04 0000000000000002 00000002 0080 00";

/// The questions for the log of the others, from index 2 on.
const QUESTIONS: [&str; 2] = ["send 1 0 2 ask 2", "send 1 2 2 ask 2"];

/// Member 1, which leads term 2 and holds its own fragment at index 2, which is committed.
fn leading_with_a_part(rt: &impl Abort, alloc: Global) -> Result<Core, Fail> {
    let shape = Shape::new(1, 2)?;
    let me = MemberId::new(&shape, 1).ok_or("no such member")?;
    let core = Core::boot(alloc, &shape, me, LogStore::new(alloc, &shape))?;
    let (core, _turned) = take(core, &bytes_of(alloc, FRAGMENT)?)?;
    let (mut core, _turned) = take(core, &bytes_of(alloc, COMMITTED)?)?;
    for _ in 0..3 {
        core = core.turn(&Event::Tick { word: 0 })?.0;
    }
    let (core, turned) = take(core, &bytes_of(alloc, VOTED)?)?;
    tells(
        rt,
        alloc,
        &turned,
        &[
            "role Leader 2",
            "send 1 0 2 append 2 1 2 w",
            "send 1 2 2 append 2 1 2 w",
        ],
    )?;
    Ok(core)
}

/// It has applied a get of client 7 with that number, and asks for the value.
fn reading(rt: &impl Abort, alloc: Global) -> Result<Core, Fail> {
    let (core, turned) = call(
        alloc,
        leading_with_a_part(rt, alloc)?,
        (5, Op::Get, b"a", b""),
    )?;
    tells(rt, alloc, &turned, &[])?;
    let (core, turned) = take(core, &bytes_of(alloc, MATCHED)?)?;
    tells(
        rt,
        alloc,
        &turned,
        &["commit 4", QUESTIONS[0], QUESTIONS[1]],
    )?;
    Ok(core)
}

#[test]
fn a_get_is_answered_once_the_value_is_had(rt: HostRuntime) -> Result<(), Fail> {
    let alloc = rt.alloc();
    let core = reading(&rt, alloc)?;
    // an entry of another request is no part of it
    let (core, turned) = take(core, &bytes_of(alloc, OTHER_SHOWN)?)?;
    leaves(&rt, alloc, &turned, "", &[])?;
    let (core, turned) = take(core, &bytes_of(alloc, SHOWN)?)?;
    leaves(
        &rt,
        alloc,
        &turned,
        WHOLE,
        &["whole 2", "reply 5 7 5 value 2 [0, 128]"],
    )?;
    // the page that comes again finds nobody who waits
    let (core, turned) = take(core, &bytes_of(alloc, SHOWN)?)?;
    leaves(&rt, alloc, &turned, "", &[])?;
    // asked once more it answers at once
    let (core, turned) = call(alloc, core, (5, Op::Get, b"a", b""))?;
    leaves(&rt, alloc, &turned, "", &["reply 5 7 5 value 2 [0, 128]"])?;
    assert_eq!(rt; core.role(), Role::Leader);
    Ok(())
}

#[test]
fn it_asks_again_at_each_tick(rt: HostRuntime) -> Result<(), Fail> {
    let alloc = rt.alloc();
    let (core, turned) = reading(&rt, alloc)?.turn(&Event::Tick { word: 0 })?;
    leaves(
        &rt,
        alloc,
        &turned,
        "",
        &[
            "send 1 0 2 append 2 1 4 ww",
            "send 1 2 2 append 4 2 4 ",
            QUESTIONS[0],
            QUESTIONS[1],
        ],
    )?;
    // whoever asks again meanwhile waits on, at its new place, and nobody is asked anew
    let (_core, turned) = call(alloc, core, (5, Op::Get, b"a", b""))?;
    leaves(&rt, alloc, &turned, "", &[])
}

// Both others are healthy, so what member 0 lacks goes as its fragment once the leader has the value.
#[test]
fn a_member_is_sent_what_it_lacks_once_the_value_is_had(rt: HostRuntime) -> Result<(), Fail> {
    let alloc = rt.alloc();
    let core = leading_with_a_part(&rt, alloc)?;
    let (core, turned) = take(core, &bytes_of(alloc, REFUSED)?)?;
    leaves(
        &rt,
        alloc,
        &turned,
        "",
        &["send 1 0 2 append 1 1 2 ", QUESTIONS[0], QUESTIONS[1]],
    )?;
    let (_core, turned) = take(core, &bytes_of(alloc, SHOWN)?)?;
    leaves(
        &rt,
        alloc,
        &turned,
        WHOLE,
        &["whole 2", "send 1 0 2 append 1 1 2 pw"],
    )
}

// The reads are gone with the term, and so is what was shown.
#[test]
fn a_deposed_leader_reads_for_nobody(rt: HostRuntime) -> Result<(), Fail> {
    let alloc = rt.alloc();
    let core = reading(&rt, alloc)?;
    // term 3, no last term, no last index: a vote that isn't granted
    let vote = "4352010102 01 00 01 0000000000000003 0000000000000000 0000000000000000";
    let (core, turned) = take(core, &bytes_of(alloc, vote)?)?;
    tells(
        &rt,
        alloc,
        &turned,
        &["role Follower 3", "send 1 0 3 voted false"],
    )?;
    assert_eq!(rt; core.member.reads.len(), 0);
    assert!(rt; core.member.gather.is_none());
    Ok(())
}
