//! What clients are told, worked out by hand.
use super::asking::{
    Row, add_numbers, answered, asked, call, elected, frame_of, leading, matched, replies_text,
};
use super::text::{leaves, tells};
use super::{FIRST_APPEND, started, take};
use crate::{Event, Role};
use craft_base::Op;
use entry_frames::LogView;
use std::alloc::Global;
use std::process::Abort;
use std::test::Fail;
use test_text::bytes_of;

// The empty entry has index 1. A put is sent to member 1 at once, since that has all before it; member 2 is sent it with the next beat.
// Two members are healthy, so it goes as a fragment, one of which makes the value.
#[test]
fn a_put_is_answered_when_it_is_committed(rt: HostRuntime) -> Result<(), Fail> {
    let alloc = rt.alloc();
    let put: Row<'_> = (9, Op::Put, b"a", b"x");
    let (core, turned) = call(alloc, leading(alloc)?, put)?;
    // the entry, with the client's number, the request's, the key and the value
    let group =
        "0000000000000022 02 01 01 0000000000000001 0000000000000007 0000000000000009 01 61 00000001 78 00";
    leaves(&rt, alloc, &turned, group, &["send 0 1 1 append 1 1 1 p"])?;
    let (core, turned) = matched(alloc, core, 1, 1, 1)?;
    tells(&rt, alloc, &turned, &["commit 2", "reply 5 7 9 done 2"])?;
    // what it is asked again it answers at once, and a smaller number is old
    let (core, turned) = call(alloc, core, put)?;
    leaves(&rt, alloc, &turned, "", &["reply 5 7 9 done 2"])?;
    let (core, turned) = call(alloc, core, (8, Op::Get, b"a", b""))?;
    leaves(&rt, alloc, &turned, "", &["reply 5 7 8 old"])?;
    assert_eq!(rt; core.store().last(), 2);
    Ok(())
}

/// Member 0 is asked all of these, one after the other, and tells these.
fn tells_each(rt: &impl Abort, alloc: Global, rows: &[(Row<'_>, &str)]) -> Result<(), Fail> {
    let mut core = leading(alloc)?;
    for (row, want) in rows {
        let (next, told) = answered(alloc, core, *row)?;
        core = next;
        assert_eq!(rt; told.as_str(), *want);
    }
    Ok(())
}

#[test]
fn a_conditional_put_asks_for_the_present_version(rt: HostRuntime) -> Result<(), Fail> {
    tells_each(
        &rt,
        rt.alloc(),
        &[
            ((1, Op::PutIf(3), b"a", b"x"), "reply 5 7 1 differs 0"),
            ((2, Op::PutIf(0), b"a", b"y"), "reply 5 7 2 done 3"),
            ((3, Op::PutIf(3), b"a", b"z"), "reply 5 7 3 done 4"),
            ((4, Op::PutIf(3), b"a", b"x"), "reply 5 7 4 differs 4"),
            ((5, Op::Get, b"a", b""), "reply 5 7 5 value 4 [122]"),
        ],
    )
}

#[test]
fn what_is_deleted_is_absent(rt: HostRuntime) -> Result<(), Fail> {
    tells_each(
        &rt,
        rt.alloc(),
        &[
            ((1, Op::Get, b"a", b""), "reply 5 7 1 nothing"),
            ((2, Op::Put, b"a", b""), "reply 5 7 2 done 3"),
            ((3, Op::Get, b"a", b""), "reply 5 7 3 value 3 []"),
            ((4, Op::Del, b"a", b""), "reply 5 7 4 gone true"),
            ((5, Op::Del, b"a", b""), "reply 5 7 5 gone false"),
            ((6, Op::Get, b"a", b""), "reply 5 7 6 nothing"),
        ],
    )
}

// The second is in the log too, and takes no effect.
#[test]
fn one_number_sets_one_value(rt: HostRuntime) -> Result<(), Fail> {
    let alloc = rt.alloc();
    let (core, _turned) = call(alloc, leading(alloc)?, (3, Op::Put, b"a", b"x"))?;
    let (core, turned) = call(alloc, core, (3, Op::Put, b"a", b"yy"))?;
    assert_eq!(rt; turned.outputs.len(), 0);
    let (core, turned) = matched(alloc, core, 1, 1, 2)?;
    tells(
        &rt,
        alloc,
        &turned,
        &["commit 3", "reply 5 7 3 done 2", "reply 5 7 3 done 2"],
    )?;
    let (_core, told) = answered(alloc, core, (4, Op::Get, b"a", b""))?;
    assert_eq!(rt; told.as_str(), "reply 5 7 4 value 2 [120]");
    Ok(())
}

#[test]
fn who_does_not_lead_says_who_does(rt: HostRuntime) -> Result<(), Fail> {
    let alloc = rt.alloc();
    let get: Row<'_> = (1, Op::Get, b"a", b"");
    let (core, turned) = call(alloc, started(alloc, 1)?, get)?;
    leaves(&rt, alloc, &turned, "", &["reply 5 7 1 elsewhere"])?;
    let (core, _turned) = take(core, &bytes_of(alloc, FIRST_APPEND)?)?;
    let (mut core, turned) = call(alloc, core, get)?;
    leaves(&rt, alloc, &turned, "", &["reply 5 7 1 elsewhere 0"])?;
    for _ in 0..3 {
        let (next, _turned) = core.turn(&Event::Tick { word: 0 })?;
        core = next;
    }
    assert_eq!(rt; core.role(), Role::Candidate);
    let (_core, turned) = call(alloc, core, get)?;
    leaves(&rt, alloc, &turned, "", &["reply 5 7 1 elsewhere"])?;
    Ok(())
}

// The entry stays in the log and is committed by the next leader, but nobody is told.
#[test]
fn a_deposed_leader_answers_nobody(rt: HostRuntime) -> Result<(), Fail> {
    let alloc = rt.alloc();
    let put: Row<'_> = (9, Op::Put, b"a", b"x");
    let (core, _turned) = call(alloc, leading(alloc)?, put)?;
    // member 1 leads term 2: its log is member 0's up to index 2, and committed up to there
    let mut frame = frame_of(alloc, 3, 1, 0, 2)?;
    add_numbers(&mut frame, &[2, 1, 2])?;
    frame.push(0)?;
    let (core, turned) = take(core, &frame)?;
    tells(
        &rt,
        alloc,
        &turned,
        &["role Follower 2", "commit 2", "send 0 1 2 matched 2 0 0"],
    )?;
    // as the leader of term 3 it answers what it has applied
    let (core, _turned) = elected(alloc, core, 0, 1, 3)?;
    let (_core, turned) = call(alloc, core, put)?;
    tells(&rt, alloc, &turned, &["reply 5 7 9 done 2"])
}

// Member 1 has the put of a leader that is gone. It leads the next term, and is asked again before it has committed that: then there
// are two entries of the request, at 2 and 4, and the first is what it comes to.
#[test]
fn what_is_asked_again_elsewhere_is_done_once(rt: HostRuntime) -> Result<(), Fail> {
    let alloc = rt.alloc();
    let text =
        "4352010101 03 00 01 0000000000000001 0000000000000000 0000000000000000 0000000000000001 02
        01 00 0000000000000001 0000000000000000 0000000000000000 00
        01 01 0000000000000001 0000000000000007 0000000000000009 01 61 00000001 78";
    let (core, _turned) = take(started(alloc, 1)?, &bytes_of(alloc, text)?)?;
    let (core, _turned) = elected(alloc, core, 1, 2, 2)?;
    let (core, turned) = call(alloc, core, (9, Op::Put, b"a", b"x"))?;
    assert_eq!(rt; turned.outputs.len(), 0);
    let mut frame = frame_of(alloc, 4, 2, 1, 2)?;
    frame.push(1)?;
    add_numbers(&mut frame, &[0])?;
    frame.extend_from_slice(&[4, 15])?;
    let (core, turned) = take(core, &frame)?;
    tells(&rt, alloc, &turned, &["commit 4", "reply 5 7 9 done 2"])?;
    let (_core, turned) = call(alloc, core, (9, Op::Put, b"a", b"x"))?;
    assert_eq!(rt;
        replies_text(alloc, &turned)?.as_str(),
        "reply 5 7 9 done 2"
    );
    Ok(())
}

#[test]
fn each_client_has_its_own_numbers(rt: HostRuntime) -> Result<(), Fail> {
    let alloc = rt.alloc();
    let (core, _told) = answered(alloc, leading(alloc)?, (9, Op::Put, b"a", b"x"))?;
    let request = asked(alloc, 8, (1, Op::Get, b"a", b""))?;
    let event = Event::Call {
        place: 6,
        request: &request,
    };
    let (core, _turned) = core.turn(&event)?;
    let (_core, turned) = matched(alloc, core, 1, 2, 1)?;
    tells(
        &rt,
        alloc,
        &turned,
        &["commit 3", "reply 6 8 1 value 2 [120]"],
    )
}
