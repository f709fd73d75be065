//! What the contracts don't say: that calls succeed, on turns worked out by hand.
ghost use Rattle.std.specs.Prelude.{IfOk};
ghost use Rattle.node_core.specs.Turns.{IsFor};

mod asking;
mod calls;
mod gathering;
mod limits;
mod preparing;
mod showing;
mod text;
mod values;

use crate::{Core, Event, Role, Turned};
use craft_base::{MemberId, Shape};
use entry_frames::Kind;
use log_store::LogStore;
use peer_frames::MessageView;
use std::alloc::Global;
use std::process::Abort;
use std::test::Fail;
use test_text::bytes_of;
use text::leaves;

/// A member of three that starts without a journal.
fn started(alloc: Global, number: u8) -> Result<Core, Fail> {
    let shape = Shape::new(1, 1)?;
    let me = MemberId::new(&shape, number).ok_or("no such member")?;
    Ok(Core::boot(alloc, &shape, me, LogStore::new(alloc, &shape))?)
}

/// The event that this member is told the message which these bytes are.
fn event_for<'a>(core: &Core, frame: &'a [u8]) -> Result<Event<'a>, Fail>
    ensures { IfOk result (λ event. IsFor core.now event) }
{
    let view = MessageView::read(&core.member.shape, frame)?;
    let Kind::Peer(_) = view.message_kind() else {
        return Err("no message of a member".into());
    };
    if view.to() != core.member.me {
        return Err("a message to another member".into());
    }
    Ok(Event::Frame(view))
}

/// The turn of a message, which these bytes are.
fn take(core: Core, frame: &[u8]) -> Result<(Core, Turned), Fail> {
    let event = event_for(&core, frame)?;
    Ok(core.turn(&event)?)
}

// ---- turns

/// Member 0, which has stood for election after three quiet ticks.
fn stood(rt: &impl Abort, alloc: Global) -> Result<Core, Fail> {
    let mut core = started(alloc, 0)?;
    for _ in 1..=2 {
        let (next, turned) = core.turn(&Event::Tick { word: 0 })?;
        core = next;
        leaves(rt, alloc, &turned, "", &[])?;
    }
    let (core, turned) = core.turn(&Event::Tick { word: 0 })?;
    // the length of the records, term 1 with a vote for member 0, and the next gate
    leaves(
        rt,
        alloc,
        &turned,
        "000000000000000a 01 0000000000000001 00 00",
        &[
            "role Candidate 1",
            "send 0 1 1 vote 0 0",
            "send 0 2 1 vote 0 0",
        ],
    )?;
    Ok(core)
}

#[test]
fn three_quiet_ticks_start_an_election(rt: HostRuntime) -> Result<(), Fail> {
    let core = stood(&rt, rt.alloc())?;
    assert_eq!(rt; core.role(), Role::Candidate);
    assert_eq!(rt; core.store().term(), 1);
    assert_eq!(rt; core.store().vote(), Some(0));
    Ok(())
}

/// By hand, behind a head of F = 1, k = 1 and the kind, the sender and the receiver: term, granted.
const VOTED: &str = "4352010101 02 01 00 0000000000000001 01";

/// Term, yes, prev, count, mask.
const MATCHED: &str = "4352010101 04 01 00 0000000000000001 01 0000000000000000 01 01";

/// Term, prev, its term, commit, count, an empty entry.
const FIRST_APPEND: &str =
    "4352010101 03 00 01 0000000000000001 0000000000000000 0000000000000000 0000000000000000 01
    01 00 0000000000000001 0000000000000000 0000000000000000 00";

/// The same fields, without an entry.
const SECOND_APPEND: &str =
    "4352010101 03 00 01 0000000000000001 0000000000000001 0000000000000001 0000000000000001 00";

/// By hand, behind a head of F = 1, k = 2 and the kind, the sender and the receiver: term, prev, its term, commit, count, an empty
/// entry, one with a fragment of two bytes, and one with its value.
const MIXED: &str =
    "4352010102 03 00 01 0000000000000001 0000000000000000 0000000000000000 0000000000000000 03
    01 00 0000000000000001 0000000000000000 0000000000000000 00
    02 01 0000000000000001 0000000000000007 0000000000000001 01 61 00000002 1d
    01 01 0000000000000001 0000000000000007 0000000000000002 01 61 00000002 0080";

/// The group of a commit index of 1.
const COMMITTED: &str = "0000000000000009 05 0000000000000001 00";

#[test]
fn a_leader_commits_its_empty_entry(rt: HostRuntime) -> Result<(), Fail> {
    let alloc = rt.alloc();
    let core = stood(&rt, alloc)?;
    let (core, turned) = take(core, &bytes_of(alloc, VOTED)?)?;
    leaves(
        &rt,
        alloc,
        &turned,
        "000000000000001c 02 01 00 0000000000000001 0000000000000000 0000000000000000 00 00",
        &[
            "role Leader 1",
            "send 0 1 1 append 0 0 0 w",
            "send 0 2 1 append 0 0 0 w",
        ],
    )?;
    let (core, turned) = take(core, &bytes_of(alloc, MATCHED)?)?;
    leaves(&rt, alloc, &turned, COMMITTED, &["commit 1"])?;
    // what it hears again changes nothing
    let (core, turned) = take(core, &bytes_of(alloc, MATCHED)?)?;
    leaves(&rt, alloc, &turned, "", &[])?;
    assert_eq!(rt; core.role(), Role::Leader);
    Ok(())
}

#[test]
fn a_follower_takes_an_append_and_answers(rt: HostRuntime) -> Result<(), Fail> {
    let alloc = rt.alloc();
    let core = started(alloc, 1)?;
    let (core, turned) = take(core, &bytes_of(alloc, FIRST_APPEND)?)?;
    // term 1 without a vote, and the entry
    leaves(
        &rt,
        alloc,
        &turned,
        "0000000000000026 01 0000000000000001 ff
        02 01 00 0000000000000001 0000000000000000 0000000000000000 00 00",
        &["role Follower 1", "send 1 0 1 matched 0 1 1"],
    )?;
    let (core, turned) = take(core, &bytes_of(alloc, SECOND_APPEND)?)?;
    leaves(
        &rt,
        alloc,
        &turned,
        COMMITTED,
        &["commit 1", "send 1 0 1 matched 1 0 0"],
    )?;
    assert_eq!(rt; core.role(), Role::Follower);
    Ok(())
}
