//! What the contracts don't say: that calls succeed, on steps and bytes worked out by hand.
ghost use Rattle.std.specs.Prelude.{◌≢◌, IfOk};

use crate::{Event, OpenFault, Output, Role, Shell, StepFault};
use craft_base::{MemberId, Shape};
use craft_edge::Disk;
use crash_disk::MemDisk;
use entry_frames::{Message, Peer};
use std::alloc::Global;
use std::process::Abort;
use std::test::Fail;
use synced_log::Owner;
use test_text::bytes_of;

/// Opens the journal of that member of three.
fn opened(alloc: Global, number: u8, disk: MemDisk) -> Result<Shell<MemDisk>, OpenFault> {
    let Ok(shape) = Shape::new(1, 1) else {
        return Err(OpenFault::OutOfMemory);
    };
    let Some(me) = MemberId::new(&shape, number) else {
        return Err(OpenFault::OutOfMemory);
    };
    Shell::open(alloc, &shape, me, disk).map_err(|(fault, _)| fault)
}

/// Member 2 of three on a new disk, two quiet ticks after its start.
fn waiting(alloc: Global) -> Result<Shell<MemDisk>, Fail> {
    let Ok(mut shell) = opened(alloc, 2, MemDisk::new(Vec::new(alloc))) else {
        return Err("not opened".into());
    };
    for _ in 0..2 {
        let Ok((next, told)) = shell.step(&Event::Tick { word: 0 }) else {
            return Err("no step".into());
        };
        if told.list.len() > 0 {
            return Err("something is told".into());
        }
        shell = next;
    }
    Ok(shell)
}

/// All that a read gives.
fn contents(alloc: Global, disk: &mut MemDisk) -> Result<Vec<u8>, Fail> {
    let len = disk.len().map_err(|_| "the length is missing")?;
    let mut buf = vec![in alloc; 0; len as usize]?;
    let count = disk.read_at(0, &mut buf).map_err(|_| "the read failed")?;
    buf.truncate(count);
    Ok(buf)
}

/// The output sends the request of member 2 in term 1, whose log is empty, to that member.
fn asks(rt: &impl Abort, output: &Output, member: u8) -> Result<(), Fail> {
    let Output::Send { message } = output else {
        return Err("nothing is sent".into());
    };
    let Message::Peer {
        from,
        to,
        term,
        body,
    } = message
    else {
        return Err("no message of a member".into());
    };
    assert_eq!(rt; (from.number(), to.number(), *term), (2, member, 1));
    let Peer::Vote { last_term, last } = body else {
        return Err("no request for a vote".into());
    };
    assert_eq!(rt; (*last_term, *last), (0, 0), "to {member}");
    Ok(())
}

#[test]
fn a_candidacy_is_in_the_journal(rt: HostRuntime) -> Result<(), Fail> {
    let alloc = rt.alloc();
    let Ok((shell, told)) = waiting(alloc)?.step(&Event::Tick { word: 0 }) else {
        return Err("no step".into());
    };
    assert_eq!(rt; told.list.len(), 3);
    let Output::Role { role, term } = &told.list[0] else {
        return Err("no role is told".into());
    };
    assert_eq!(rt; (*role, *term), (Role::Candidate, 1));
    asks(&rt, &told.list[1], 0)?;
    asks(&rt, &told.list[2], 1)?;
    // the header; an open gate, the length of the body, term 1 with the vote for member 2; the closed gate
    let want = bytes_of(
        alloc,
        "43524146544c4f47 01 01 01 02 0000000000000000000000000000000000000000 01 000000000000000a 01 0000000000000001 02 00",
    )?;
    let mut disk = shell.give_back();
    assert!(rt; contents(alloc, &mut disk)?.as_slice() == want.as_slice());
    Ok(())
}

#[test]
fn a_vote_outlives_the_run(rt: HostRuntime) -> Result<(), Fail> {
    let alloc = rt.alloc();
    let Ok((shell, _)) = waiting(alloc)?.step(&Event::Tick { word: 0 }) else {
        return Err("no step".into());
    };
    assert_eq!(rt; shell.core().role(), Role::Candidate);
    let Ok(again) = opened(alloc, 2, shell.give_back()) else {
        return Err("not opened again".into());
    };
    assert_eq!(rt; again.core().role(), Role::Follower);
    assert_eq!(rt; again.core().store().term(), 1);
    assert_eq!(rt; again.core().store().vote(), Some(2));
    let fault = opened(alloc, 0, again.give_back()).err();
    let found = Owner { f: 1, k: 1, me: 2 };
    let wanted = Owner { f: 1, k: 1, me: 0 };
    assert!(rt; fault == Some(OpenFault::WrongOwner { found, wanted }));
    Ok(())
}

/// What member 2 voted in the last run, which stopped at that call of its third tick.
fn vote_after(alloc: Global, call: u8, keep: bool) -> Result<Option<u8>, Fail>
    requires { call ≢ 0 }
{
    let mut shell = waiting(alloc)?;
    shell.stop(call, keep);
    let Err((StepFault::DiskFault, disk)) = shell.step(&Event::Tick { word: 0 }) else {
        return Err("the disk didn't stop".into());
    };
    let Ok(again) = opened(alloc, 2, disk.image(alloc)?) else {
        return Err("the image isn't opened".into());
    };
    Ok(again.core().store().vote())
}

#[test]
fn a_stop_leaves_the_vote_or_none(rt: HostRuntime) -> Result<(), Fail> {
    let alloc = rt.alloc();
    for call in 1..=4_u8 {
        let spoiled = vote_after(alloc, call, false)?;
        assert_eq!(rt; spoiled, None, "spoiled at {call}");
        let kept = vote_after(alloc, call, true)?;
        let want = if call >= 3 { Some(2) } else { None };
        assert_eq!(rt; kept, want, "kept at {call}");
    }
    Ok(())
}

#[test]
fn a_disk_that_fails_is_told(rt: HostRuntime) -> Result<(), Fail> {
    let alloc = rt.alloc();
    let fault = opened(alloc, 2, MemDisk::new(vec![in alloc; 1]?)).err();
    assert!(rt; fault == Some(OpenFault::DiskFault));
    Ok(())
}
