//! What the contracts don't say: that calls succeed, on logs and messages worked out by hand.
use crate::{Plan, take_append};
use craft_base::{MemberId, Shape};
use craft_edge::Disk;
use crash_disk::MemDisk;
use entry_frames::{Kind, LogView, PeerKind};
use log_store::LogStore;
use peer_frames::MessageView;
use std::alloc::Global;
use std::process::Abort;
use std::test::Fail;
use synced_log::Journal;
use test_text::{bytes_of, joined};

// By hand, as all of these tables: the header of the journal of member 1 of three, any two of whose fragments rebuild a value.
const HEADER: &str = "43524146544c4f47 01 01 02 01 0000000000000000000000000000000000000000";

/// Term 9 without a vote; a Noop of term 1, a fragment of a Put and a Noop of term 2; the log is committed up to index 1.
const RECORDS: &str = "01 0000000000000009 ff
    02 01 00 0000000000000001 0000000000000000 0000000000000000 00
    02 02 01 0000000000000002 0000000000000007 0000000000000008 01 6b 00000003 aabb
    02 01 00 0000000000000002 0000000000000000 0000000000000000 00
    05 0000000000000001";

/// The head of an Append of term 9 from member 0 to member 1.
const HEAD: &str = "43520101020300010000000000000009";

/// What is behind a head: prev, its term, commit, count, entries; and then the plan.
const PLANS: [(&str, &str); 13] = [
    // past its end
    (
        "0000000000000004 0000000000000002 0000000000000000 00",
        "Refuse { next: 2 }",
    ),
    // of another term
    (
        "0000000000000003 0000000000000001 0000000000000000 00",
        "Refuse { next: 2 }",
    ),
    // another term at what is committed
    (
        "0000000000000000 0000000000000000 0000000000000000 01
            01 00 0000000000000002 0000000000000000 0000000000000000 00",
        "Clash",
    ),
    // an entry more
    (
        "0000000000000003 0000000000000002 0000000000000001 01
            01 00 0000000000000003 0000000000000000 0000000000000000 00",
        "Take { cut: None, wholes: [], first_new: 0, mask: 1, commit: 1 }",
    ),
    // an entry that it has
    (
        "0000000000000002 0000000000000002 0000000000000001 01
            01 00 0000000000000002 0000000000000000 0000000000000000 00",
        "Take { cut: None, wholes: [], first_new: 1, mask: 1, commit: 1 }",
    ),
    // another term right behind what is committed
    (
        "0000000000000001 0000000000000001 0000000000000001 01
            01 00 0000000000000003 0000000000000000 0000000000000000 00",
        "Take { cut: Some(2), wholes: [], first_new: 0, mask: 1, commit: 1 }",
    ),
    // the value of the fragment, and a commit index past what is told
    (
        "0000000000000001 0000000000000001 0000000000000003 01
            01 01 0000000000000002 0000000000000007 0000000000000008 01 6b 00000003 76616c",
        "Take { cut: None, wholes: [2], first_new: 1, mask: 1, commit: 2 }",
    ),
    // the value of another request
    (
        "0000000000000001 0000000000000001 0000000000000001 01
            01 01 0000000000000002 0000000000000007 0000000000000009 01 6b 00000003 76616c",
        "Take { cut: None, wholes: [], first_new: 1, mask: 0, commit: 1 }",
    ),
    // all that it has, and a fragment again
    (
        "0000000000000000 0000000000000000 0000000000000001 03
            01 00 0000000000000001 0000000000000000 0000000000000000 00
            02 01 0000000000000002 0000000000000007 0000000000000008 01 6b 00000003 ccdd
            01 00 0000000000000002 0000000000000000 0000000000000000 00",
        "Take { cut: None, wholes: [], first_new: 3, mask: 5, commit: 1 }",
    ),
    // no entries: the log isn't cut, and no more of it is committed than is told
    (
        "0000000000000001 0000000000000001 0000000000000009 00",
        "Take { cut: None, wholes: [], first_new: 0, mask: 0, commit: 1 }",
    ),
    // an older commit index
    (
        "0000000000000003 0000000000000002 0000000000000000 00",
        "Take { cut: None, wholes: [], first_new: 0, mask: 0, commit: 1 }",
    ),
    // a commit index past the entries
    (
        "0000000000000003 0000000000000002 0000000000000009 01
            01 00 0000000000000003 0000000000000000 0000000000000000 00",
        "Take { cut: None, wholes: [], first_new: 0, mask: 1, commit: 4 }",
    ),
    // the value, then a cut, then a fragment that is new
    (
        "0000000000000001 0000000000000001 0000000000000002 03
            01 01 0000000000000002 0000000000000007 0000000000000008 01 6b 00000003 76616c
            01 00 0000000000000004 0000000000000000 0000000000000000 00
            02 01 0000000000000004 0000000000000007 0000000000000009 01 6b 00000003 ccdd",
        "Take { cut: Some(3), wholes: [2], first_new: 1, mask: 3, commit: 2 }",
    ),
];

/// The state that records leave, in one group of a journal.
fn replayed(alloc: Global, records: &[u8]) -> Result<LogStore, Fail> {
    let mut bytes = bytes_of(alloc, HEADER)?;
    bytes.push(1)?;
    bytes.extend_from_slice(&(records.len() as u64).to_be_bytes())?;
    bytes.extend_from_slice(records)?;
    bytes.push(0)?;
    let mut disk = MemDisk::new(Vec::new(alloc));
    disk.write_at(0, &bytes)?;
    let shape = Shape::new(1, 2)?;
    let me = MemberId::new(&shape, 1).ok_or("no such member")?;
    match Journal::open(alloc, disk, &shape, me) {
        Ok((_, groups)) => Ok(LogStore::replay(alloc, &shape, &groups)?),
        Err((fault, _)) => Err(fault.into()),
    }
}

/// What a member with that log plans on an Append with that behind its head.
#[tactic(auto, using(crate::proofs::Appends::told))]
fn plan_on(rt: &impl Abort, alloc: Global, log: &LogStore, body: &str) -> Result<Plan, Fail> {
    let frame = joined(alloc, &bytes_of(alloc, HEAD)?, &bytes_of(alloc, body)?)?;
    let append = MessageView::read(&Shape::new(1, 2)?, &frame)?;
    let Kind::Peer(PeerKind::Append) = append.message_kind() else {
        return Err("no Append".into());
    };
    assert!(rt; append.count() <= 8);
    Ok(take_append(alloc, log, &append)?)
}

#[test]
fn each_append_is_planned_as_worked_out(rt: HostRuntime) -> Result<(), Fail> {
    let alloc = rt.alloc();
    let log = replayed(alloc, &bytes_of(alloc, RECORDS)?)?;
    for (body, want) in PLANS {
        let plan = plan_on(&rt, alloc, &log, body)?;
        assert_eq!(rt; format!(in alloc; "{plan:?}")?.as_str(), want, "on {body}");
    }
    Ok(())
}
