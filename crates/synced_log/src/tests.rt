//! What the contracts don't say: that calls succeed, on bytes worked out by hand, and what each stopped call leaves.
ghost use Rattle.std.specs.Prelude.{◌≡◌, ◌≢◌, ◌<◌, ◌≤◌, [], IfOk, IfSome, OnOk};
ghost use Rattle.craft_base.specs.Shape.{members_of};

use crate::{Groups, Journal, OpenFault, Owner};
use craft_base::{MemberId, OutOfMemory, Shape};
use craft_edge::{Disk, Failed, Stopping};
use crash_disk::MemDisk;
use entry_frames::{Group, GroupBuilder, RecordView};
use std::alloc::Global;
use std::test::Fail;

/// A disk in memory that tells nothing, so that what a call asks of a disk that tells its bytes is empty. The tests look at the
/// bytes themselves.
#[derive(Drop)]
struct Untold {
    disk: MemDisk,
}

impl Disk for Untold {
    ghost use Rattle.std.specs.Prelude.{None, false};

    ghost seen = { λ _. None };

    ghost tells_crash = { λ _. false };

    ghost may_leave = { λ _ image. ⊥ };

    ghost tells_past = { λ _. false };

    ghost moment = { λ _. 0 };

    ghost left_since = { λ _ t image. ⊥ };

    ghost history = { λ _. None };

    ghost faults = { λ d. d.disk.calls.faults };

    ghost leaves_seen = { λ d told. tt };

    ghost counts_now = { λ d t image told le now. now };

    ghost only_now = { λ d image told since. since };

    fn len(&mut self) -> Result<u64, Failed> {
        self.disk.len()
    }

    fn read_at(&mut self, at: u64, buf: &mut [u8]) -> Result<usize, Failed> {
        self.disk.read_at(at, buf)
    }

    fn write_at(&mut self, at: u64, bytes: &[u8]) -> Result<(), Failed> {
        self.disk.write_at(at, bytes)
    }

    fn sync(&mut self) -> Result<(), Failed> {
        self.disk.sync()
    }
}

impl Stopping for Untold {
    fn stop(&mut self, call: u8, keep: bool) {
        self.disk.stop(call, keep);
    }
}

/// The journal of member 1 of three after it voted for member 0 in term 1: a header, a group of two records, a closed gate.
const VOTED: [u8; 62] = [
    0x43, 0x52, 0x41, 0x46, 0x54, 0x4c, 0x4f, 0x47, 1, 1, 1, 1, 0, 0, 0, 0, 0, 0, 0, 0, 0, 0, 0, 0,
    0, 0, 0, 0, 0, 0, 0, 0, 1, 0, 0, 0, 0, 0, 0, 0, 0x14, 1, 0, 0, 0, 0, 0, 0, 0, 1, 0xff, 1, 0, 0,
    0, 0, 0, 0, 0, 1, 0, 0,
];

/// A synced disk with these bytes.
fn disk_with(alloc: Global, bytes: &[u8]) -> Untold {
    let mut disk = MemDisk::new(Vec::new(alloc));
    let _ = disk.write_at(0, bytes);
    let _ = disk.sync();
    Untold { disk }
}

/// All that a read gives.
fn contents(alloc: Global, disk: &mut Untold) -> Result<Vec<u8>, Fail> {
    let len = disk.len().map_err(|_| "the length is missing")?;
    let mut buf = vec![in alloc; 0; len as usize]?;
    let count = disk.read_at(0, &mut buf).map_err(|_| "the read failed")?;
    buf.truncate(count);
    Ok(buf)
}

/// Opens the journal of a member of a cluster of three.
fn open_as(alloc: Global, disk: Untold, me: u8) -> Result<(Journal<Untold>, Groups), OpenFault> {
    let Ok(shape) = Shape::new(1, 1) else {
        return Err(OpenFault::OutOfMemory);
    };
    let Some(me) = MemberId::new(&shape, me) else {
        return Err(OpenFault::OutOfMemory);
    };
    Journal::open(alloc, disk, &shape, me).map_err(|(fault, _)| fault)
}

/// A group with one record: a term without a vote.
fn term_group(alloc: Global, term: u64) -> Result<Group, OutOfMemory> {
    GroupBuilder::new(alloc)?
        .put(&RecordView::Term(term, None))?
        .close()
}

/// Adds a group that isn't empty.
fn append(journal: Journal<Untold>, shape: &Group) -> Result<Journal<Untold>, Untold> {
    if shape.is_empty() {
        return Err(journal.give_back());
    }
    journal.append(shape)
}

#[test]
fn a_vote_is_read(rt: HostRuntime) -> Result<(), Fail> {
    let alloc = rt.alloc();
    let Ok((mut journal, groups)) = open_as(alloc, disk_with(alloc, &VOTED), 1) else {
        return Err("not opened".into());
    };
    assert_eq!(rt; groups.count(), 1);
    assert!(rt; groups.at(0) == Some((32, &VOTED[41..61])));
    assert!(rt; groups.at(1).is_none());
    journal.stop(1, true);
    let mut disk = journal.give_back();
    assert_eq!(rt; disk.len(), Err(Failed));
    Ok(())
}

#[test]
fn another_is_refused(rt: HostRuntime) -> Result<(), Fail> {
    let alloc = rt.alloc();
    let fault = open_as(alloc, disk_with(alloc, &VOTED), 0).err();
    let found = Owner { f: 1, k: 1, me: 1 };
    let wanted = Owner { f: 1, k: 1, me: 0 };
    assert!(rt; fault == Some(OpenFault::WrongOwner { found, wanted }));
    let mut shut = VOTED;
    shut[32] = 0xfe;
    let Ok((_, groups)) = open_as(alloc, disk_with(alloc, &shut), 1) else {
        return Err("a closed gate isn't a fault".into());
    };
    assert_eq!(rt; groups.count(), 0);
    Ok(())
}

#[test]
fn each_shorter_file_has_its_fault(rt: HostRuntime) -> Result<(), Fail> {
    let alloc = rt.alloc();
    for len in 33..62_usize {
        let gate = if len == 61 { 61 } else { 32 };
        let fault = open_as(alloc, disk_with(alloc, &VOTED[..len]), 1).err();
        assert!(rt; fault == Some(OpenFault::BadJournal(gate)), "{len} bytes");
    }
    Ok(())
}

/// The bytes of a journal without groups.
fn born(alloc: Global) -> Result<Vec<u8>, Fail> {
    let mut bytes = Vec::new(alloc);
    bytes.extend_from_slice(&VOTED[..32])?;
    bytes.push(0)?;
    Ok(bytes)
}

/// What a crash leaves.
fn image(alloc: Global, disk: Untold) -> Result<Untold, Fail> {
    let disk = disk.disk.image(alloc)?;
    Ok(Untold { disk })
}

#[test]
fn a_file_is_created_through_each_crash(rt: HostRuntime) -> Result<(), Fail> {
    let alloc = rt.alloc();
    for start in [0, 5, 32_usize] {
        for call in 1..=10_u8 {
            for keep in [true, false] {
                let mut disk = disk_with(alloc, &VOTED[..start]);
                disk.stop(call, keep);
                let left = match created(alloc, disk) {
                    Some(disk) => disk,
                    None => continue,
                };
                let mut left = image(alloc, left)?;
                let Ok((journal, groups)) = open_as(alloc, left, 1) else {
                    return Err("the image isn't opened".into());
                };
                assert_eq!(rt; groups.count(), 0);
                left = journal.give_back();
                assert!(rt; contents(alloc, &mut left)?.as_slice() == born(alloc)?.as_slice());
            }
        }
    }
    Ok(())
}

/// The disk after an attempt to open it; `None` for want of memory alone.
fn created(alloc: Global, disk: Untold) -> Option<Untold> {
    let shape = Shape::new(1, 1).ok()?;
    let me = MemberId::new(&shape, 1)?;
    match Journal::open(alloc, disk, &shape, me) {
        Ok((journal, _)) => Some(journal.give_back()),
        Err((OpenFault::DiskFault, disk)) => Some(disk),
        Err((_, _)) => None,
    }
}

#[test]
fn a_group_counts_whole_or_not_at_all(rt: HostRuntime) -> Result<(), Fail> {
    let alloc = rt.alloc();
    let shape = term_group(alloc, 2)?;
    for call in 1..=5_u8 {
        for keep in [true, false] {
            let Ok((mut journal, _)) = open_as(alloc, disk_with(alloc, &VOTED), 1) else {
                return Err("not opened".into());
            };
            journal.stop(call, keep);
            let (done, disk) = match append(journal, &shape) {
                Ok(journal) => (true, journal.give_back()),
                Err(disk) => (false, disk),
            };
            assert_eq!(rt; done, call == 5);
            let Ok((_, groups)) = open_as(alloc, image(alloc, disk)?, 1) else {
                return Err("the image isn't opened".into());
            };
            let counts = call == 5 || (call >= 3 && keep);
            assert_eq!(rt;
                groups.count(),
                if counts { 2 } else { 1 },
                "stopped at {call}"
            );
        }
    }
    Ok(())
}

#[test]
fn a_thousand_groups_are_read_again(rt: HostRuntime) -> Result<(), Fail> {
    let alloc = rt.alloc();
    let Ok((mut journal, _)) = open_as(alloc, disk_with(alloc, &[]), 1) else {
        return Err("not created".into());
    };
    for term in 1..=1_000_u64 {
        let shape = term_group(alloc, term)?;
        journal = match append(journal, &shape) {
            Ok(journal) => journal,
            Err(_) => return Err("not added".into()),
        };
    }
    let Ok((_, groups)) = open_as(alloc, journal.give_back(), 1) else {
        return Err("not opened again".into());
    };
    assert_eq!(rt; groups.count(), 1_000);
    assert!(rt;
        groups
            .at(999)
            .is_some_and(|(gate, body)| gate == 32 + 999 * 19 && body.len() == 10)
    );
    // a term that has passed can't be applied
    let Ok((journal, _)) = open_as(alloc, disk_with(alloc, &VOTED), 1) else {
        return Err("not opened".into());
    };
    let Ok(journal) = append(journal, &term_group(alloc, 1)?) else {
        return Err("not added".into());
    };
    let fault = open_as(alloc, journal.give_back(), 1).err();
    assert!(rt; fault == Some(OpenFault::BadJournal(61)));
    Ok(())
}
