//! What `node` makes of a journal, and what it says of one that isn't its own, with the bytes worked out by hand.
use crate::linked_tests::{PLACES, packets, quiet, run, sink};
use crate::status::Status;
use craft_edge::{Disk, MemLink};
use crash_disk::MemDisk;
use std::alloc::Global;
use std::test::Fail;
use synced_log::Owner;
use test_text::bytes_of;

/// The journal of member 1 of three, which took part in term 1 and voted for member 0.
const VOTED: &str =
    "43524146544c4f47 01 01 01 01 0000000000000000000000000000000000000000 01 0000000000000014 01 0000000000000001 ff 01 0000000000000001 00 00";

/// A disk whose file has these digits.
fn disk_of(alloc: Global, digits: &str) -> Result<MemDisk, Fail> {
    let bytes = bytes_of(alloc, digits).map_err(|_| "no digits")?;
    let mut disk = MemDisk::new(Vec::new(alloc));
    disk.write_at(0, &bytes)?;
    disk.sync()?;
    Ok(disk)
}

#[test]
fn a_vote_is_in_the_journal(rt: HostRuntime) -> Result<(), Fail> {
    let alloc = rt.alloc();
    let line = format!(in alloc; "node 1 1 1 0 2 j {PLACES}")?;
    let asks = "43520101 0101 00 01 0000000000000001 0000000000000000 0000000000000000";
    let link = MemLink::new(packets(alloc, asks)?, Vec::new(alloc));
    let disk = MemDisk::new(Vec::new(alloc));
    let mut ran = run(alloc, &line, Some(disk), link, sink(alloc))?;
    assert_eq!(rt; ran.status, Status::Done);
    let told = b"1 done\n2 done\nrole 1 follower 1\nsend 1 1 0 voted 1 yes\n";
    assert_eq!(rt; ran.text.as_slice(), told.as_slice());
    let Some(mut disk) = ran.disks.pop() else {
        return Err("no disk came back".into());
    };
    let mut file = [0u8; 80];
    assert_eq!(rt; disk.read_at(0, &mut file)?, 62);
    let voted = bytes_of(alloc, VOTED).map_err(|_| "no digits")?;
    assert_eq!(rt; &file[..62], voted.as_slice());
    Ok(())
}

#[test]
fn a_journal_that_is_none_of_its_own_is_told(rt: HostRuntime) -> Result<(), Fail> {
    let alloc = rt.alloc();
    let line = format!(in alloc; "node 1 1 0 0 2 j {PLACES}")?;
    let (found, wanted) = (Owner { f: 1, k: 1, me: 1 }, Owner { f: 1, k: 1, me: 0 });
    let disk = disk_of(alloc, VOTED)?;
    let ran = run(alloc, &line, Some(disk), quiet(alloc), sink(alloc))?;
    assert_eq!(rt; ran.status, Status::WrongOwner { found, wanted });
    assert_eq!(rt; ran.text.len(), 0);
    assert_eq!(rt; ran.disks.len(), 1);
    let line = format!(in alloc; "node 1 1 1 0 1 j {PLACES}")?;
    let Some(cut) = VOTED.strip_suffix(" 00") else {
        return Err("no suffix".into());
    };
    let ran = run(
        alloc,
        &line,
        Some(disk_of(alloc, cut)?),
        quiet(alloc),
        sink(alloc),
    )?;
    assert_eq!(rt;
        ran.status,
        Status::BadJournal {
            disk: 0,
            offset: 61
        }
    );
    let disk = disk_of(alloc, VOTED)?;
    let ran = run(alloc, &line, Some(disk), quiet(alloc), sink(alloc))?;
    assert_eq!(rt; ran.status, Status::Done);
    assert_eq!(rt; ran.text.as_slice(), b"1 done\n".as_slice());
    Ok(())
}
