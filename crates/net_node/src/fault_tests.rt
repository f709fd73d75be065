//! How a run ends where a device fails, by the calls at which it does.
use crate::ServeEnd;
use crate::tests::{ELECTION, quiet_link, ran, ran_on, rising};
use craft_edge::MemSink;
use crash_disk::MemDisk;
use std::test::Fail;

#[test]
fn a_sink_that_fails_ends_it_before_anything_is_sent(rt: HostRuntime) -> Result<(), Fail> {
    let alloc = rt.alloc();
    for call in 1..=3_u64 {
        let link = quiet_link(alloc, Vec::new(alloc));
        let out = MemSink::new(4096, vec![in alloc; call]?);
        let run = ran(alloc, 3, link, rising(alloc)?, out)?;
        assert_eq!(rt; run.end, ServeEnd::SinkFault, "at {call}");
        assert_eq!(rt; run.out.taken().len() as u64, 7 * (call - 1));
        assert_eq!(rt; run.link.sent(0), None);
    }
    Ok(())
}

#[test]
fn a_link_that_fails_ends_it(rt: HostRuntime) -> Result<(), Fail> {
    let alloc = rt.alloc();
    for call in 1..=3_u64 {
        let link = quiet_link(alloc, vec![in alloc; call]?);
        let out = MemSink::new(4096, Vec::new(alloc));
        let run = ran(alloc, 4, link, rising(alloc)?, out)?;
        assert_eq!(rt; run.end, ServeEnd::LinkFault, "at {call}");
        assert!(rt; run.out.taken() == ELECTION.as_bytes());
        assert_eq!(rt; run.link.sent(call - 1), None);
    }
    Ok(())
}

#[test]
fn a_disk_that_fails_ends_it_before_anything_is_told(rt: HostRuntime) -> Result<(), Fail> {
    let alloc = rt.alloc();
    let mut faults = 0_u64;
    for call in 1..=20_u64 {
        let link = quiet_link(alloc, Vec::new(alloc));
        let out = MemSink::new(4096, Vec::new(alloc));
        let disk = MemDisk::new(vec![in alloc; call]?);
        let Some(run) = ran_on(alloc, 3, disk, link, rising(alloc)?, out)? else {
            continue;
        };
        if run.end == ServeEnd::Turns {
            continue;
        }
        assert_eq!(rt; run.end, ServeEnd::DiskFault, "at {call}");
        assert!(rt; run.out.taken() == "1 done\n2 done\n".as_bytes());
        assert_eq!(rt; run.link.sent(0), None);
        faults = faults.saturating_add(1);
    }
    assert_eq!(rt; faults, 4);
    Ok(())
}
