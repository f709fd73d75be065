//! What the contracts don't say: that calls succeed, and what a crash leaves, by bytes worked out by hand.
use crate::MemDisk;
use craft_edge::{Disk, Failed, Stopping};
use std::alloc::Global;
use std::test::Fail;

// A disk with these calls to fail, which holds 1, 2, 3 for good where its calls don't fail.
fn disk_of(fail: Vec<u64>) -> MemDisk {
    let mut disk = MemDisk::new(fail);
    let _ = disk.write_at(0, &[1, 2, 3]);
    let _ = disk.sync();
    disk
}

// A write over 2 and 3, a sync, a write behind them and a sync; and which of these calls succeeded.
fn four_calls<D: Disk>(disk: &mut D) -> [bool; 4] {
    [
        disk.write_at(1, &[9, 9]).is_ok(),
        disk.sync().is_ok(),
        disk.write_at(3, &[7]).is_ok(),
        disk.sync().is_ok(),
    ]
}

fn stop_at<S: Stopping>(disk: &mut S, call: u8, keep: bool) {
    if call > 0 {
        disk.stop(call, keep);
    }
}

// All that a read gives, of eight bytes at most.
fn contents<D: Disk>(alloc: Global, disk: &mut D) -> Result<Vec<u8>, Fail> {
    let mut buf = vec![in alloc; 0; 8]?;
    let count = disk.read_at(0, &mut buf).map_err(|_| "the read failed")?;
    buf.truncate(count);
    Ok(buf)
}

#[test]
fn a_crash_keeps_or_spoils_what_is_pending(rt: HostRuntime) -> Result<(), Fail> {
    let alloc = rt.alloc();
    let table: [(u8, [bool; 4], &[u8], &[u8]); 5] = [
        (1, [false, false, false, false], &[1, 9, 9], &[1, 246, 246]),
        (2, [true, false, false, false], &[1, 9, 9], &[1, 246, 246]),
        (
            3,
            [true, true, false, false],
            &[1, 9, 9, 7],
            &[1, 9, 9, 248],
        ),
        (4, [true, true, true, false], &[1, 9, 9, 7], &[1, 9, 9, 248]),
        (5, [true, true, true, true], &[1, 9, 9, 7], &[1, 9, 9, 7]),
    ];
    for (call, succeeded, kept, spoiled) in table {
        for (keep, expected) in [(true, kept), (false, spoiled)] {
            let mut disk = disk_of(Vec::new(alloc));
            stop_at(&mut disk, call, keep);
            assert_eq!(rt; four_calls(&mut disk), succeeded, "stopped at call {call}");
            assert_eq!(rt;
                disk.len().is_ok(),
                call > 5,
                "the call behind, stopped at call {call}"
            );
            assert!(rt; !disk.starved());
            let mut image = disk.image(alloc)?;
            assert_eq!(rt;
                contents(alloc, &mut image)?.as_slice(),
                expected,
                "stopped at call {call}, {keep}"
            );
            assert_eq!(rt; four_calls(&mut image), [true; 4], "the image has no stop");
        }
    }
    Ok(())
}

#[test]
fn listed_calls_fail_and_write_nothing(rt: HostRuntime) -> Result<(), Fail> {
    let alloc = rt.alloc();
    let mut disk = disk_of(vec![in alloc; 3, 6]?);
    assert_eq!(rt; disk.write_at(0, &[8]), Err(Failed));
    assert_eq!(rt; disk.len(), Ok(3));
    assert_eq!(rt; disk.write_at(0, &[5]), Ok(()));
    assert_eq!(rt; disk.sync(), Err(Failed));
    assert_eq!(rt;
        contents(alloc, &mut disk)?.as_slice(),
        [5, 2, 3].as_slice()
    );
    // a sync that fails leaves what is pending
    disk.stop(1, false);
    assert!(rt; !disk.starved());
    let mut image = disk.image(alloc)?;
    assert_eq!(rt;
        contents(alloc, &mut image)?.as_slice(),
        [250, 2, 3].as_slice()
    );
    // without a stop a crash leaves what a read gives
    assert_eq!(rt; image.write_at(0, &[6]), Ok(()));
    let mut again = image.image(alloc)?;
    assert_eq!(rt;
        contents(alloc, &mut again)?.as_slice(),
        [6, 2, 3].as_slice()
    );
    Ok(())
}

#[test]
fn a_write_that_ends_too_far_out_starves(rt: HostRuntime) -> Result<(), Fail> {
    let alloc = rt.alloc();
    let mut disk = disk_of(Vec::new(alloc));
    assert_eq!(rt; disk.write_at(1 << 62, &[8]), Err(Failed));
    assert_eq!(rt; disk.write_at(u64::MAX, &[8, 8]), Err(Failed));
    assert!(rt; disk.starved());
    assert_eq!(rt; disk.len(), Ok(3));
    let image = disk.image(alloc)?;
    assert!(rt; !image.starved());
    Ok(())
}

#[test]
fn ranges_overlap_and_gaps_are_zeros(rt: HostRuntime) -> Result<(), Fail> {
    let alloc = rt.alloc();
    let mut disk = MemDisk::new(Vec::new(alloc));
    assert_eq!(rt; disk.sync(), Ok(()));
    assert_eq!(rt; disk.write_at(2, &[4, 5]), Ok(()));
    assert_eq!(rt; disk.write_at(3, &[6, 7]), Ok(()));
    assert_eq!(rt; disk.write_at(9, &[]), Ok(()));
    assert_eq!(rt;
        contents(alloc, &mut disk)?.as_slice(),
        [0, 0, 4, 6, 7].as_slice()
    );
    let mut buf = [1; 4];
    assert_eq!(rt; disk.read_at(3, &mut buf), Ok(2));
    assert_eq!(rt; buf, [6, 7, 1, 1]);
    assert_eq!(rt; disk.read_at(5, &mut buf), Ok(0));
    assert_eq!(rt; disk.read_at(u64::MAX, &mut buf), Ok(0));
    assert_eq!(rt; disk.read_at(0, &mut []), Ok(0));
    // the later stop takes the place of the earlier one
    disk.stop(1, true);
    disk.stop(2, false);
    assert_eq!(rt; disk.len(), Ok(5));
    assert_eq!(rt; disk.len(), Err(Failed));
    let mut image = disk.image(alloc)?;
    assert_eq!(rt;
        contents(alloc, &mut image)?.as_slice(),
        [0, 0, 251, 249, 248].as_slice()
    );
    Ok(())
}
