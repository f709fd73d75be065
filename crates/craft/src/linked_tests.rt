//! Whole runs of `node` and `ask` over devices in memory, worked out by hand.
ghost use Rattle.std.specs.Prelude.{◌≤◌, All, IfOk, vec_len};

use crate::paths::{paths_of, place_of};
use crate::status::Status;
use crate::tests::words_of;
use crate::top::craft;
use craft_edge::{Disk, MemClock, MemLink, MemSink, MemSource};
use crash_disk::MemDisk;
use std::alloc::Global;
use std::test::Fail;
use test_text::bytes_of;

/// The end of a command line: where three members listen.
pub(crate) const PLACES: &str = "127.0.0.1:7000 127.0.0.1:7001 127.0.0.1:7002";

/// The first of them: 127 * 2^24 + 1 is 2,130,706,433, and that times 65,536, plus 7000.
pub(crate) const FIRST: u64 = 139_637_976_800_088;

/// What a run left.
#[derive(Drop)]
pub(crate) struct Outcome {
    pub(crate) status: Status,
    pub(crate) text: Vec<u8>,
    pub(crate) disks: Vec<MemDisk>,
    pub(crate) link: MemLink,
}

/// A packet from the first member's place, of these digits.
pub(crate) fn packets(alloc: Global, digits: &str) -> Result<Vec<(u64, Vec<u8>)>, Fail>
    ensures { IfOk result (λ packets. All (λ packet. vec_len packet.1 ≤ 65536) packets.items) }
{
    let bytes = bytes_of(alloc, digits).map_err(|_| "no digits")?;
    if bytes.len() > 65_536 {
        return Err("too long".into());
    }
    Ok(vec![in alloc; (FIRST, bytes)]?)
}

/// Runs `node` over a disk, or another command where there is none.
pub(crate) fn run(
    alloc: Global,
    line: &str,
    disk: Option<MemDisk>,
    link: MemLink,
    out: MemSink,
) -> Result<Outcome, Fail> {
    let words = words_of(alloc, line)?;
    let mut disks = Vec::new(alloc);
    if let Some(disk) = disk {
        disks.push(disk)?;
    }
    if paths_of(alloc, &words)?.len() != disks.len() {
        return Err("another number of disks".into());
    }
    let (mut link, mut out) = (link, out);
    let mut src = MemSource::new(Vec::new(alloc), 1, Vec::new(alloc));
    let mut clock = MemClock::new(vec![in alloc; 0, 1, 1]?);
    let (status, disks) = craft(
        alloc, &words, &mut src, &mut out, disks, &mut link, &mut clock,
    );
    let text = out.taken().to_vec(alloc)?;
    Ok(Outcome {
        status,
        text,
        disks,
        link,
    })
}

pub(crate) fn sink(alloc: Global) -> MemSink {
    MemSink::new(4096, Vec::new(alloc))
}

pub(crate) fn quiet(alloc: Global) -> MemLink {
    MemLink::new(Vec::new(alloc), Vec::new(alloc))
}

#[test]
fn a_put_is_answered(rt: HostRuntime) -> Result<(), Fail> {
    let alloc = rt.alloc();
    let line = format!(in alloc; "ask 1 1 7 1 put a 6263 {PLACES}")?;
    let answer = "43520101010800ff 0000000000000007 0000000000000001 01 0000000000000002";
    let link = MemLink::new(packets(alloc, answer)?, Vec::new(alloc));
    let ran = run(alloc, &line, None, link, sink(alloc))?;
    assert_eq!(rt; ran.status, Status::Done);
    assert_eq!(rt; ran.text.as_slice(), b"reply 0 7 1 done 2\n".as_slice());
    let asked = "435201010107ff00 0000000000000007 0000000000000001 01 01 61 00000002 6263";
    let asked = bytes_of(alloc, asked).map_err(|_| "no digits")?;
    assert_eq!(rt; ran.link.sent(0), Some((FIRST, asked.as_slice())));
    assert_eq!(rt; ran.link.sent(1), None);
    Ok(())
}

#[test]
fn nobody_answers(rt: HostRuntime) -> Result<(), Fail> {
    let alloc = rt.alloc();
    let line = format!(in alloc; "ask 1 1 7 1 put a 6263 {PLACES}")?;
    let ran = run(alloc, &line, None, quiet(alloc), sink(alloc))?;
    assert_eq!(rt; ran.status, Status::NoAnswer { sent: 20 });
    assert_eq!(rt; ran.text.len(), 0);
    assert!(rt; ran.link.sent(19).is_some());
    assert_eq!(rt; ran.link.sent(20), None);
    Ok(())
}

#[test]
fn a_link_or_a_sink_that_fails_ends_ask(rt: HostRuntime) -> Result<(), Fail> {
    let alloc = rt.alloc();
    let line = format!(in alloc; "ask 1 1 7 1 get a - {PLACES}")?;
    let answer = "43520101010800ff 0000000000000007 0000000000000001 05";
    let link = MemLink::new(Vec::new(alloc), vec![in alloc; 1]?);
    let ran = run(alloc, &line, None, link, sink(alloc))?;
    assert_eq!(rt; ran.status, Status::LinkFault);
    assert_eq!(rt; ran.text.len(), 0);
    let link = MemLink::new(packets(alloc, answer)?, Vec::new(alloc));
    let out = MemSink::new(5, vec![in alloc; 2]?);
    let ran = run(alloc, &line, None, link, out)?;
    assert_eq!(rt; ran.status, Status::SinkFault);
    assert_eq!(rt; ran.text.as_slice(), b"reply".as_slice());
    Ok(())
}

#[test]
fn a_node_ticks_and_drops_a_packet(rt: HostRuntime) -> Result<(), Fail> {
    let alloc = rt.alloc();
    let line = format!(in alloc; "node 1 1 0 0 2 j {PLACES}")?;
    let link = MemLink::new(packets(alloc, "00")?, Vec::new(alloc));
    let disk = MemDisk::new(Vec::new(alloc));
    let mut ran = run(alloc, &line, Some(disk), link, sink(alloc))?;
    assert_eq!(rt; ran.status, Status::Done);
    assert_eq!(rt; ran.text.as_slice(), b"1 done\n2 drop\n".as_slice());
    assert_eq!(rt; ran.link.sent(0), None);
    let Some(mut disk) = ran.disks.pop() else {
        return Err("no disk came back".into());
    };
    let mut file = [0u8; 40];
    assert_eq!(rt; disk.read_at(0, &mut file)?, 33);
    let header = "43524146544c4f47 01 01 01 00 0000000000000000000000000000000000000000 00";
    let header = bytes_of(alloc, header).map_err(|_| "no digits")?;
    assert_eq!(rt; &file[..33], header.as_slice());
    Ok(())
}

#[test]
fn a_device_that_fails_ends_a_node(rt: HostRuntime) -> Result<(), Fail> {
    let alloc = rt.alloc();
    let line = format!(in alloc; "node 1 1 0 0 2 j {PLACES}")?;
    let disk = MemDisk::new(vec![in alloc; 1]?);
    let ran = run(alloc, &line, Some(disk), quiet(alloc), sink(alloc))?;
    assert_eq!(rt; ran.status, Status::DiskFault);
    assert_eq!(rt; ran.text.len(), 0);
    let disk = MemDisk::new(Vec::new(alloc));
    let link = MemLink::new(Vec::new(alloc), vec![in alloc; 1]?);
    let ran = run(alloc, &line, Some(disk), link, sink(alloc))?;
    assert_eq!(rt; ran.status, Status::LinkFault);
    assert_eq!(rt; ran.text.as_slice(), b"1 done\n".as_slice());
    let disk = MemDisk::new(Vec::new(alloc));
    let out = MemSink::new(4096, vec![in alloc; 1]?);
    let ran = run(alloc, &line, Some(disk), quiet(alloc), out)?;
    assert_eq!(rt; ran.status, Status::SinkFault);
    assert_eq!(rt; ran.text.len(), 0);
    Ok(())
}

#[test]
fn a_node_has_a_journal_and_a_place(rt: HostRuntime) -> Result<(), Fail> {
    let alloc = rt.alloc();
    let words = words_of(alloc, &format!(in alloc; "node 1 1 0 0 2 j {PLACES}")?)?;
    let paths = paths_of(alloc, &words)?;
    assert_eq!(rt; paths.len(), 1);
    assert_eq!(rt; paths[0].as_str(), "j");
    assert_eq!(rt; place_of(alloc, &words)?, Some(FIRST));
    let words = words_of(alloc, &format!(in alloc; "node 1 1 2 0 2 j {PLACES}")?)?;
    assert_eq!(rt; place_of(alloc, &words)?, Some(FIRST + 2));
    let words = words_of(alloc, &format!(in alloc; "ask 1 1 7 1 get a - {PLACES}")?)?;
    assert_eq!(rt; paths_of(alloc, &words)?.len(), 0);
    assert_eq!(rt; place_of(alloc, &words)?, None);
    Ok(())
}
