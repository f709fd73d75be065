//! Whole runs of the top call, with what they print worked out by hand.
ghost use Rattle.std.specs.Prelude.{◌<◌};

use crate::paths::paths_of;
use crate::status::Status;
use crate::top::craft;
use craft_edge::{MemClock, MemLink, MemSink, MemSource};
use crash_disk::MemDisk;
use std::alloc::Global;
use std::test::Fail;

const ELECTION: &[u8] = b"tick 0 0\ntick 0 0\ntick 0 0\ntake 1\ntake 3\n";

const ELECTION_TEXT: &[u8] =
    b"1 done\n2 done\n3 done\nrole 0 candidate 1\nsend 1 0 1 vote 1 0 0\nsend 2 0 2 vote 1 0 0\n4 done\nrole 1 follower 1\nsend 3 1 0 voted 1 yes\n5 done\nrole 0 leader 1\nsend 4 0 1 append 1 0 0 0 w\nsend 5 0 2 append 1 0 0 0 w\n";

/// The words of a command line.
pub(crate) fn words_of(alloc: Global, line: &str) -> Result<Vec<String>, Fail> {
    let mut words = Vec::new(alloc);
    for word in line.split(' ') {
        words.push(String::from_str(alloc, word)?)?;
    }
    Ok(words)
}

/// The status of a run over a source and a sink, and what it wrote.
fn run_over(
    alloc: Global,
    line: &str,
    mut src: MemSource,
    mut out: MemSink,
) -> Result<(Status, Vec<u8>), Fail> {
    let words = words_of(alloc, line)?;
    if paths_of(alloc, &words)?.len() != 0 {
        return Err("a command that has a journal".into());
    }
    let mut link = MemLink::new(Vec::new(alloc), Vec::new(alloc));
    let mut clock = MemClock::new(vec![in alloc; 0]?);
    let disks: Vec<MemDisk> = Vec::new(alloc);
    let (status, _) = craft(
        alloc, &words, &mut src, &mut out, disks, &mut link, &mut clock,
    );
    Ok((status, out.taken().to_vec(alloc)?))
}

/// The same where nothing fails: what is read and what is written goes in pieces of at most that many bytes.
pub(crate) fn run(
    alloc: Global,
    line: &str,
    input: &[u8],
    piece: usize,
) -> Result<(Status, Vec<u8>), Fail>
    requires { 0 < piece }
{
    let src = MemSource::new(input.to_vec(alloc)?, piece, Vec::new(alloc));
    run_over(alloc, line, src, MemSink::new(piece, Vec::new(alloc)))
}

#[test]
fn an_election_is_printed(rt: HostRuntime) -> Result<(), Fail> {
    for piece in [1usize, 2, 3, 7, 4096] {
        assert!(rt; piece > 0);
        let (status, text) = run(rt.alloc(), "replay 1 1", ELECTION, piece)?;
        assert_eq!(rt; status, Status::Done, "in pieces of {piece}");
        assert_eq!(rt; text.as_slice(), ELECTION_TEXT, "in pieces of {piece}");
    }
    let (status, text) = run(rt.alloc(), "replay 1 1", b"", 1)?;
    assert_eq!(rt; status, Status::Done);
    assert_eq!(rt; text.len(), 0);
    Ok(())
}

#[test]
fn a_repeated_vote_counts_once(rt: HostRuntime) -> Result<(), Fail> {
    let input =
        b"tick 0 0\ntick 0 0\ntick 0 0\ntick 1 0\ntick 1 0\ntick 1 0\ntake 2\ntake 6\ntake 9\ntake 9\ntake 10\n";
    let want =
        b"1 done\n2 done\n3 done\nrole 0 candidate 1\nsend 1 0 1 vote 1 0 0\nsend 2 0 2 vote 1 0 0\nsend 3 0 3 vote 1 0 0\nsend 4 0 4 vote 1 0 0\n4 done\n5 done\n6 done\nrole 1 candidate 1\nsend 5 1 0 vote 1 0 0\nsend 6 1 2 vote 1 0 0\nsend 7 1 3 vote 1 0 0\nsend 8 1 4 vote 1 0 0\n7 done\nrole 2 follower 1\nsend 9 2 0 voted 1 yes\n8 done\nsend 10 2 1 voted 1 no\n9 done\n10 done\n11 done\n";
    let (status, text) = run(rt.alloc(), "replay 2 1", input, 4096)?;
    assert_eq!(rt; status, Status::Done);
    assert_eq!(rt; text.as_slice(), want.as_slice());
    Ok(())
}

#[test]
fn words_that_are_no_command_are_refused(rt: HostRuntime) -> Result<(), Fail> {
    for line in [
        "replay 8 1",
        "replay 1 3",
        "replay 0 1",
        "replay 1 0",
        "replay 1",
        "replay 1 1 1",
        "replay 01 1",
        "replay +1 1",
        "replay 1 257",
        "replay  1",
        "Replay 1 1",
        "node 1 1",
        "",
    ] {
        let (status, text) = run(rt.alloc(), line, ELECTION, 4096)?;
        assert_eq!(rt; status, Status::BadWords, "at {line}");
        assert_eq!(rt; text.len(), 0, "at {line}");
    }
    Ok(())
}

#[test]
fn the_first_bad_line_is_told(rt: HostRuntime) -> Result<(), Fail> {
    // input, what is written, the bad line (0: none)
    let table: [(&[u8], &[u8], u64); 14] = [
        (b"tick 0 0\ntick 0", b"1 done\n", 2),
        (b"take 1\n", b"1 none\n", 0),
        (b"take 1", b"", 1),
        (b"take 1\n\ntake 1\n", b"1 none\n", 2),
        (b"take  1\n", b"", 1),
        (b"take 1 \n", b"", 1),
        (b"tick 0 18446744073709551615\n", b"1 done\n", 0),
        (b"tick 0 18446744073709551616\n", b"", 1),
        (b"take 0\n", b"", 1),
        (b"tick 2 0\ntick 3 0\n", b"1 done\n", 2),
        (b"take 1\r\n", b"", 1),
        (b"take 1\0\n", b"", 1),
        (b"tick 0 00\n", b"", 1),
        (b"tick 0 -1\n", b"", 1),
    ];
    for (input, want, line) in table {
        let (status, text) = run(rt.alloc(), "replay 1 1", input, 4096)?;
        let want_status = if line == 0 {
            Status::Done
        } else {
            Status::BadSchedule { line }
        };
        assert_eq!(rt; status, want_status, "at {input:?}");
        assert_eq!(rt; text.as_slice(), want, "at {input:?}");
    }
    Ok(())
}

#[test]
fn a_long_line_and_a_late_line_are_bad(rt: HostRuntime) -> Result<(), Fail> {
    let alloc = rt.alloc();
    for length in [69_999usize, 70_000, 70_001] {
        let mut input = vec![in alloc; b'0'; length]?;
        input.push(b'\n')?;
        let (status, text) = run(rt.alloc(), "replay 1 1", &input, 4096)?;
        assert_eq!(rt; status, Status::BadSchedule { line: 1 }, "at {length}");
        assert_eq!(rt; text.len(), 0, "at {length}");
    }
    let mut input = Vec::new(alloc);
    for _ in 0..1_000_000 {
        input.extend_from_slice(b"take 1\n")?;
    }
    assert_eq!(rt;
        run(rt.alloc(), "replay 1 1", &input, 4096)?.0,
        Status::Done
    );
    input.extend_from_slice(b"take 1\n")?;
    let (status, _) = run(rt.alloc(), "replay 1 1", &input, 4096)?;
    assert_eq!(rt; status, Status::BadSchedule { line: 1_000_001 });
    Ok(())
}

#[test]
fn a_device_that_fails_ends_the_run(rt: HostRuntime) -> Result<(), Fail> {
    let alloc = rt.alloc();
    // the failing read, what is written before it: a line of nine bytes takes nine reads
    for (call, want) in [(1, b"".as_slice()), (9, b""), (10, b"1 done\n")] {
        let src = MemSource::new(ELECTION.to_vec(alloc)?, 1, vec![in alloc; call]?);
        let (status, text) = run_over(
            rt.alloc(),
            "replay 1 1",
            src,
            MemSink::new(1, Vec::new(alloc)),
        )?;
        assert_eq!(rt; status, Status::SourceFault, "at read {call}");
        assert_eq!(rt; text.as_slice(), want, "at read {call}");
    }
    // the failing write, what was taken before it
    for (call, want) in [(1, b"".as_slice()), (3, b"1 "), (8, b"1 done\n")] {
        let src = MemSource::new(ELECTION.to_vec(alloc)?, 4096, Vec::new(alloc));
        let out = MemSink::new(1, vec![in alloc; call]?);
        let (status, text) = run_over(rt.alloc(), "replay 1 1", src, out)?;
        assert_eq!(rt; status, Status::SinkFault, "at write {call}");
        assert_eq!(rt; text.as_slice(), want, "at write {call}");
    }
    Ok(())
}
