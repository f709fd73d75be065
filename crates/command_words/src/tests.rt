//! That words are read where there is memory, with values worked out by hand.
use super::*;
use craft_base::Op;
use std::alloc::Global;
use std::test::Fail;

/// 127.0.0.1 is 0x7f000001, which is 2,130,706,433; times 65,536, and the port 7000 added.
const FIRST: u64 = 139_637_976_800_088;

/// The command of a line, whose words stand between single blanks.
fn read(alloc: Global, line: &str) -> Result<Option<Command>, Fail> {
    let mut words = Vec::new(alloc);
    for word in line.split(' ') {
        words.push(String::from_str(alloc, word)?)?;
    }
    Ok(plan(alloc, &words)?)
}

/// The places of the three members that the tests name.
fn are_three(places: &Places) -> bool {
    places.as_slice() == [FIRST, FIRST + 1, FIRST + 2].as_slice()
}

/// The name of a command, and the two numbers of its cluster.
fn parts_of(command: &Command) -> (&str, u8, u8) {
    match command {
        Command::Replay(shape) => ("replay", shape.faults(), shape.need()),
        Command::Node(node) => ("node", node.shape.faults(), node.shape.need()),
        Command::Ask(ask) => ("ask", ask.shape.faults(), ask.shape.need()),
        Command::Split(shape) => ("split", shape.faults(), shape.need()),
        Command::Join(shape) => ("join", shape.faults(), shape.need()),
        Command::Storm(storm) => ("storm", storm.shape.faults(), storm.shape.need()),
    }
}

#[test]
fn commands_of_a_cluster_alone_are_read(rt: HostRuntime) -> Result<(), Fail> {
    for (line, want) in [
        ("replay 1 2", ("replay", 1u8, 2u8)),
        ("split 1 1", ("split", 1, 1)),
        ("join 7 8", ("join", 7, 8)),
    ] {
        match read(rt.alloc(), line)? {
            Some(command) => assert_eq!(rt; parts_of(&command), want, "at {line}"),
            None => panic!(rt; "{line} isn't read"),
        }
    }
    Ok(())
}

#[test]
fn a_member_is_read(rt: HostRuntime) -> Result<(), Fail> {
    let line =
        "node 1 1 2 18446744073709551615 1000000000000 j 127.0.0.1:7000 127.0.0.1:7001 127.0.0.1:7002";
    match read(rt.alloc(), line)? {
        Some(Command::Node(node)) => {
            assert_eq!(rt; node.shape.faults(), 1);
            assert_eq!(rt; node.me.number(), 2);
            assert_eq!(rt; node.seed, u64::MAX);
            assert_eq!(rt; node.turns, 1_000_000_000_000);
            assert!(rt; are_three(&node.places));
        }
        found => panic!(rt; "{found:?}"),
    }
    Ok(())
}

#[test]
fn a_made_schedule_is_read(rt: HostRuntime) -> Result<(), Fail> {
    let found = read(rt.alloc(), "storm 2 3 18446744073709551615 100000")?;
    match &found {
        Some(Command::Storm(storm)) => {
            assert_eq!(rt; (storm.shape.faults(), storm.shape.need()), (2, 3));
            assert_eq!(rt; storm.seed, u64::MAX);
            assert_eq!(rt; storm.count, 100_000);
        }
        found => panic!(rt; "{found:?}"),
    }
    Ok(())
}

#[test]
fn a_request_is_read(rt: HostRuntime) -> Result<(), Fail> {
    let line = "ask 1 1 7 1 putif=4 a 6263 127.0.0.1:7000 127.0.0.1:7001 127.0.0.1:7002";
    match read(rt.alloc(), line)? {
        Some(Command::Ask(ask)) => {
            assert_eq!(rt; ask.request.client, 7);
            assert_eq!(rt; ask.request.seq, 1);
            assert_eq!(rt; ask.request.op, Op::PutIf(4));
            assert_eq!(rt; ask.request.key.as_bytes(), b"a".as_slice());
            assert_eq!(rt; ask.request.value.as_bytes(), b"bc".as_slice());
            assert!(rt; are_three(&ask.places));
        }
        found => panic!(rt; "{found:?}"),
    }
    Ok(())
}

#[test]
fn other_words_are_refused(rt: HostRuntime) -> Result<(), Fail> {
    for line in [
        "Join 7 8",
        "replay 8 1",
        "replay 1 3",
        "split 1 2 3",
        "storm 1 1 0 0",
        "storm 1 1 0 100001",
        "storm 1 1 18446744073709551616 1",
        "storm 1 1 -1 1",
        "storm 1 1 07 1",
        "storm 1 1 0",
        "storm 1 1 0 1 1",
        "storm 1 3 0 1",
        "node 1 1 3 0 2 j 127.0.0.1:7000 127.0.0.1:7001 127.0.0.1:7002",
        "node 1 1 0 0 2 j 127.0.0.1:7000 127.0.0.1:7001",
        "node 1 1 0 0 0 j 127.0.0.1:7000 127.0.0.1:7001 127.0.0.1:7002",
        "ask 1 1 7 1 put a 6A 127.0.0.1:7000 127.0.0.1:7001 127.0.0.1:7002",
        "ask 1 1 7 1 get a 62 127.0.0.1:7000 127.0.0.1:7001 127.0.0.1:7002",
        "ask 1 1 7 1 get a - 127.0.0.1:7000 127.0.0.1:7001 127.0.0.1:0",
    ] {
        assert!(rt; read(rt.alloc(), line)?.is_none(), "at {line}");
    }
    Ok(())
}
