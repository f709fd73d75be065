use crate::*;
use craft_base::{Blob, MemberId, Op, Request, Shape};
use std::alloc::Global;
use std::process::Abort;
use std::test::Fail;

/// The most that a number of a request can be.
const GREATEST: u64 = 1 << 62;

/// A client's request, without the key and the value.
#[derive(Drop)]
struct Asked {
    member: u8,
    client: u64,
    seq: u64,
    op: Op,
}

fn asking(member: u8, client: u64, seq: u64, op: Op) -> Asked {
    Asked {
        member,
        client,
        seq,
        op,
    }
}

/// It is asked of a member of a cluster of three.
fn call(alloc: Global, asked: &Asked, key: &[u8], value: &[u8]) -> Result<Inner, Fail> {
    let shape = Shape::new(1, 2)?;
    Ok(Inner::Call {
        member: MemberId::new(&shape, asked.member).unwrap_or_default(),
        request: Request {
            client: asked.client,
            seq: asked.seq,
            op: asked.op,
            key: Blob::copy_of(alloc, key)?,
            value: Blob::copy_of(alloc, value)?,
        },
    })
}

/// The line is read as that call.
fn assert_call(
    rt: &impl Abort,
    alloc: Global,
    line: &[u8],
    asked: &Asked,
    key: &[u8],
    value: &[u8],
) -> Result<(), Fail> {
    let shape = Shape::new(1, 2)?;
    let want = Line::Do(call(alloc, asked, key, value)?);
    assert_same(rt, alloc, &read_line(alloc, &shape, line)?, &want)
}

#[test]
fn a_call_is_read(rt: HostRuntime) -> Result<(), Fail> {
    let alloc = rt.alloc();
    let put = asking(0, 7, 1, Op::Put);
    assert_call(
        &rt,
        alloc,
        b"call 0 7 1 put 61 0080",
        &put,
        b"a",
        b"\x00\x80",
    )?;
    assert_call(&rt, alloc, b"call 0 7 1 put 00ff -", &put, b"\x00\xff", b"")?;
    let get = asking(2, 1, 1, Op::Get);
    assert_call(&rt, alloc, b"call 2 1 1 get 61 -", &get, b"a", b"")?;
    let line = b"call 1 4611686018427387904 4611686018427387904 del 6f -";
    let del = asking(1, GREATEST, GREATEST, Op::Del);
    assert_call(&rt, alloc, line, &del, b"o", b"")
}

#[test]
fn a_version_is_expected(rt: HostRuntime) -> Result<(), Fail> {
    let alloc = rt.alloc();
    let absent = asking(0, 7, 1, Op::PutIf(0));
    assert_call(
        &rt,
        alloc,
        b"call 0 7 1 putif=0 61 9c",
        &absent,
        b"a",
        b"\x9c",
    )?;
    let twelve = asking(0, 7, 1, Op::PutIf(12));
    assert_call(&rt, alloc, b"call 0 7 1 putif=12 61 -", &twelve, b"a", b"")?;
    let line = b"call 0 7 1 putif=4611686018427387904 61 -";
    let last = asking(0, 7, 1, Op::PutIf(GREATEST));
    assert_call(&rt, alloc, line, &last, b"a", b"")
}

#[test]
fn a_machine_stops_in_a_call(rt: HostRuntime) -> Result<(), Fail> {
    let alloc = rt.alloc();
    let shape = Shape::new(1, 2)?;
    let event = call(alloc, &asking(0, 7, 1, Op::Put), b"a", b"\x01")?;
    let want = Line::Stop {
        call: 3,
        keep: true,
        event,
    };
    let read = read_line(alloc, &shape, b"stop 3 1 call 0 7 1 put 61 01")?;
    assert_same(&rt, alloc, &read, &want)
}

/// Two lines say the same.
fn assert_same(rt: &impl Abort, alloc: Global, read: &Line, want: &Line) -> Result<(), Fail> {
    let read = format!(in alloc; "{read:?}")?;
    let want = format!(in alloc; "{want:?}")?;
    assert_eq!(rt; read.as_str(), want.as_str());
    Ok(())
}

/// What is no call of a cluster of three.
const BAD_CALLS: [&[u8]; 46] = [
    // who is asked, and by whom
    b"call 3 7 1 put 61 00",
    b"call 256 7 1 put 61 00",
    b"call 0 0 1 put 61 00",
    b"call 0 4611686018427387905 1 put 61 00",
    b"call 0 07 1 put 61 00",
    b"call 0 7 0 put 61 00",
    b"call 0 7 4611686018427387905 put 61 00",
    // what is asked for
    b"call 0 7 1 noop 61 -",
    b"call 0 7 1 Put 61 00",
    b"call 0 7 1 puts 61 00",
    b"call 0 7 1 pu 61 00",
    b"call 0 7 1  61 00",
    b"call 0 7 1 put=1 61 00",
    b"call 0 7 1 putif 61 00",
    b"call 0 7 1 putif= 61 00",
    b"call 0 7 1 putif=01 61 00",
    b"call 0 7 1 putif=-1 61 00",
    b"call 0 7 1 putif=a 61 00",
    b"call 0 7 1 putif=4611686018427387905 61 00",
    b"call 0 7 1 putif=18446744073709551616 61 00",
    b"call 0 7 1 Putif=1 61 00",
    // of which key
    b"call 0 7 1 put - 00",
    b"call 0 7 1 put  00",
    b"call 0 7 1 put 6 00",
    b"call 0 7 1 put 616 00",
    b"call 0 7 1 put 6A 00",
    b"call 0 7 1 put 6g 00",
    b"call 0 7 1 put 0x61 00",
    b"call 0 7 1 put -- 00",
    // with which value
    b"call 0 7 1 put 61 ",
    b"call 0 7 1 put 61 0",
    b"call 0 7 1 put 61 000",
    b"call 0 7 1 put 61 AB",
    b"call 0 7 1 put 61 aB",
    b"call 0 7 1 put 61 0g",
    b"call 0 7 1 put 61 --",
    b"call 0 7 1 del 61 00",
    b"call 0 7 1 get 61 00",
    // other words
    b"call",
    b"call 0 7 1 put 61",
    b"call 0 7 1 put 61 00 00",
    b"call 0 7 1 put 61 00 ",
    b"Call 0 7 1 put 61 00",
    b"stop 3 1 call 0 0 1 put 61 00",
    b"stop 3 1 call 0 7 1 put 61",
    b"stop 5 1 call 0 7 1 put 61 00",
];

/// Whether a line is refused as a bad one.
fn is_bad(alloc: Global, shape: &Shape, line: &[u8]) -> bool {
    match read_line(alloc, shape, line) {
        Ok(_) => false,
        Err(fault) => fault == LineFault::Bad,
    }
}

#[test]
fn a_bad_call_is_refused(rt: HostRuntime) -> Result<(), Fail> {
    let shape = Shape::new(1, 2)?;
    for line in BAD_CALLS {
        assert!(rt; is_bad(rt.alloc(), &shape, line), "at {line:?}");
    }
    Ok(())
}

/// A call that puts a value, by how many digits the key and the value have.
fn long_call(alloc: Global, key: usize, value: usize) -> Result<Vec<u8>, Fail> {
    let mut line = b"call 0 7 1 put ".to_vec(alloc)?;
    line.extend_from_slice(&vec![in alloc; b'a'; key]?)?;
    line.push(b' ')?;
    line.extend_from_slice(&vec![in alloc; b'0'; value]?)?;
    Ok(line)
}

/// How many bytes the key and the value of a call have.
fn sizes(line: &Line) -> (usize, usize) {
    match line {
        Line::Do(Inner::Call { request, .. }) => (
            request.key.as_bytes().len(),
            request.value.as_bytes().len(),
        ),
        _ => (0, 0),
    }
}

// By hand: 255 bytes of a key and 32,768 of a value are the most, in two digits each.
#[test]
fn keys_and_values_have_a_limit(rt: HostRuntime) -> Result<(), Fail> {
    let alloc = rt.alloc();
    let shape = Shape::new(1, 2)?;
    for (key, value) in [(510, 2), (2, 65_536), (510, 65_536)] {
        let line = long_call(alloc, key, value)?;
        let read = read_line(alloc, &shape, &line)?;
        assert_eq!(rt; sizes(&read), (key / 2, value / 2));
    }
    for (key, value) in [(511, 2), (512, 2), (2, 65_537), (2, 65_538)] {
        let line = long_call(alloc, key, value)?;
        assert!(rt; is_bad(alloc, &shape, &line), "at {key} and {value} digits");
    }
    Ok(())
}
