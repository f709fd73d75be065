ghost use Rattle.std.specs.Prelude.{◌≡◌, ◌≤◌, All, IfOk, vec_len};
ghost use Rattle.entry_frames.specs.Formats.{Fits};
ghost use Rattle.entry_frames.specs.MessageFields.{request_fields};

use super::*;
use craft_base::{Blob, Op, OutOfMemory, Request, Shape};
use craft_edge::MemLink;
use std::alloc::{AllocError, Global};
use std::process::Abort;
use std::test::Fail;
use test_text::bytes_of;

// ---- frames by hand: two letters, the version, F, k, the kind, who sends, who receives; then client, number, and the rest

/// Put 6263 to the key 61 as number 1 of client 7, to each of three members.
const REQUESTS: [&str; 3] = [
    "435201010107ff00 0000000000000007 0000000000000001 01 01 61 00000002 6263",
    "435201010107ff01 0000000000000007 0000000000000001 01 01 61 00000002 6263",
    "435201010107ff02 0000000000000007 0000000000000001 01 01 61 00000002 6263",
];

/// Member 0: it was done, at version 2.
const DONE: &str = "43520101010800ff 0000000000000007 0000000000000001 01 0000000000000002";

/// Members 0 and 1 name each other.
const ASK_1: &str = "43520101010800ff 0000000000000007 0000000000000001 07 01";

const ASK_0: &str = "43520101010801ff 0000000000000007 0000000000000001 07 00";

/// Member 0 names member 2.
const ASK_2: &str = "43520101010800ff 0000000000000007 0000000000000001 07 02";

/// Member 2: too much isn't committed yet.
const BUSY: &str = "43520101010802ff 0000000000000007 0000000000000001 09";

/// Frames and other bytes that end no try: Elsewhere without a member, Preparing, Busy, a reply to another client, one to another
/// number, a request, a reply in a cluster with another k, a reply of a member that isn't there, one with a byte behind it,
/// one that is broken off, a message between members, and bytes that are no frame.
const PASSED_OVER: [&str; 13] = [
    "43520101010800ff 0000000000000007 0000000000000001 07 ff",
    "43520101010801ff 0000000000000007 0000000000000001 08",
    BUSY,
    "43520101010800ff 0000000000000008 0000000000000001 01 0000000000000002",
    "43520101010800ff 0000000000000007 0000000000000002 01 0000000000000002",
    "435201010107ff00 0000000000000007 0000000000000001 01 01 61 00000002 6263",
    "43520101020800ff 0000000000000007 0000000000000001 01 0000000000000002",
    "43520101010803ff 0000000000000007 0000000000000001 01 0000000000000002",
    "43520101010800ff 0000000000000007 0000000000000001 01 0000000000000002 00",
    "43520101010800ff 0000000000000007 0000000000000001 01 00000000000000",
    "4352010101010001 0000000000000001 0000000000000000 0000000000000000",
    "00",
    "",
];

// ---- what a test asks

/// The places 127.0.0.1:7000, 127.0.0.1:7001 and 127.0.0.1:7002.
const PLACES: [u64; 3] = [139637976800088, 139637976800089, 139637976800090];

const ROOM: usize = 65_536;

/// A request of client 7 under number 1: put 6263 to the key 61.
fn put_request(alloc: Global) -> Result<Request, OutOfMemory>
    ensures { IfOk result (λ request. Fits request_fields request) }
{
    Ok(Request {
        client: 7,
        seq: 1,
        op: Op::Put,
        key: Blob::copy_of(alloc, &[0x61])?,
        value: Blob::copy_of(alloc, &[0x62, 0x63])?,
    })
}

/// A packet of the bytes of a text, from a place that is no member's.
fn packet(alloc: Global, text: &str) -> Result<(u64, Vec<u8>), Fail>
    ensures { IfOk result (λ packet. vec_len packet.1 ≤ 65536) }
{
    let mut bytes = bytes_of(alloc, text)?;
    bytes.truncate(ROOM);
    Ok((9, bytes))
}

/// A link that gives the packets of these texts, and fails at these calls.
fn link_of(alloc: Global, texts: &[&str], fail: &[u64]) -> Result<MemLink, Fail> {
    let mut packets = Vec::new(alloc);
    for text in texts {
        packets.push(packet(alloc, text)?)?;
    }
    Ok(MemLink::new(packets, fail.to_vec(alloc)?))
}

/// What a client answers that asks over that link, as a text.
fn answer_over(alloc: Global, link: &mut MemLink, tries: u64) -> Result<String, Fail> {
    let shape = Shape::new(1, 1)?;
    let request = put_request(alloc)?;
    match ask_group(alloc, &shape, &PLACES, &request, tries, link) {
        Ok((from, reply)) => Ok(format!(in alloc; "{} {reply:?}", from.number())?),
        Err(fault) => Ok(format!(in alloc; "{fault:?}")?),
    }
}

/// These members were sent the request, in that order, and nothing else was sent.
fn sent_to(rt: &impl Abort, alloc: Global, link: &MemLink, members: &[usize]) -> Result<(), Fail> {
    for (n, member) in members.iter().enumerate() {
        let bytes = bytes_of(alloc, REQUESTS.get(*member).unwrap_or(&""))?;
        let place = PLACES.get(*member).copied().unwrap_or(0);
        assert_eq!(rt;
            link.sent(n as u64),
            Some((place, bytes.as_slice())),
            "packet {n}"
        );
    }
    assert_eq!(rt; link.sent(members.len() as u64), None);
    assert!(rt; !link.starved());
    Ok(())
}

/// A client that is given these packets, and whose link fails at these calls, asks these members and answers so.
fn asks(
    rt: &impl Abort,
    alloc: Global,
    texts: &[&str],
    fail: &[u64],
    tries: u64,
    members: &[usize],
    answer: &str,
) -> Result<(), Fail> {
    let mut link = link_of(alloc, texts, fail)?;
    assert_eq!(rt; answer_over(alloc, &mut link, tries)?.as_str(), answer);
    sent_to(rt, alloc, &link, members)
}

// ---- replies

#[test]
fn a_final_reply_ends_it(rt: HostRuntime) -> Result<(), Fail> {
    let alloc = rt.alloc();
    asks(&rt, alloc, &[DONE], &[], 20, &[0], "0 Done(2)")?;
    let old = "43520101010801ff 0000000000000007 0000000000000001 06";
    asks(&rt, alloc, &[old, DONE], &[], 20, &[0], "1 Old")?;
    let full = "43520101010802ff 0000000000000007 0000000000000001 0a";
    asks(&rt, alloc, &[full, DONE], &[], 20, &[0], "2 Full")?;
    let differs = "43520101010800ff 0000000000000007 0000000000000001 02 0000000000000005";
    asks(&rt, alloc, &[differs], &[], 1, &[0], "0 Differs(5)")?;
    let gone = "43520101010800ff 0000000000000007 0000000000000001 03 01";
    asks(&rt, alloc, &[gone], &[], 1, &[0], "0 Gone(true)")?;
    let nothing = "43520101010800ff 0000000000000007 0000000000000001 05";
    asks(&rt, alloc, &[nothing], &[], 1, &[0], "0 Nothing")?;
    let value =
        "43520101010801ff 0000000000000007 0000000000000001 04 0000000000000003 00000002 6263";
    let answer = "1 Value(3, Blob { bytes: [98, 99] })";
    asks(&rt, alloc, &[value], &[], 1, &[0], answer)
}

#[test]
fn what_is_no_final_reply_is_passed_over(rt: HostRuntime) -> Result<(), Fail> {
    let alloc = rt.alloc();
    for text in PASSED_OVER {
        asks(&rt, alloc, &[text, DONE], &[], 1, &[0], "0 Done(2)")?;
    }
    let mut texts = PASSED_OVER.to_vec(alloc)?;
    texts.push(DONE)?;
    asks(&rt, alloc, &texts, &[], 1, &[0], "0 Done(2)")
}

#[test]
fn a_member_that_is_named_is_asked_next(rt: HostRuntime) -> Result<(), Fail> {
    let alloc = rt.alloc();
    asks(&rt, alloc, &[ASK_2, DONE], &[], 9, &[0, 2], "0 Done(2)")?;
    let circle = [ASK_1, ASK_0, ASK_1, ASK_0, ASK_1];
    let members = [0, 1, 0, 1, 0];
    asks(
        &rt,
        alloc,
        &circle,
        &[],
        5,
        &members,
        "NoAnswer { sent: 5 }",
    )?;
    let members = [0, 2, 0, 1];
    asks(
        &rt,
        alloc,
        &[ASK_2],
        &[],
        4,
        &members,
        "NoAnswer { sent: 4 }",
    )
}

// ---- no reply

#[test]
fn where_nothing_comes_each_member_is_asked_in_turn(rt: HostRuntime) -> Result<(), Fail> {
    let alloc = rt.alloc();
    let members = [0, 1, 2, 0, 1, 2, 0, 1, 2, 0, 1, 2, 0, 1, 2, 0, 1, 2, 0, 1];
    asks(&rt, alloc, &[], &[], 20, &members, "NoAnswer { sent: 20 }")?;
    asks(&rt, alloc, &[], &[], 1, &[0], "NoAnswer { sent: 1 }")?;
    asks(&rt, alloc, &[DONE], &[], 0, &[], "NoAnswer { sent: 0 }")
}

#[test]
fn a_try_looks_at_64_packets(rt: HostRuntime) -> Result<(), Fail> {
    let alloc = rt.alloc();
    let mut texts = vec![in alloc; BUSY; 63]?;
    texts.push(DONE)?;
    asks(&rt, alloc, &texts, &[], 1, &[0], "0 Done(2)")?;
    let mut texts = vec![in alloc; BUSY; 64]?;
    texts.push(DONE)?;
    asks(&rt, alloc, &texts, &[], 1, &[0], "NoAnswer { sent: 1 }")?;
    asks(&rt, alloc, &texts, &[], 2, &[0, 1], "0 Done(2)")
}

// By hand: a try is a send and then, where the link is quiet, ten calls more.
#[test]
fn a_link_that_fails_ends_it(rt: HostRuntime) -> Result<(), Fail> {
    let alloc = rt.alloc();
    let late = [BUSY, DONE];
    let calls: [(u64, &[usize], &str); 4] = [
        (1, &[], "LinkFault"),
        (2, &[0], "LinkFault"),
        (3, &[0], "LinkFault"),
        (4, &[0], "0 Done(2)"),
    ];
    for (call, members, answer) in calls {
        asks(&rt, alloc, &late, &[call], 3, members, answer)?;
    }
    let calls: [(u64, &[usize], &str); 5] = [
        (11, &[0], "LinkFault"),
        (12, &[0], "LinkFault"),
        (13, &[0, 1], "LinkFault"),
        (22, &[0, 1], "LinkFault"),
        (23, &[0, 1], "NoAnswer { sent: 2 }"),
    ];
    for (call, members, answer) in calls {
        asks(&rt, alloc, &[], &[call], 2, members, answer)?;
    }
    Ok(())
}
