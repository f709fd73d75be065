ghost use Rattle.std.specs.Prelude.{◌≤◌};
ghost use Rattle.entry_frames.specs.Formats.{Fits};
ghost use Rattle.entry_frames.specs.MessageFields.{frame_fields};

use super::*;
use craft_base::{Blob, Entry, Form, Head, Op, Reply, Shape, part_len};
use entry_frames::{EntryView, FrameFault};
use rand_xoshiro::SplitMix64;
use rand_xoshiro::rand_core::{Rng, SeedableRng};
use std::alloc::{AllocError, Global};
use std::process::Abort;
use std::test::Fail;
use test_text::{bytes_of, joined};

// ---- what is read

/// Why the bytes are no message.
fn fault_of(shape: &Shape, bytes: &[u8]) -> Option<FrameFault> {
    match MessageView::read(shape, bytes) {
        Ok(_) => None,
        Err(fault) => Some(fault),
    }
}

/// The bytes that a message of its own, made from that view, is written as.
fn written(alloc: Global, shape: &Shape, view: &MessageView<'_>) -> Result<Vec<u8>, Fail>
    requires { Fits (frame_fields shape.now) view.now.frame }
{
    let message = view.to_message(alloc)?;
    let blob = write_message(alloc, shape, &message)?;
    Ok(blob.as_bytes().to_vec(alloc)?)
}

/// The bytes are a message, which is written as they are; no fewer and no more of them are one.
fn is_message(rt: &impl Abort, alloc: Global, shape: &Shape, bytes: &[u8]) -> Result<(), Fail> {
    let view = MessageView::read(shape, bytes)?;
    assert_eq!(rt; written(alloc, shape, &view)?, bytes.to_vec(alloc)?);
    for end in 0..bytes.len() {
        assert_eq!(rt;
            fault_of(shape, &bytes[..end]),
            Some(FrameFault::Short),
            "{end} bytes"
        );
    }
    for byte in [0, 1, 255] {
        let longer = joined(alloc, bytes, &[byte])?;
        assert_eq!(rt;
            fault_of(shape, &longer),
            Some(FrameFault::Bad(bytes.len()))
        );
    }
    Ok(())
}

/// What stands for a client in the place of a member.
const CLIENT: u8 = 255;

/// The numbers that a view shows, each with its name.
fn numbers_of(view: &MessageView<'_>) -> [(&'static str, u64); 14] {
    [
        ("term", view.term()),
        ("last_term", view.last_term()),
        ("last", view.last()),
        ("granted", u64::from(view.granted())),
        ("prev", view.prev()),
        ("prev_term", view.prev_term()),
        ("commit", view.commit()),
        ("count", u64::from(view.count())),
        ("is_matched", u64::from(view.is_matched())),
        ("mask", u64::from(view.mask())),
        ("next", view.next()),
        ("start", view.start()),
        ("client", view.client()),
        ("seq", view.seq()),
    ]
}

/// What a view shows beside its entries: its kind, who sends it, who receives it, and then each number that isn't 0, by name;
/// true is 1.
fn shown_text(alloc: Global, view: &MessageView<'_>) -> Result<String, Fail> {
    let kind = view.kind();
    let from = if kind == 7 {
        CLIENT
    } else {
        view.from().number()
    };
    let to = if kind == 8 {
        CLIENT
    } else {
        view.to().number()
    };
    let mut text = format!(in alloc; "{kind} {from} {to}")?;
    for (name, number) in numbers_of(view) {
        if number != 0 {
            text.push_str(format!(in alloc; " {name} {number}")?.as_str())?;
        }
    }
    Ok(text)
}

// By hand: two letters, the version, F, k, the kind, who sends, who receives; then term, last term, last index.
#[test]
fn the_first_message_of_an_election_is_read(rt: HostRuntime) -> Result<(), Fail> {
    let alloc = rt.alloc();
    let shape = Shape::new(1, 1)?;
    let frame = bytes_of(
        alloc,
        "4352010101010001 0000000000000001 0000000000000000 0000000000000000",
    )?;
    assert_eq!(rt; frame.len(), 32);
    is_message(&rt, alloc, &shape, &frame)?;
    let view = MessageView::read(&shape, &frame)?;
    assert_eq!(rt; shown_text(alloc, &view)?.as_str(), "1 0 1 term 1");
    assert!(rt; view.entry(0).is_none());
    let another = bytes_of(
        alloc,
        "4352020101010001 0000000000000001 0000000000000000 0000000000000000",
    )?;
    assert_eq!(rt; fault_of(&shape, &another), Some(FrameFault::Bad(2)));
    Ok(())
}

/// The entry with that number as text: term, client, its number, operation, key, length of the value, form, what is held.
fn entry_text(alloc: Global, view: &MessageView<'_>, n: u8) -> Result<String, Fail> {
    let entry = view.entry(n).ok_or("no such entry")?;
    let form = if entry.is_whole() { "whole" } else { "part" };
    Ok(format!(in alloc;
        "{} {} {} {:?} {:?} {} {form} {:?}",
        entry.term(),
        entry.client(),
        entry.seq(),
        entry.op(),
        entry.key(),
        entry.vlen(),
        entry.bytes()
    )?)
}

/// Behind a head: term, prev, its term, commit, count, entries: a whole Put, and a fragment of a PutIf.
const TWO_ENTRIES: &str =
    "4352010102 03 00 01 0000000000000005 0000000000000002 0000000000000003 0000000000000001 02
    01 01 0000000000000004 0000000000000007 0000000000000008 01 6b 00000003 76616c
    02 02 0000000000000005 0000000000000007 0000000000000009 0000000000000003 01 6b 00000003 aabb";

/// Behind a head: term, start, last, count, entries: a Noop, and a Del of a lower term.
const TWO_SLOTS: &str = "4352010102 06 00 02 0000000000000006 0000000000000002 0000000000000004 02
    01 00 0000000000000006 0000000000000000 0000000000000000 00
    01 03 0000000000000004 0000000000000001 0000000000000002 02 6b79";

/// By hand, behind a head of F = 1, k = 2 and the kind, the sender and the receiver: the fields that the comment of each row
/// names; and what is shown of them.
const MEMBER_MESSAGES: [(&str, &str); 10] = [
    // term, last term, last index
    (
        "4352010102 01 02 00 0000000000000007 0000000000000003 00000000000f4240",
        "1 2 0 term 7 last_term 3 last 1000000",
    ),
    // term (2^62), granted
    (
        "4352010102 02 01 02 4000000000000000 01",
        "2 1 2 term 4611686018427387904 granted 1",
    ),
    // term, not granted
    ("4352010102 02 00 02 0000000000000001 00", "2 0 2 term 1"),
    // term, prev, its term, commit, count, entries
    (
        TWO_ENTRIES,
        "3 0 1 term 5 prev 2 prev_term 3 commit 1 count 2",
    ),
    (
        "4352010102 03 01 00 0000000000000001 0000000000000000 0000000000000000 00000000000f4240 00",
        "3 1 0 term 1 commit 1000000",
    ),
    // term, yes, prev, count, mask
    (
        "4352010102 04 01 00 0000000000000005 01 0000000000000102 08 a5",
        "4 1 0 term 5 prev 258 count 8 is_matched 1 mask 165",
    ),
    // term, no, next
    (
        "4352010102 04 01 00 0000000000000005 00 00000000000f4241",
        "4 1 0 term 5 next 1000001",
    ),
    // term, start
    (
        "4352010102 05 02 01 0000000000000006 0000000000000009",
        "5 2 1 term 6 start 9",
    ),
    // term, start, last, count, entries
    (TWO_SLOTS, "6 0 2 term 6 last 4 count 2 start 2"),
    (
        "4352010102 06 00 02 0000000000000006 0000000000000009 0000000000000004 00",
        "6 0 2 term 6 last 4 start 9",
    ),
];

#[test]
fn messages_of_members_are_as_by_hand(rt: HostRuntime) -> Result<(), Fail> {
    let alloc = rt.alloc();
    let shape = Shape::new(1, 2)?;
    for (text, want) in MEMBER_MESSAGES {
        let frame = bytes_of(alloc, text)?;
        is_message(&rt, alloc, &shape, &frame)?;
        let view = MessageView::read(&shape, &frame)?;
        assert_eq!(rt; shown_text(alloc, &view)?.as_str(), want, "at {text}");
    }
    Ok(())
}

#[test]
fn entries_are_lent_as_by_hand(rt: HostRuntime) -> Result<(), Fail> {
    let alloc = rt.alloc();
    let shape = Shape::new(1, 2)?;
    // text, and each entry of it
    let cases = [
        (
            TWO_ENTRIES,
            "4 7 8 Put [107] 3 whole [118, 97, 108]",
            "5 7 9 PutIf(3) [107] 3 part [170, 187]",
        ),
        (
            TWO_SLOTS,
            "6 0 0 Noop [] 0 whole []",
            "4 1 2 Del [107, 121] 0 whole []",
        ),
    ];
    for (text, first, second) in cases {
        let frame = bytes_of(alloc, text)?;
        let view = MessageView::read(&shape, &frame)?;
        assert_eq!(rt; entry_text(alloc, &view, 0)?.as_str(), first);
        assert_eq!(rt; entry_text(alloc, &view, 1)?.as_str(), second);
        assert!(rt; view.entry(2).is_none());
        assert!(rt; view.entry(255).is_none());
    }
    Ok(())
}

/// What a reply tells: a word, a number and a value.
fn reply_told<'a>(reply: &'a Reply) -> (&'a str, u64, &'a [u8]) {
    match reply {
        Reply::Done(version) => ("done", *version, &[]),
        Reply::Differs(version) => ("differs", *version, &[]),
        Reply::Gone(was_there) => ("gone", u64::from(*was_there), &[]),
        Reply::Value(version, value) => ("value", *version, value.as_bytes()),
        Reply::Nothing => ("nothing", 0, &[]),
        Reply::Old => ("old", 0, &[]),
        Reply::Elsewhere(Some(member)) => ("elsewhere", u64::from(member.number()), &[]),
        Reply::Elsewhere(None) => ("nowhere", 0, &[]),
        Reply::Preparing => ("preparing", 0, &[]),
        Reply::Busy => ("busy", 0, &[]),
        Reply::Full => ("full", 0, &[]),
    }
}

/// An operation's word, and the version that it expects.
fn op_told(op: Op) -> (&'static str, u64) {
    match op {
        Op::Noop => ("noop", 0),
        Op::Put => ("put", 0),
        Op::PutIf(version) => ("putif", version),
        Op::Del => ("del", 0),
        Op::Get => ("get", 0),
    }
}

/// What a message to or from a client says: a word, a number, a key and a value.
fn told_text(alloc: Global, message: &Message) -> Result<String, Fail> {
    let none: &[u8] = &[];
    let (word, number, key, value) = match message {
        Message::Peer { .. } => ("peer", 0, none, none),
        Message::Request { request, .. } => {
            let (word, number) = op_told(request.op);
            (
                word,
                number,
                request.key.as_bytes(),
                request.value.as_bytes(),
            )
        }
        Message::Answered { reply, .. } => {
            let (word, number, value) = reply_told(reply);
            (word, number, none, value)
        }
    };
    Ok(format!(in alloc; "{word} {number} {key:?} {value:?}")?)
}

/// By hand, behind a head of F = 1, k = 1 and the kind, the sender and the receiver: client and number; then an operation, the
/// version expected, the length of the key, the key, the length of the value, the value; or the kind of a reply and its fields.
/// Then what is shown and told of them.
const CLIENT_MESSAGES: [(&str, &str); 16] = [
    (
        "4352010101 07 ff 01 0000000000000009 0000000000000003 01 01 61 00000002 6263",
        "7 255 1 client 9 seq 3 put 0 [97] [98, 99]",
    ),
    // 2^62
    (
        "4352010101 07 ff 00 0000000000000009 0000000000000003 02 4000000000000000 02 6b79 00000000",
        "7 255 0 client 9 seq 3 putif 4611686018427387904 [107, 121] []",
    ),
    (
        "4352010101 07 ff 02 0000000000000009 0000000000000003 03 01 00",
        "7 255 2 client 9 seq 3 del 0 [0] []",
    ),
    (
        "4352010101 07 ff 02 0000000000000009 0000000000000003 04 03 676574",
        "7 255 2 client 9 seq 3 get 0 [103, 101, 116] []",
    ),
    (
        "4352010101 08 02 ff 0000000000000009 0000000000000003 01 0000000000000005",
        "8 2 255 client 9 seq 3 done 5 [] []",
    ),
    (
        "4352010101 08 00 ff 0000000000000009 0000000000000003 02 00000000000f4240",
        "8 0 255 client 9 seq 3 differs 1000000 [] []",
    ),
    (
        "4352010101 08 01 ff 0000000000000009 0000000000000003 03 00",
        "8 1 255 client 9 seq 3 gone 0 [] []",
    ),
    (
        "4352010101 08 01 ff 0000000000000009 0000000000000003 03 01",
        "8 1 255 client 9 seq 3 gone 1 [] []",
    ),
    (
        "4352010101 08 01 ff 0000000000000009 0000000000000003 04 0000000000000102 00000003 ff007f",
        "8 1 255 client 9 seq 3 value 258 [] [255, 0, 127]",
    ),
    (
        "4352010101 08 01 ff 0000000000000009 0000000000000003 05",
        "8 1 255 client 9 seq 3 nothing 0 [] []",
    ),
    (
        "4352010101 08 01 ff 0000000000000009 0000000000000003 06",
        "8 1 255 client 9 seq 3 old 0 [] []",
    ),
    (
        "4352010101 08 01 ff 0000000000000009 0000000000000003 07 02",
        "8 1 255 client 9 seq 3 elsewhere 2 [] []",
    ),
    (
        "4352010101 08 01 ff 0000000000000009 0000000000000003 07 ff",
        "8 1 255 client 9 seq 3 nowhere 0 [] []",
    ),
    (
        "4352010101 08 01 ff 0000000000000009 0000000000000003 08",
        "8 1 255 client 9 seq 3 preparing 0 [] []",
    ),
    (
        "4352010101 08 01 ff 0000000000000009 0000000000000003 09",
        "8 1 255 client 9 seq 3 busy 0 [] []",
    ),
    (
        "4352010101 08 01 ff 0000000000000009 0000000000000003 0a",
        "8 1 255 client 9 seq 3 full 0 [] []",
    ),
];

#[test]
fn messages_of_clients_are_as_by_hand(rt: HostRuntime) -> Result<(), Fail> {
    let alloc = rt.alloc();
    let shape = Shape::new(1, 1)?;
    for (text, want) in CLIENT_MESSAGES {
        let frame = bytes_of(alloc, text)?;
        is_message(&rt, alloc, &shape, &frame)?;
        let view = MessageView::read(&shape, &frame)?;
        assert!(rt; view.entry(0).is_none());
        let shown = shown_text(alloc, &view)?;
        let told = told_text(alloc, &view.to_message(alloc)?)?;
        let line = format!(in alloc; "{shown} {told}")?;
        assert_eq!(rt; line.as_str(), want, "at {text}");
    }
    Ok(())
}

// ---- what isn't read

/// Good messages of a cluster of F = 1, k = 2, and how each is spoilt: the offset of what is put in, those bytes, and the offset
/// that is then out of range.
const SPOILT: [(&str, &str); 18] = [
    // a Vote
    (
        "4352010102 01 00 01 0000000000000005 0000000000000004 0000000000000009",
        "0 42 0, 1 53 1, 2 00 2, 2 02 2, 3 02 3, 4 01 4, 5 00 5, 5 09 5, 6 03 6, 6 ff 6, 7 03 7, 7 ff 7,
            7 00 7, 8 0000000000000000 8, 8 4000000000000001 8, 16 4000000000000001 16, 24 0000000000000000 24,
            24 00000000000f4241 24",
    ),
    // a Request of a PutIf
    (
        "4352010102 07 ff 01 0000000000000009 0000000000000003 02 0000000000000005 01 61 00000002 6263",
        "6 00 6, 7 03 7, 7 ff 7, 8 0000000000000000 8, 8 4000000000000001 8, 16 0000000000000000 16,
            16 4000000000000001 16, 24 00 24, 24 05 24, 25 4000000000000001 25, 33 00 33, 35 00008001 35",
    ),
    // Answered: Done
    (
        "4352010102 08 02 ff 0000000000000009 0000000000000003 01 0000000000000005",
        "6 03 6, 6 ff 6, 7 01 7, 8 0000000000000000 8, 16 4000000000000001 16, 24 00 24, 24 0b 24,
            25 00000000000f4241 25",
    ),
    // a Vote of a member with an empty log
    (
        "4352010102 01 00 01 0000000000000005 0000000000000000 0000000000000000",
        "24 0000000000000001 24",
    ),
    // a VoteReply
    (
        "4352010102 02 00 01 0000000000000005 01",
        "8 0000000000000000 8, 8 4000000000000001 8, 16 02 16",
    ),
    // an Append of two Noops, of terms 4 and 5, at 41 and 68
    (
        "4352010102 03 00 01 0000000000000005 0000000000000002 0000000000000003 0000000000000001 02
            01 00 0000000000000004 0000000000000000 0000000000000000 00
            01 00 0000000000000005 0000000000000000 0000000000000000 00",
        "8 0000000000000000 8, 8 4000000000000001 8, 16 00000000000f4241 16, 24 0000000000000000 24,
            24 0000000000000006 24, 32 00000000000f4241 32, 40 09 40, 41 00 41, 42 05 42, 43 0000000000000000 43,
            43 0000000000000002 41, 43 0000000000000006 41, 70 0000000000000003 68, 70 0000000000000006 68,
            70 4000000000000001 70, 78 0000000000000001 78",
    ),
    // an Append of no entries behind index 0
    (
        "4352010102 03 00 01 0000000000000005 0000000000000000 0000000000000000 0000000000000000 00",
        "24 0000000000000001 24",
    ),
    // one behind which there is room for one entry
    (
        "4352010102 03 00 01 0000000000000005 00000000000f423f 0000000000000003 0000000000000000 00",
        "40 02 40",
    ),
    // a Matched
    (
        "4352010102 04 00 01 0000000000000005 01 0000000000000002 02 03",
        "8 0000000000000000 8, 16 02 16, 17 00000000000f4241 17, 25 09 25, 26 04 26, 26 80 26",
    ),
    // one behind which there is room for one entry
    (
        "4352010102 04 00 01 0000000000000005 01 00000000000f423f 00 00",
        "25 02 25, 26 01 26",
    ),
    // a Refused
    (
        "4352010102 04 00 01 0000000000000005 00 0000000000000001",
        "8 4000000000000001 8, 17 0000000000000000 17, 17 00000000000f4242 17",
    ),
    // an Ask
    (
        "4352010102 05 00 01 0000000000000005 0000000000000001",
        "8 0000000000000000 8, 16 0000000000000000 16, 16 00000000000f4241 16",
    ),
    // an Answer of two Noops, of terms 5 and 4, at 33 and 60
    (
        "4352010102 06 00 01 0000000000000005 0000000000000002 0000000000000003 02
            01 00 0000000000000005 0000000000000000 0000000000000000 00
            01 00 0000000000000004 0000000000000000 0000000000000000 00",
        "8 0000000000000000 8, 16 0000000000000000 16, 16 00000000000f4241 16, 24 00000000000f4241 24,
            32 03 32, 32 09 32, 35 0000000000000006 33, 62 0000000000000006 60, 62 0000000000000000 62",
    ),
    // an Answer that begins behind the last entry
    (
        "4352010102 06 00 01 0000000000000005 0000000000000004 0000000000000003 00",
        "32 01 32",
    ),
    // Differs
    (
        "4352010102 08 02 ff 0000000000000009 0000000000000003 02 0000000000000000",
        "25 00000000000f4241 25",
    ),
    // Gone
    (
        "4352010102 08 02 ff 0000000000000009 0000000000000003 03 00",
        "25 02 25",
    ),
    // Value
    (
        "4352010102 08 02 ff 0000000000000009 0000000000000003 04 0000000000000002 00000001 00",
        "25 00000000000f4241 25, 33 00008001 33",
    ),
    // Elsewhere
    (
        "4352010102 08 02 ff 0000000000000009 0000000000000003 07 00",
        "25 03 25, 25 fe 25",
    ),
];

/// With other bytes at an offset a good message is out of range at another one, which is told as soon as those bytes stand.
fn is_spoilt(
    rt: &impl Abort,
    alloc: Global,
    shape: &Shape,
    good: &[u8],
    how: &str,
) -> Result<(), Fail> {
    let mut words = how.split_whitespace();
    let at = words.next().ok_or("no offset")?.parse::<usize>()?;
    let put = bytes_of(alloc, words.next().ok_or("no bytes")?)?;
    let want = words.next().ok_or("no offset")?.parse::<usize>()?;
    let cut = joined(alloc, good.get(..at).ok_or("no such offset")?, &put)?;
    let whole = joined(alloc, &cut, good.get(cut.len()..).ok_or("too many bytes")?)?;
    let (_, shorter) = cut.split_last().ok_or("no bytes")?;
    let bad = Some(FrameFault::Bad(want));
    assert_eq!(rt; fault_of(shape, &whole), bad, "{how} of {good:?}");
    assert_eq!(rt; fault_of(shape, &cut), bad, "{how} of {good:?}");
    assert_eq!(rt;
        fault_of(shape, shorter),
        Some(FrameFault::Short),
        "{how} of {good:?}"
    );
    Ok(())
}

#[test]
fn a_bad_field_is_told_where_it_begins(rt: HostRuntime) -> Result<(), Fail> {
    let alloc = rt.alloc();
    let shape = Shape::new(1, 2)?;
    let mut count = 0u64;
    for (text, ways) in SPOILT {
        let good = bytes_of(alloc, text)?;
        assert_eq!(rt; fault_of(&shape, &good), None, "at {text}");
        for how in ways.split(',') {
            is_spoilt(&rt, alloc, &shape, &good, how)?;
            count = count.wrapping_add(1);
        }
    }
    assert_eq!(rt; count, 90);
    Ok(())
}

/// A whole Put of term 1 with a value of that many bytes: 32 more than those.
fn long_put(alloc: Global, len: u32) -> Result<Vec<u8>, Fail> {
    let mut bytes = bytes_of(
        alloc,
        "01 01 0000000000000001 0000000000000001 0000000000000001 01 6b",
    )?;
    bytes.extend_from_slice(&len.to_be_bytes())?;
    let value = vec![in alloc; 0x76; len as usize]?;
    bytes.extend_from_slice(&value)?;
    Ok(bytes)
}

/// Behind that head entries of 56,000 bytes are read, and one that passes them is out of range as soon as it stands whole.
fn reads_56_000_bytes(rt: &impl Abort, alloc: Global, head: &[u8]) -> Result<(), Fail> {
    let shape = Shape::new(1, 1)?;
    let first = long_put(alloc, 32_768)?;
    // 32,800 and 23,200 bytes
    let mut two = joined(alloc, head, &[2])?;
    two.extend_from_slice(&first)?;
    two.extend_from_slice(&long_put(alloc, 23_168)?)?;
    let view = MessageView::read(&shape, &two)?;
    assert_eq!(rt; view.count(), 2);
    assert_eq!(rt; written(alloc, &shape, &view)?, two);

    let mut above = joined(alloc, head, &[2])?;
    above.extend_from_slice(&first)?;
    let second_at = above.len();
    above.extend_from_slice(&long_put(alloc, 23_169)?)?;
    assert_eq!(rt; fault_of(&shape, &above), Some(FrameFault::Bad(second_at)));
    let (_, cut) = above.split_last().ok_or("no bytes")?;
    assert_eq!(rt; fault_of(&shape, cut), Some(FrameFault::Short));

    let mut three = joined(alloc, head, &[3])?;
    three.extend_from_slice(&first)?;
    three.extend_from_slice(&long_put(alloc, 23_168)?)?;
    let third_at = three.len();
    let noop = "01 00 0000000000000001 0000000000000000 0000000000000000 00";
    three.extend_from_slice(&bytes_of(alloc, noop)?)?;
    assert_eq!(rt; fault_of(&shape, &three), Some(FrameFault::Bad(third_at)));
    Ok(())
}

// By hand: the head of an Append up to its count, and that of an Answer.
#[test]
fn entries_have_at_most_56_000_bytes(rt: HostRuntime) -> Result<(), Fail> {
    let alloc = rt.alloc();
    let heads = [
        "4352010101 03 00 01 0000000000000001 0000000000000000 0000000000000000 0000000000000000",
        "4352010101 06 00 01 0000000000000001 0000000000000001 0000000000000003",
    ];
    for text in heads {
        reads_56_000_bytes(&rt, alloc, &bytes_of(alloc, text)?)?;
    }
    Ok(())
}

// ---- made bytes

/// What stands behind the head of each kind of message: a digit is a byte, and the others are for `push_made`.
const BODIES: [(u8, &str); 26] = [
    (1, "tii"),
    (1, "ttt"),
    (2, "tb"),
    (3, "tiii0"),
    (3, "tttt1e"),
    (3, "tttt2ee"),
    (3, "tzzi3eee"),
    (4, "t1ibb"),
    (4, "t1i2m"),
    (4, "t0i"),
    (5, "ti"),
    (6, "tti0"),
    (6, "tti1e"),
    (6, "tti2ee"),
    (7, "tt1kv"),
    (7, "tt2ikv"),
    (7, "tt3k"),
    (7, "tt4k"),
    (8, "tt1i"),
    (8, "tt2i"),
    (8, "tt3b"),
    (8, "tt4iv"),
    (8, "tt5"),
    (8, "tt7m"),
    (8, "ttb"),
    (8, "ttm"),
];

/// What an entry is made of.
const ENTRIES: [&str; 8] = [
    "10tzz0", "10tzz0", "11tttkv", "12tttikv", "13tttk", "14tttk", "21tttkp", "22tttikp",
];

/// The length of a value, and then a fragment of it.
fn push_part(alloc: Global, frame: &mut Vec<u8>, len: u32, k: u8) -> Result<(), AllocError>
    requires { 1 ≤ k }
{
    let held = part_len(len as usize, k);
    frame.extend_from_slice(&len.to_be_bytes())?;
    frame.extend_from_slice(&vec![in alloc; 0x70; held]?)?;
    Ok(())
}

/// Made bytes: t a number of eight bytes from 1 on and i one from 0 on, mostly small, z eight bytes of 0, b and m a byte that is
/// small or is mostly a member's, k a key, v a value, p a fragment of one; all with their lengths.
fn push_made(
    alloc: Global,
    frame: &mut Vec<u8>,
    rng: &mut SplitMix64,
    k: u8,
    letter: u8,
) -> Result<(), AllocError>
    requires { 1 ≤ k }
{
    let word = rng.next_u64();
    let small = (word >> 8) % 4;
    let bytes = [0x6b; 4];
    let some = &bytes[..small as usize];
    match letter {
        b'0'..=b'9' => frame.push(letter - b'0')?,
        b't' | b'i' if word % 64 == 0 => frame.extend_from_slice(&rng.next_u64().to_be_bytes())?,
        b't' => frame.extend_from_slice(&(small % 3 + 1).to_be_bytes())?,
        b'i' => frame.extend_from_slice(&small.to_be_bytes())?,
        b'z' => frame.extend_from_slice(&[0; 8])?,
        b'b' => frame.push((small % 2) as u8)?,
        b'm' if word % 4 == 0 => frame.push((word >> 56) as u8)?,
        b'm' => frame.push(small as u8)?,
        b'k' => {
            frame.push(small as u8)?;
            frame.extend_from_slice(some)?;
        }
        b'v' => {
            frame.extend_from_slice(&(small as u32).to_be_bytes())?;
            frame.extend_from_slice(some)?;
        }
        b'p' => push_part(alloc, frame, small as u32, k)?,
        _ => {}
    }
    Ok(())
}

/// Mostly leaves the bytes as they are; else adds one, takes the last away or changes one.
fn change(frame: &mut Vec<u8>, word: u64) -> Result<(), AllocError> {
    match word % 8 {
        0 => frame.push((word >> 56) as u8)?,
        1 => {
            frame.pop();
        }
        2 | 3 => {
            let len = frame.len() as u64;
            let at = ((word >> 32) % len.max(1)) as usize;
            if let Some(byte) = frame.get_mut(at) {
                *byte = ((word >> 40) % 4) as u8;
            }
        }
        _ => {}
    }
    Ok(())
}

/// A made message of a cluster, or one with a byte changed, added or left out.
fn made_frame(alloc: Global, shape: &Shape, rng: &mut SplitMix64) -> Result<Vec<u8>, Fail> {
    let k = shape.need();
    let word = rng.next_u64();
    let (kind, letters) = BODIES[((word >> 8) % 26) as usize];
    let from = ((word >> 16) % 3) as u8;
    let to = (from + 1 + ((word >> 24) % 2) as u8) % 3;
    let mut frame = bytes_of(alloc, "435201")?;
    let ends = match kind {
        7 => [CLIENT, to],
        8 => [from, CLIENT],
        _ => [from, to],
    };
    frame.extend_from_slice(&[shape.faults(), k, kind])?;
    frame.extend_from_slice(&ends)?;
    for letter in letters.bytes() {
        if letter == b'e' {
            let parts = ENTRIES[(rng.next_u64() % 8) as usize];
            for part in parts.bytes() {
                push_made(alloc, &mut frame, rng, k, part)?;
            }
        } else {
            push_made(alloc, &mut frame, rng, k, letter)?;
        }
    }
    change(&mut frame, word)?;
    Ok(frame)
}

// What is read of made bytes is written as they are, and with one more byte they are no message.
#[test]
fn what_is_read_of_made_bytes_is_written_back(rt: HostRuntime) -> Result<(), Fail> {
    let alloc = rt.alloc();
    let mut rng = SplitMix64::seed_from_u64(20);
    let mut read = [0u64; 9];
    for n in 0..10_000u64 {
        let shape = Shape::new(1, (n % 2) as u8 + 1)?;
        let frame = made_frame(alloc, &shape, &mut rng)?;
        if let Ok(view) = MessageView::read(&shape, &frame) {
            assert_eq!(rt; written(alloc, &shape, &view)?, frame, "at {frame:?}");
            let longer = joined(alloc, &frame, &[(n % 256) as u8])?;
            assert_eq!(rt;
                fault_of(&shape, &longer),
                Some(FrameFault::Bad(frame.len())),
                "at {frame:?}"
            );
            if let Some(count) = read.get_mut(usize::from(view.kind())) {
                *count = count.wrapping_add(1);
            }
        }
    }
    for (kind, count) in read.iter().enumerate().skip(1) {
        assert!(rt; *count >= 100, "{count} of kind {kind}");
    }
    Ok(())
}

// ---- batches

/// A Noop of a term.
fn noop_of(alloc: Global, term: u64) -> Entry {
    Entry {
        term,
        head: Head {
            client: 0,
            seq: 0,
            op: Op::Noop,
            key: Blob::of(Vec::new(alloc)),
            vlen: 0,
        },
        form: Form::Whole(Blob::of(Vec::new(alloc))),
    }
}

#[test]
fn a_batch_has_up_to_eight_entries(rt: HostRuntime) {
    let alloc = rt.alloc();
    let mut batch = Batch::new();
    assert_eq!(rt; batch.len(), 0);
    assert!(rt; batch.at(0).is_none());
    for n in 0..8u8 {
        assert!(rt; batch.len() < 8);
        batch.push(noop_of(alloc, u64::from(n) + 5));
        assert_eq!(rt; batch.len(), n + 1);
        for at in 0..=255u8 {
            let term = batch.at(at).map(|entry| entry.term);
            if at <= n {
                assert_eq!(rt; term, Some(u64::from(at) + 5));
            } else {
                assert_eq!(rt; term, None);
            }
        }
    }
}
