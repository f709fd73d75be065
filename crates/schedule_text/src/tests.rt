ghost use Rattle.std.specs.Prelude.{◌≡◌, true};
ghost use Rattle.schedule_text.specs.Sends.{SendsPeer};

use crate::kept_log::KeptLog;
use crate::*;
use craft_base::{Blob, Entry, Form, Head, MemberId, Op, OutOfMemory, Reply, Shape};
use entry_frames::EntryView;
use peer_frames::{Batch, Message, Output, Peer, Role};
use std::alloc::Global;
use std::process::Abort;
use std::test::Fail;
use test_text::bytes_of;

/// The member of that number in a cluster of three.
fn member(number: u8) -> MemberId {
    match Shape::new(1, 2) {
        Ok(shape) => MemberId::new(&shape, number).unwrap_or_default(),
        Err(_) => MemberId::default(),
    }
}

/// Entries in these forms, `w` for whole.
fn batch(alloc: Global, forms: &[u8]) -> Result<Batch, OutOfMemory> {
    let mut batch = Batch::new();
    for form in forms {
        let bytes = Blob::copy_of(alloc, b"")?;
        let form = if *form == b'w' {
            Form::Whole(bytes)
        } else {
            Form::Part(bytes)
        };
        if batch.len() < 8 {
            batch.push(Entry {
                term: 1,
                head: Head {
                    client: 0,
                    seq: 0,
                    op: Op::Noop,
                    key: Blob::copy_of(alloc, b"")?,
                    vlen: 0,
                },
                form,
            });
        }
    }
    Ok(batch)
}

fn send(from: u8, to: u8, term: u64, body: Peer) -> Output {
    Output::Send {
        message: Message::Peer {
            from: member(from),
            to: member(to),
            term,
            body,
        },
    }
}

fn append(
    alloc: Global,
    prev: u64,
    prev_term: u64,
    commit: u64,
    forms: &[u8],
) -> Result<Peer, OutOfMemory> {
    Ok(Peer::Append {
        prev,
        prev_term,
        commit,
        entries: batch(alloc, forms)?,
    })
}

fn answer(alloc: Global, start: u64, last: u64, forms: &[u8]) -> Result<Peer, OutOfMemory> {
    Ok(Peer::Answer {
        start,
        last,
        slots: batch(alloc, forms)?,
    })
}

fn sends_peer(output: &Output) -> bool
    ensures { result ≡ true → SendsPeer output.now }
{
    match output {
        Output::Send { message } => matches!(message, Message::Peer { .. }),
        _ => true,
    }
}

/// The line of an output stands behind what stood there before.
fn assert_line(
    rt: &impl Abort,
    alloc: Global,
    me: u8,
    frame: u64,
    output: &Output,
    want: &str,
) -> Result<(), Fail> {
    assert!(rt; sends_peer(output));
    let mut out = b"12 done\n".to_vec(alloc)?;
    line_of(alloc, &mut out, member(me), frame, output)?;
    let want = format!(in alloc; "12 done\n{want}\n")?;
    assert_eq!(rt; out.as_slice(), want.as_bytes());
    Ok(())
}

// By hand: the frame's number, who sends, who receives, the word of the message, the term; then its fields, a mask in digits.
#[test]
fn votes_and_verdicts_are_told(rt: HostRuntime) -> Result<(), Fail> {
    let vote = Peer::Vote {
        last_term: 1,
        last: 2,
    };
    let voted = |granted| Peer::VoteReply { granted };
    let matched = Peer::Matched {
        prev: 1,
        count: 4,
        mask: 0x0b,
    };
    let refused = Peer::Refused { next: 1 };
    let table = [
        (13, send(1, 0, 2, vote), "send 13 1 0 vote 2 1 2"),
        (3, send(1, 0, 1, voted(true)), "send 3 1 0 voted 1 yes"),
        (5, send(1, 2, 1, voted(false)), "send 5 1 2 voted 1 no"),
        (19, send(1, 0, 1, matched), "send 19 1 0 matched 1 1 4 0b"),
        (20, send(2, 0, 2, refused), "send 20 2 0 refused 2 1"),
    ];
    for (frame, output, want) in &table {
        assert_line(&rt, rt.alloc(), 0, *frame, output, want)?;
    }
    Ok(())
}

// By hand, behind the term: the fields and the form of each entry, - for no entries.
#[test]
fn entries_sent_and_asked_for_are_told(rt: HostRuntime) -> Result<(), Fail> {
    let alloc = rt.alloc();
    let first = send(0, 1, 1, append(alloc, 0, 0, 0, b"w")?);
    let two = send(0, 2, 1, append(alloc, 3, 2, 1, b"pw")?);
    let none = send(0, 1, 1, append(alloc, 3, 1, 1, b"")?);
    let ask = send(1, 0, 2, Peer::Ask { start: 3 });
    let two_slots = send(2, 1, 2, answer(alloc, 3, 4, b"pw")?);
    let no_slots = send(2, 1, 2, answer(alloc, 2, 1, b"")?);
    let table = [
        (5, first, "send 5 0 1 append 1 0 0 0 w"),
        (15, two, "send 15 0 2 append 1 3 2 1 pw"),
        (14, none, "send 14 0 1 append 1 3 1 1 -"),
        (16, ask, "send 16 1 0 ask 2 3"),
        (18, two_slots, "send 18 2 1 answer 2 3 4 pw"),
        (
            u64::MAX,
            no_slots,
            "send 18446744073709551615 2 1 answer 2 2 1 -",
        ),
    ];
    for (frame, output, want) in &table {
        assert_line(&rt, alloc, 0, *frame, output, want)?;
    }
    Ok(())
}

#[test]
fn replies_are_told(rt: HostRuntime) -> Result<(), Fail> {
    let alloc = rt.alloc();
    let value = Reply::Value(2, Blob::copy_of(alloc, &[0x00, 0x80, 0xaf])?);
    let no_bytes = Reply::Value(3, Blob::copy_of(alloc, b"")?);
    let table = [
        (Reply::Done(2), "reply 1 7 9 done 2"),
        (Reply::Differs(0), "reply 1 7 9 differs 0"),
        (Reply::Gone(true), "reply 1 7 9 gone yes"),
        (Reply::Gone(false), "reply 1 7 9 gone no"),
        (value, "reply 1 7 9 value 2 0080af"),
        (no_bytes, "reply 1 7 9 value 3 -"),
        (Reply::Nothing, "reply 1 7 9 nothing"),
        (Reply::Old, "reply 1 7 9 old"),
        (Reply::Elsewhere(Some(member(2))), "reply 1 7 9 elsewhere 2"),
        (Reply::Elsewhere(None), "reply 1 7 9 elsewhere -"),
        (Reply::Preparing, "reply 1 7 9 preparing"),
        (Reply::Busy, "reply 1 7 9 busy"),
        (Reply::Full, "reply 1 7 9 full"),
    ];
    for (reply, want) in table {
        let output = Output::Reply {
            place: 5,
            client: 7,
            seq: 9,
            reply,
        };
        assert_line(&rt, alloc, 1, 4, &output, want)?;
    }
    Ok(())
}

#[test]
fn changes_are_told(rt: HostRuntime) -> Result<(), Fail> {
    let role = |role, term| Output::Role { role, term };
    let cut = |index, prep| Output::Cut { index, prep };
    let table = [
        (0, role(Role::Candidate, 1), "role 0 candidate 1"),
        (1, role(Role::Preparing, 2), "role 1 preparing 2"),
        (2, role(Role::Follower, 1), "role 2 follower 1"),
        (0, role(Role::Leader, 1), "role 0 leader 1"),
        (1, cut(2, true), "cut 1 2 prep"),
        (0, cut(2, false), "cut 0 2 lead"),
        (1, Output::Whole { index: 2 }, "whole 1 2"),
        (0, Output::Commit { index: 1 }, "commit 0 1"),
    ];
    for (me, output, want) in &table {
        assert_line(&rt, rt.alloc(), *me, 4, output, want)?;
    }
    Ok(())
}

fn tick(number: u8, word: u64) -> Inner {
    let member = member(number);
    Inner::Tick { member, word }
}

fn take(frame: u64) -> Inner {
    Inner::Take { frame }
}

fn stop(call: u8, keep: bool, event: Inner) -> Line {
    Line::Stop { call, keep, event }
}

#[test]
fn a_line_is_read(rt: HostRuntime) -> Result<(), Fail> {
    let shape = Shape::new(1, 2)?;
    let table: [(&[u8], Line); 10] = [
        (b"tick 0 0", Line::Do(tick(0, 0))),
        (b"tick 2 18446744073709551615", Line::Do(tick(2, u64::MAX))),
        (b"take 1", Line::Do(take(1))),
        (b"take 18446744073709551615", Line::Do(take(u64::MAX))),
        (b"down 0", Line::Down(member(0))),
        (b"down 2", Line::Down(member(2))),
        (b"up 1", Line::Up(member(1))),
        (b"show 1", Line::Show(member(1))),
        (b"stop 1 0 tick 0 0", stop(1, false, tick(0, 0))),
        (b"stop 4 1 take 1", stop(4, true, take(1))),
    ];
    for (line, want) in table {
        let read = read_line(rt.alloc(), &shape, line)?;
        let read = format!(in rt.alloc(); "{read:?}")?;
        let want = format!(in rt.alloc(); "{want:?}")?;
        assert_eq!(rt; read.as_str(), want.as_str());
    }
    Ok(())
}

/// What is no line of a cluster of three: a number out of range, words that are too few or too many, blanks and digits that don't
/// belong there, words of other commands, and a stop in what isn't a turn.
const BAD_LINES: [&[u8]; 40] = [
    b"tick 2 18446744073709551616",
    b"take 18446744073709551616",
    b"take 0",
    b"tick 3 0",
    b"tick 258 0",
    b"",
    b" ",
    b"tick",
    b"take",
    b"tick 0",
    b"tick 0 0 0",
    b"take 1 1",
    b"take  1",
    b" take 1",
    b"take 1 ",
    b"take 1\r",
    b"take 1\n",
    b"take 1\0",
    b"take\t1",
    b"take 01",
    b"take +1",
    b"take -1",
    b"take 1a",
    b"Take 1",
    b"takes 1",
    b"down 3",
    b"up 256",
    b"down",
    b"down 0 0",
    b"Down 0",
    b"stop 0 0 take 1",
    b"stop 5 0 take 1",
    b"stop 3 2 take 1",
    b"stop 03 1 take 1",
    b"stop 3 1",
    b"stop 3 1 down 0",
    b"stop 3 1 stop 3 1 take 1",
    b"stop 3 1 take 0",
    b"stop 3 1  take 1",
    b"stop 3 1 tick 3 0",
];

#[test]
fn a_bad_line_is_refused(rt: HostRuntime) -> Result<(), Fail> {
    let shape = Shape::new(1, 2)?;
    for line in BAD_LINES {
        let read = read_line(rt.alloc(), &shape, line).err();
        assert_eq!(rt; read, Some(LineFault::Bad), "at {line:?}");
    }
    Ok(())
}

/// What is shown of a member stands behind what stood there before.
fn assert_shown(
    rt: &impl Abort,
    alloc: Global,
    me: u8,
    term: u64,
    vote: Option<u8>,
    log: &KeptLog<'_>,
    want: &str,
) -> Result<(), Fail> {
    let mut out = b"12 done\n".to_vec(alloc)?;
    show_of(alloc, &mut out, member(me), term, vote, log)?;
    let want = format!(in alloc; "12 done\n{want}")?;
    assert_eq!(rt; out.as_slice(), want.as_bytes());
    Ok(())
}

// By hand: the member, its term, its vote, its last index and its commit index.
#[test]
fn an_empty_log_is_shown(rt: HostRuntime) -> Result<(), Fail> {
    let alloc = rt.alloc();
    let log = KeptLog::new(alloc, 2);
    assert_shown(&rt, alloc, 1, 3, Some(0), &log, "node 1 3 0 0 0\n")?;
    assert_shown(&rt, alloc, 2, 5, None, &log, "node 2 5 - 0 0\n")
}

// By hand: below it, for each entry, its index, its term, its form, what it does, who asked, the number of the request, the key,
// the length of the value and what is held of it.
#[test]
fn entries_are_shown(rt: HostRuntime) -> Result<(), Fail> {
    let alloc = rt.alloc();
    let noop = bytes_of(
        alloc,
        "01 00 0000000000000001 0000000000000000 0000000000000000 00",
    )?;
    let put = bytes_of(
        alloc,
        "02 01 0000000000000001 0000000000000007 0000000000000001 01 61 00000002 1d",
    )?;
    two_are_shown(&rt, alloc, &noop, &put)
}

fn two_are_shown(rt: &impl Abort, alloc: Global, noop: &[u8], put: &[u8]) -> Result<(), Fail> {
    let mut log = KeptLog::new(alloc, 2);
    let (view, _) = EntryView::read(2, noop)?;
    log.push(view)?;
    log.commit_all();
    let (view, _) = EntryView::read(2, put)?;
    log.push(view)?;
    let want = "node 1 1 0 2 1\nentry 1 1 w noop 0 0 - 0 -\nentry 2 1 p put 7 1 61 2 1d\n";
    assert_shown(rt, alloc, 1, 1, Some(0), &log, want)
}

#[test]
fn faults_have_a_text(rt: HostRuntime) -> Result<(), Fail> {
    let (bad, full) = (LineFault::Bad, LineFault::OutOfMemory);
    let text = format!(in rt.alloc(); "{bad}, {full}")?;
    assert_eq!(rt; text.as_str(), "bad line, out of memory");
    Ok(())
}
