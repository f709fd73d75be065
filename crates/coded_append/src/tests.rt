//! What the contracts don't say: that they mean CRaft's ways of sending, on logs worked out by hand.
use crate::kept_log::KeptLog;
use crate::{Mode, coded_batch, mode, page_from, start_for, whole_batch};
use craft_base::{Form, Known, MemberId, Shape};
use entry_frames::{Batch, EntryView, LogView};
use heard_book::Heard;
use std::alloc::Global;
use std::fmt::Write;
use std::process::Abort;
use std::test::Fail;
use test_text::bytes_of;

const NOOP: &str = "0100 0000000000000001 0000000000000000 0000000000000000 00 ";

const PUT: &str = "0101 0000000000000001 0000000000000007 0000000000000001 0161 00000002 0080 ";

const PUT_IF: &str = "0102 0000000000000001 0000000000000007 0000000000000002
    0000000000000009 0161 00000002 8000 ";

const PUT_NOTHING: &str = "0101 0000000000000001 0000000000000007 0000000000000003 0161 00000000 ";

const DEL: &str = "0103 0000000000000001 0000000000000007 0000000000000004 0161 ";

const GET: &str = "0104 0000000000000001 0000000000000007 0000000000000005 0161 ";

const PART: &str = "0201 0000000000000001 0000000000000007 0000000000000006 0161 00000002 1d ";

/// The bytes of these entries.
fn joined(alloc: Global, entries: &[&str]) -> Result<Vec<u8>, Fail> {
    let mut text = String::new(alloc);
    for entry in entries {
        text.push_str(entry)?;
    }
    Ok(bytes_of(alloc, text.as_str())?)
}

/// The log of at most twelve entries that these bytes are, committed up to that index.
fn log_of<'a>(alloc: Global, bytes: &'a [u8], commit: u64) -> Result<KeptLog<'a>, Fail> {
    let mut log = KeptLog::new(alloc, 2);
    let mut rest = bytes;
    for place in 0..12 {
        if place == commit {
            log.commit_all();
        }
        if rest.is_empty() {
            return Ok(log);
        }
        let (view, len) = EntryView::read(2, rest)?;
        log.push(view)?;
        rest = rest.get(len..).ok_or("no rest")?;
    }
    Ok(log)
}

/// What goes to that member from an index on in a cluster of three, two fragments of whose values rebuild them.
fn coded(
    rt: &impl Abort,
    alloc: Global,
    log: &KeptLog<'_>,
    number: u8,
    start: u64,
) -> Result<Batch, Fail> {
    let shape = Shape::new(1, 2)?;
    let member = MemberId::new(&shape, number).ok_or("no such member")?;
    assert!(rt; start >= 1 && start <= log.last() + 1, "from {start}");
    Ok(coded_batch(alloc, log, &shape, member, start)?)
}

/// What goes whole from an index on.
fn whole(rt: &impl Abort, alloc: Global, log: &KeptLog<'_>, start: u64) -> Result<Batch, Fail> {
    assert!(rt; start >= 1 && start <= log.last() + 1, "from {start}");
    Ok(whole_batch(alloc, log, start)?)
}

/// What is shown from an index on.
fn page(rt: &impl Abort, alloc: Global, log: &KeptLog<'_>, start: u64) -> Result<Batch, Fail> {
    assert!(rt; start >= 1, "from {start}");
    Ok(page_from(alloc, log, start)?)
}

/// The forms of a batch, with the bytes held.
fn forms_of(alloc: Global, batch: &Batch) -> Result<String, Fail> {
    let mut text = String::new(alloc);
    for n in 0..batch.len() {
        match batch.at(n).map(|entry| &entry.form) {
            Some(Form::Whole(bytes)) => write!(text, "w{:?}", bytes.as_bytes())?,
            Some(Form::Part(bytes)) => write!(text, "p{:?}", bytes.as_bytes())?,
            None => return Err("no such entry".into()),
        }
    }
    Ok(text)
}

// Of the value 00 80 the coefficients are 00 and 80, so that the fragments are 80, 80 doubled, which is 1d, and the sum of both.
#[test]
fn each_member_is_sent_its_own_fragment(rt: HostRuntime) -> Result<(), Fail> {
    let alloc = rt.alloc();
    let bytes = joined(alloc, &[NOOP, PUT, PUT_IF])?;
    let log = log_of(alloc, &bytes, 0)?;
    for (number, want) in [
        (0, "w[]p[128]p[128]"),
        (1, "w[]p[29]p[128]"),
        (2, "w[]p[157]p[128]"),
    ] {
        let batch = coded(&rt, alloc, &log, number, 1)?;
        assert_eq!(rt; forms_of(alloc, &batch)?.as_str(), want, "to {number}");
    }
    let batch = whole(&rt, alloc, &log, 1)?;
    assert_eq!(rt; forms_of(alloc, &batch)?.as_str(), "w[]w[0, 128]w[128, 0]");
    Ok(())
}

#[test]
fn what_has_no_value_bytes_goes_whole(rt: HostRuntime) -> Result<(), Fail> {
    let alloc = rt.alloc();
    let bytes = joined(alloc, &[NOOP, PUT_NOTHING, DEL, GET, PUT])?;
    let log = log_of(alloc, &bytes, 0)?;
    let batch = coded(&rt, alloc, &log, 1, 1)?;
    assert_eq!(rt; forms_of(alloc, &batch)?.as_str(), "w[]w[]w[]w[]p[29]");
    let batch = coded(&rt, alloc, &log, 1, 5)?;
    assert_eq!(rt; forms_of(alloc, &batch)?.as_str(), "p[29]");
    let batch = coded(&rt, alloc, &log, 1, 6)?;
    assert_eq!(rt; forms_of(alloc, &batch)?.as_str(), "");
    Ok(())
}

#[test]
fn nothing_goes_from_the_first_held_part_on(rt: HostRuntime) -> Result<(), Fail> {
    let alloc = rt.alloc();
    let bytes = joined(alloc, &[PUT, PART, PUT])?;
    let log = log_of(alloc, &bytes, 0)?;
    for (start, want) in [(1, "p[29]"), (2, ""), (3, "p[29]"), (4, "")] {
        let batch = coded(&rt, alloc, &log, 1, start)?;
        assert_eq!(rt; forms_of(alloc, &batch)?.as_str(), want, "from {start}");
    }
    for (start, want) in [(1, "w[0, 128]"), (2, ""), (3, "w[0, 128]"), (4, "")] {
        let batch = whole(&rt, alloc, &log, start)?;
        assert_eq!(rt; forms_of(alloc, &batch)?.as_str(), want, "from {start}");
    }
    Ok(())
}

#[test]
fn a_page_shows_held_parts_too(rt: HostRuntime) -> Result<(), Fail> {
    let alloc = rt.alloc();
    let bytes = joined(alloc, &[PUT, PART, NOOP])?;
    let log = log_of(alloc, &bytes, 0)?;
    for (start, want) in [
        (1, "w[0, 128]p[29]w[]"),
        (2, "p[29]w[]"),
        (3, "w[]"),
        (4, ""),
        (5, ""),
        (u64::MAX, ""),
    ] {
        let batch = page(&rt, alloc, &log, start)?;
        assert_eq!(rt; forms_of(alloc, &batch)?.as_str(), want, "from {start}");
    }
    Ok(())
}

#[test]
fn at_most_eight_entries_go(rt: HostRuntime) -> Result<(), Fail> {
    let alloc = rt.alloc();
    let bytes = joined(alloc, &[PUT, PUT, PUT, PUT, PUT, PUT, PUT, PUT, PUT])?;
    let log = log_of(alloc, &bytes, 0)?;
    for (start, want) in [(1, 8), (2, 8), (3, 7), (9, 1), (10, 0)] {
        let batch = coded(&rt, alloc, &log, 1, start)?;
        assert_eq!(rt; batch.len(), want, "from {start}");
        let batch = whole(&rt, alloc, &log, start)?;
        assert_eq!(rt; batch.len(), want, "whole from {start}");
        let batch = page(&rt, alloc, &log, start)?;
        assert_eq!(rt; batch.len(), want, "shown from {start}");
    }
    Ok(())
}

/// Adds a Put of a value of that length: an entry of 32 bytes more, whole or as a part.
fn push_put(alloc: Global, bytes: &mut Vec<u8>, len: u32) -> Result<(), Fail> {
    let head = "0101 0000000000000001 0000000000000007 0000000000000001 0161";
    bytes.extend_from_slice(&bytes_of(alloc, head)?)?;
    bytes.extend_from_slice(&len.to_be_bytes())?;
    bytes.extend_from_slice(&vec![in alloc; 0x76; len as usize]?)?;
    Ok(())
}

// A fragment of 32,768 bytes has 16,384, so that three such entries have 49,248 bytes, and 6,752 are left: for a fragment of
// 6,720 bytes. Whole one of them has 32,800, so that 23,200 are left.
#[test]
fn bytes_are_counted_as_they_go(rt: HostRuntime) -> Result<(), Fail> {
    let alloc = rt.alloc();
    for (len, want) in [(13_440, 4), (13_441, 3), (32_768, 3)] {
        let mut bytes = Vec::new(alloc);
        for _ in 0..3 {
            push_put(alloc, &mut bytes, 32_768)?;
        }
        push_put(alloc, &mut bytes, len)?;
        let log = log_of(alloc, &bytes, 0)?;
        assert_eq!(rt; coded(&rt, alloc, &log, 1, 1)?.len(), want, "with {len}");
        assert_eq!(rt; whole(&rt, alloc, &log, 1)?.len(), 1);
    }
    Ok(())
}

// Two of 28,000 bytes are 56,000 bytes.
#[test]
fn at_most_56_000_bytes_go(rt: HostRuntime) -> Result<(), Fail> {
    let alloc = rt.alloc();
    for (len, want) in [(27_968, 2), (27_969, 1)] {
        let mut bytes = Vec::new(alloc);
        push_put(alloc, &mut bytes, 27_968)?;
        push_put(alloc, &mut bytes, len)?;
        let log = log_of(alloc, &bytes, 0)?;
        assert_eq!(rt; whole(&rt, alloc, &log, 1)?.len(), want, "whole with {len}");
        assert_eq!(rt; page(&rt, alloc, &log, 1)?.len(), want, "shown with {len}");
    }
    Ok(())
}

/// F, k, how many other members are healthy, and the mode.
const MODES: [(u8, u8, u8, Mode); 10] = [
    (1, 2, 2, Mode::Coded),
    (1, 2, 1, Mode::Complete),
    (1, 1, 1, Mode::Coded),
    (1, 1, 0, Mode::Complete),
    (2, 3, 4, Mode::Coded),
    (2, 3, 3, Mode::Complete),
    (7, 8, 14, Mode::Coded),
    (7, 8, 13, Mode::Complete),
    (7, 8, 255, Mode::Coded),
    (7, 1, 7, Mode::Coded),
];

#[test]
fn as_many_are_healthy_as_have_to_hold_a_coded_entry(rt: HostRuntime) -> Result<(), Fail> {
    for (faults, need, fresh, want) in MODES {
        let shape = Shape::new(faults, need)?;
        assert_eq!(rt; mode(fresh, &shape), want, "{faults} {need} {fresh}");
    }
    Ok(())
}

/// From where on goes what in that mode, after these messages: behind which index the log of member 1 matches, for how many
/// entries, and which of them it holds whole. The log has five entries, two of them committed.
fn start_after(
    rt: &impl Abort,
    alloc: Global,
    told: &[(u64, u8, u8)],
    how: Mode,
) -> Result<u64, Fail> {
    let shape = Shape::new(1, 2)?;
    let member = MemberId::new(&shape, 1).ok_or("no such member")?;
    let bytes = joined(alloc, &[NOOP, PUT, PUT, PUT, PUT])?;
    let log = log_of(alloc, &bytes, 2)?;
    let mut heard = Heard::new(alloc, &shape, MemberId::default())?;
    heard.lead(6, 2);
    for (prev, count, mask) in told {
        heard = heard.matched(member, *prev, *count, *mask, 5)?;
    }
    assert!(rt; heard.settled() <= log.commit());
    Ok(start_for(&heard, &log, how, member))
}

#[test]
fn complete_mode_goes_back_to_what_is_not_held_whole(rt: HostRuntime) -> Result<(), Fail> {
    let alloc = rt.alloc();
    let cases: [(&[(u64, u8, u8)], u64, u64); 6] = [
        (&[], 6, 3),
        (&[(0, 5, 0b11111)], 6, 6),
        (&[(0, 5, 0b10111)], 6, 4),
        (&[(0, 5, 0b11100)], 6, 6),
        (&[(0, 2, 0b00011)], 3, 3),
        (&[(0, 5, 0b00100), (3, 2, 0b00001)], 6, 5),
    ];
    for (told, in_coded, in_complete) in cases {
        assert_eq!(rt; start_after(&rt, alloc, told, Mode::Coded)?, in_coded);
        assert_eq!(rt; start_after(&rt, alloc, told, Mode::Complete)?, in_complete);
    }
    Ok(())
}
