ghost use Rattle.std.specs.Prelude.{ℕ};
ghost use Rattle.entry_frames.specs.Formats.{Fits};
ghost use Rattle.entry_frames.specs.Records.{record_fields};
ghost use Rattle.entry_frames.specs.RecordViews.{record_of, HasK};
ghost use Rattle.entry_frames.specs.Views.{IsK};

use super::*;
use crate::kept_log::KeptLog;
use craft_base::{Entry, Form};
use rand_xoshiro::SplitMix64;
use rand_xoshiro::rand_core::{Rng, SeedableRng};
use std::alloc::{AllocError, Global};
use std::process::Abort;
use std::test::Fail;
use test_text::{bytes_of, joined};

// ---- what isn't read

/// What bytes are read as.
#[derive(Clone, Copy)]
enum ReadAs {
    Entry,
    Record,
}

/// Why the bytes begin with no entry, or with no record.
fn fault_of(what: ReadAs, k: u8, bytes: &[u8]) -> Option<FrameFault>
    requires { IsK k }
{
    match what {
        ReadAs::Entry => EntryView::read(k, bytes).err(),
        ReadAs::Record => RecordView::read(k, bytes).err(),
    }
}

/// Whichever of the bytes are left out at the end, the others end too soon.
fn is_short_before_its_end(rt: &impl Abort, what: ReadAs, k: u8, bytes: &[u8])
    requires { IsK k }
{
    for end in 0..bytes.len() {
        assert_eq!(rt;
            fault_of(what, k, &bytes[..end]),
            Some(FrameFault::Short),
            "{end} bytes of {bytes:?}"
        );
    }
}

/// The bytes of the text end behind a field that begins at that offset and is out of range.
fn is_bad(rt: &impl Abort, alloc: Global, what: ReadAs, text: &str, at: usize) -> Result<(), Fail> {
    let bytes = bytes_of(alloc, text)?;
    is_short_before_its_end(rt, what, 2, &bytes);
    let longer = joined(alloc, &bytes, &[0; 40])?;
    for frame in [bytes.as_slice(), &longer] {
        assert_eq!(rt;
            fault_of(what, 2, frame),
            Some(FrameFault::Bad(at)),
            "at {text}"
        );
    }
    Ok(())
}

/// Each text of these rows ends behind a field that begins at the row's offset and is out of range; how many texts they are.
fn are_bad(
    rt: &impl Abort,
    alloc: Global,
    what: ReadAs,
    rows: &[(usize, &str)],
) -> Result<u64, Fail> {
    let mut count = 0u64;
    for (at, texts) in rows {
        for text in texts.split(',') {
            is_bad(rt, alloc, what, text, *at)?;
            count = count.wrapping_add(1);
        }
    }
    Ok(count)
}

// ---- entries

/// A view of an entry as text: term, client, its number, operation, key, length of the value, form, what is held.
fn view_text(alloc: Global, view: &EntryView<'_>) -> Result<String, AllocError> {
    let form = if view.is_whole() { "whole" } else { "part" };
    format!(in alloc;
        "{} {} {} {:?} {:?} {} {form} {:?}",
        view.term(),
        view.client(),
        view.seq(),
        view.op(),
        view.key(),
        view.vlen(),
        view.bytes()
    )
}

/// An entry as text, in the same order.
fn entry_text(alloc: Global, entry: &Entry) -> Result<String, AllocError> {
    let (form, held) = match &entry.form {
        Form::Whole(held) => ("whole", held.as_bytes()),
        Form::Part(held) => ("part", held.as_bytes()),
    };
    format!(in alloc;
        "{} {} {} {:?} {:?} {} {form} {held:?}",
        entry.term,
        entry.head.client,
        entry.head.seq,
        entry.head.op,
        entry.head.key.as_bytes(),
        entry.head.vlen
    )
}

/// An entry is written as these bytes, behind what stood there.
fn entry_writes(
    rt: &impl Abort,
    alloc: Global,
    view: &EntryView<'_>,
    bytes: &[u8],
) -> Result<(), Fail> {
    let front = [0xc5, 0x5c];
    let mut out = front.to_vec(alloc)?;
    write_entry(alloc, &mut out, view)?;
    assert_eq!(rt; out, joined(alloc, &front, bytes)?);
    Ok(())
}

/// A view shows what the text says, and is written as these bytes.
fn is_shown(
    rt: &impl Abort,
    alloc: Global,
    view: &EntryView<'_>,
    bytes: &[u8],
    want: &str,
) -> Result<(), Fail> {
    assert_eq!(rt; view_text(alloc, view)?.as_str(), want);
    entry_writes(rt, alloc, view, bytes)
}

/// The entry made of a view is what the text says, and so is the view that it lends.
fn is_made(
    rt: &impl Abort,
    alloc: Global,
    view: &EntryView<'_>,
    bytes: &[u8],
    want: &str,
) -> Result<(), Fail> {
    let k = view.k();
    let entry = view.to_entry(alloc)?;
    assert_eq!(rt; entry_text(alloc, &entry)?.as_str(), want);
    let again = EntryView::of(k, &entry);
    assert_eq!(rt; again.k(), k);
    is_shown(rt, alloc, &again, bytes, want)
}

/// The bytes are read as the entry of the text, whatever follows them, and each of its views is written as they are.
fn is_entry(rt: &impl Abort, alloc: Global, k: u8, bytes: &[u8], want: &str) -> Result<(), Fail>
    requires { IsK k }
{
    is_short_before_its_end(rt, ReadAs::Entry, k, bytes);
    let longer = joined(alloc, bytes, &[0xff, 0x01])?;
    for frame in [bytes, &longer] {
        let (view, len) = EntryView::read(k, frame)?;
        assert_eq!(rt; len, bytes.len());
        assert_eq!(rt; view.k(), k);
        is_shown(rt, alloc, &view, bytes, want)?;
        is_made(rt, alloc, &view, bytes, want)?;
    }
    Ok(())
}

/// The bytes of entries, and each entry as text.
///
/// By hand: tag, operation, term, client, number, the version expected, length of the key, key, length of the value, bytes.
/// The greatest number is 2^62, 4611686018427387904.
const ENTRIES: [(&str, &str); 9] = [
    (
        "01 00 0000000000000001 0000000000000000 0000000000000000 00",
        "1 0 0 Noop [] 0 whole []",
    ),
    (
        "01 01 0000000000000002 0000000000000003 0000000000000004 01 61 00000000",
        "2 3 4 Put [97] 0 whole []",
    ),
    (
        "01 01 4000000000000000 4000000000000000 4000000000000000 02 6b79 00000003 ff007f",
        "4611686018427387904 4611686018427387904 4611686018427387904 Put [107, 121] 3 whole [255, 0, 127]",
    ),
    (
        "01 02 0000000000000102 0000000000000007 0000000000000008 0000000000000005 01 6b 00000001 76",
        "258 7 8 PutIf(5) [107] 1 whole [118]",
    ),
    (
        "01 02 0000000000000001 0000000000000001 0000000000000001 4000000000000000 01 6b 00000000",
        "1 1 1 PutIf(4611686018427387904) [107] 0 whole []",
    ),
    (
        "01 03 0000000000000009 000000000000000a 000000000000000b 01 00",
        "9 10 11 Del [0] 0 whole []",
    ),
    (
        "01 04 0000000000000001 0000000000000001 0123456789abcdef 03 676574",
        "1 1 81985529216486895 Get [103, 101, 116] 0 whole []",
    ),
    (
        "02 01 0000000000000001 0000000000000001 0000000000000001 01 6b 00000002 03",
        "1 1 1 Put [107] 2 part [3]",
    ),
    (
        "02 02 0000000000000001 0000000000000001 0000000000000001 0000000000000000 01 6b 00000003 aabb",
        "1 1 1 PutIf(0) [107] 3 part [170, 187]",
    ),
];

#[test]
fn entries_are_written_as_by_hand(rt: HostRuntime) -> Result<(), Fail> {
    let alloc = rt.alloc();
    for (text, want) in ENTRIES {
        let bytes = bytes_of(alloc, text)?;
        is_entry(&rt, alloc, 2, &bytes, want)?;
    }
    Ok(())
}

/// A Put with the greatest numbers and a key of 255 bytes, of whose value of 32,768 bytes these are held.
fn is_longest(rt: &impl Abort, alloc: Global, k: u8, tag: Tag, held: &[u8]) -> Result<(), Fail>
    requires { IsK k }
{
    let key = vec![in alloc; 0x6b; 255]?;
    let mut bytes = bytes_of(
        alloc,
        "01 4000000000000000 4000000000000000 4000000000000000 ff",
    )?;
    bytes.insert(0, tag.byte())?;
    bytes.extend_from_slice(&key)?;
    bytes.extend_from_slice(&[0, 0, 0x80, 0])?;
    bytes.extend_from_slice(held)?;
    let number = 1u64 << 62;
    let form = if tag == Tag::Whole { "whole" } else { "part" };
    let want = format!(in alloc; "{number} {number} {number} Put {key:?} 32768 {form} {held:?}")?;
    is_entry(rt, alloc, k, &bytes, want.as_str())
}

// Each number of fragments that rebuild a value, and how long a fragment then is.
#[test]
fn the_longest_entries_are_read(rt: HostRuntime) -> Result<(), Fail> {
    let alloc = rt.alloc();
    let value = vec![in alloc; 0x76; 32_768]?;
    is_longest(&rt, alloc, 2, Tag::Whole, &value)?;
    for (k, held) in [
        (1, 32_768),
        (2, 16_384),
        (3, 10_923),
        (4, 8_192),
        (5, 6_554),
        (6, 5_462),
        (7, 4_682),
        (8, 4_096),
    ] {
        assert!(rt; 1 <= k && k <= 8);
        let part = value.get(..held).ok_or("a part longer than its value")?;
        is_longest(&rt, alloc, k, Tag::Part, part)?;
    }
    Ok(())
}

/// Bytes that end behind a field out of range, by the offset at which that field begins.
///
/// By hand: a text ends with that field, and the fields before it are within their ranges.
const BAD_FIELDS: [(usize, &str); 9] = [
    // the tag
    (0, "00, 03, ff"),
    // the operation
    (1, "01 05, 02 ff, 02 00, 02 03, 02 04"),
    // the term
    (2, "01 01 0000000000000000, 01 00 4000000000000001"),
    // the client
    (
        10,
        "01 01 0000000000000001 0000000000000000,
        01 04 0000000000000001 4000000000000001,
        01 00 0000000000000001 0000000000000001",
    ),
    // the client's number
    (
        18,
        "01 01 0000000000000001 0000000000000001 0000000000000000,
        01 03 0000000000000001 0000000000000001 4000000000000001,
        01 00 0000000000000001 0000000000000000 0000000000000001",
    ),
    // the version expected, or else the length of the key
    (
        26,
        "01 02 0000000000000001 0000000000000001 0000000000000001 4000000000000001,
        02 02 0000000000000001 0000000000000001 0000000000000001 ffffffffffffffff,
        01 01 0000000000000001 0000000000000001 0000000000000001 00,
        01 00 0000000000000001 0000000000000000 0000000000000000 01",
    ),
    // the length of the value behind a key of one byte
    (
        28,
        "01 01 0000000000000001 0000000000000001 0000000000000001 01 61 00008001,
        02 01 0000000000000001 0000000000000001 0000000000000001 01 61 00008001,
        02 01 0000000000000001 0000000000000001 0000000000000001 01 61 00000000",
    ),
    // the length of the key behind the version expected
    (
        34,
        "01 02 0000000000000001 0000000000000001 0000000000000001 4000000000000000 00",
    ),
    // the length of the value behind the version expected and a key of three bytes
    (
        38,
        "02 02 0000000000000001 0000000000000001 0000000000000001 0000000000000000 03 616263 00000000",
    ),
];

#[test]
fn a_bad_field_is_told_where_it_begins(rt: HostRuntime) -> Result<(), Fail> {
    let alloc = rt.alloc();
    let count = are_bad(&rt, alloc, ReadAs::Entry, &BAD_FIELDS)?;
    assert_eq!(rt; count, 25);
    Ok(())
}

/// What comes of an entry with a term between two others, behind three other bytes: the fault, or where what follows begins.
fn taken(bytes: &[u8], low: u64, high: u64) -> Result<usize, FrameFault> {
    let mut fields = Fields::of(bytes);
    fields.bytes(3)?;
    EntryView::take(&mut fields, 2, low, high)?;
    Ok(fields.at())
}

// A term that is no term at all is out of range by itself; one outside of the two makes the whole entry so.
#[test]
fn a_term_outside_is_told_where_the_entry_begins(rt: HostRuntime) -> Result<(), Fail> {
    let alloc = rt.alloc();
    let noop = "aaaaaa 01 00 0000000000000005 0000000000000000 0000000000000000 00 ff";
    let cut_short = "aaaaaa 01 00 0000000000000005";
    let cut_inside = "aaaaaa 01 00 00000000000000";
    let bad_client = "aaaaaa 01 00 0000000000000005 0000000000000001";
    let none = "aaaaaa 01 00 0000000000000000";
    let too_great = "aaaaaa 01 00 4000000000000001";
    let cases = [
        (noop, 5, 5, Ok(30)),
        (noop, 0, u64::MAX, Ok(30)),
        (noop, 6, 9, Err(FrameFault::Bad(3))),
        (noop, 1, 4, Err(FrameFault::Bad(3))),
        (noop, 6, 4, Err(FrameFault::Bad(3))),
        (cut_short, 5, 5, Err(FrameFault::Short)),
        (cut_short, 6, 9, Err(FrameFault::Bad(3))),
        (cut_short, 1, 4, Err(FrameFault::Bad(3))),
        (cut_inside, 6, 9, Err(FrameFault::Short)),
        (bad_client, 5, 5, Err(FrameFault::Bad(13))),
        (bad_client, 6, 9, Err(FrameFault::Bad(3))),
        (none, 0, 9, Err(FrameFault::Bad(5))),
        (none, 1, 9, Err(FrameFault::Bad(5))),
        (too_great, 0, u64::MAX, Err(FrameFault::Bad(5))),
        (too_great, 1, 4, Err(FrameFault::Bad(5))),
    ];
    for (text, low, high, want) in cases {
        let bytes = bytes_of(alloc, text)?;
        assert_eq!(rt;
            taken(&bytes, low, high),
            want,
            "at {text}, {low} to {high}"
        );
    }
    Ok(())
}

// ---- records

/// A record as text: its kind, and then a term and a vote, an entry, an index, or an index and a value.
fn record_text(alloc: Global, view: &RecordView<'_>) -> Result<String, AllocError> {
    match view {
        RecordView::Term(term, vote) => format!(in alloc; "Term {term} {vote:?}"),
        RecordView::Add(entry) => format!(in alloc; "Add {}", view_text(alloc, entry)?),
        RecordView::Cut(index) => format!(in alloc; "Cut {index}"),
        RecordView::Whole(index, bytes) => format!(in alloc; "Whole {index} {bytes:?}"),
        RecordView::Commit(index) => format!(in alloc; "Commit {index}"),
    }
}

/// The bytes of the group of one record.
fn group_of(alloc: Global, view: &RecordView<'_>) -> Result<Vec<u8>, Fail>
    requires { (k : ℕ) → HasK k view.now → Fits (record_fields k) (record_of view.now) }
{
    let group = GroupBuilder::new(alloc)?.put(view)?.close()?;
    Ok(group.as_bytes().to_vec(alloc)?)
}

/// The record with which the bytes begin is written back as those that it took; how many they are, 0 where there is none.
fn record_comes_back(rt: &impl Abort, alloc: Global, k: u8, bytes: &[u8]) -> Result<usize, Fail>
    requires { IsK k }
{
    match RecordView::read(k, bytes) {
        Ok((view, len)) => {
            let group = group_of(alloc, &view)?;
            let mut want = (len as u64).to_be_bytes().to_vec(alloc)?;
            want.extend_from_slice(&bytes[..len])?;
            want.push(0)?;
            assert_eq!(rt; group, want, "at {bytes:?}");
            Ok(len)
        }
        Err(_) => Ok(0),
    }
}

/// The bytes of the text are read as the record of the other text, whatever follows them, and are written back.
fn is_record(rt: &impl Abort, alloc: Global, text: &str, want: &str) -> Result<(), Fail> {
    let bytes = bytes_of(alloc, text)?;
    is_short_before_its_end(rt, ReadAs::Record, 2, &bytes);
    let longer = joined(alloc, &bytes, &[0xff, 0x01])?;
    let (view, len) = RecordView::read(2, &longer)?;
    assert_eq!(rt; record_text(alloc, &view)?.as_str(), want);
    assert_eq!(rt; len, bytes.len());
    for frame in [bytes.as_slice(), &longer] {
        assert_eq!(rt; record_comes_back(rt, alloc, 2, frame)?, bytes.len());
    }
    Ok(())
}

/// The bytes of records, and each record as text.
///
/// By hand: the kind, then a term and a vote, an entry, an index, or an index, the length of a value and its bytes.
/// The greatest term is 2^64 - 1, 18446744073709551615; the greatest index is 0xf4240, 1000000.
const RECORDS: [(&str, &str); 11] = [
    ("01 0000000000000001 ff", "Term 1 None"),
    ("01 0000000000000001 00", "Term 1 Some(0)"),
    ("01 0000000000000000 fe", "Term 0 Some(254)"),
    (
        "01 ffffffffffffffff 0e",
        "Term 18446744073709551615 Some(14)",
    ),
    (
        "02 01 00 0000000000000007 0000000000000000 0000000000000000 00",
        "Add 7 0 0 Noop [] 0 whole []",
    ),
    (
        "02 02 01 0000000000000003 0000000000000001 0000000000000001 01 6b 00000002 03",
        "Add 3 1 1 Put [107] 2 part [3]",
    ),
    ("03 0000000000000001", "Cut 1"),
    ("03 00000000000f4240", "Cut 1000000"),
    ("04 0000000000000102 00000002 aabb", "Whole 258 [170, 187]"),
    ("04 00000000000f4240 00000001 00", "Whole 1000000 [0]"),
    ("05 00000000000f4240", "Commit 1000000"),
];

/// Bytes that end behind a record's field out of range, by the offset at which that field begins.
///
/// By hand: a text ends with that field, and the fields before it are within their ranges.
const BAD_RECORD_FIELDS: [(usize, &str); 6] = [
    // the kind
    (0, "00, 06, ff"),
    // an entry's tag, or an index
    (
        1,
        "02 03,
        03 0000000000000000, 03 00000000000f4241,
        04 0000000000000000, 04 00000000000f4241,
        05 0000000000000000, 05 00000000000f4241",
    ),
    // an entry's operation
    (2, "02 01 05"),
    // an entry's term
    (3, "02 01 01 0000000000000000"),
    // an entry's client
    (11, "02 01 00 0000000000000001 0000000000000001"),
    // the length of a value
    (
        9,
        "04 0000000000000001 00000000, 04 0000000000000001 00008001",
    ),
];

#[test]
fn records_are_written_as_by_hand(rt: HostRuntime) -> Result<(), Fail> {
    let alloc = rt.alloc();
    for (text, want) in RECORDS {
        is_record(&rt, alloc, text, want)?;
    }
    let count = are_bad(&rt, alloc, ReadAs::Record, &BAD_RECORD_FIELDS)?;
    assert_eq!(rt; count, 15);
    Ok(())
}

// By hand: the length of the body, the body, and the next gate.
#[test]
fn groups_are_written_as_by_hand(rt: HostRuntime) -> Result<(), Fail> {
    let alloc = rt.alloc();
    let empty = GroupBuilder::new(alloc)?.close()?;
    assert!(rt; empty.is_empty());
    assert_eq!(rt;
        empty.as_bytes(),
        bytes_of(alloc, "0000000000000000 00")?.as_slice()
    );

    let group = GroupBuilder::new(alloc)?
        .put(&RecordView::Term(1, None))?
        .put(&RecordView::Term(1, Some(0)))?
        .close()?;
    assert!(rt; !group.is_empty());
    let want = bytes_of(
        alloc,
        "0000000000000014 01 0000000000000001 ff 01 0000000000000001 00 00",
    )?;
    assert_eq!(rt; group.as_bytes(), want.as_slice());
    Ok(())
}

// ---- made bytes

/// A made byte, often 0 or small.
fn next_byte(rng: &mut SplitMix64) -> u8 {
    let word = rng.next_u64();
    match word % 8 {
        0 => (word >> 56) as u8,
        1 | 2 => ((word >> 8) % 6) as u8,
        _ => 0,
    }
}

/// A byte at a place of a made entry: a tag, an operation and the length of a key are mostly in range.
fn entry_byte(word: u64, place: u64, byte: u8) -> u8 {
    match place {
        0 => ((word >> 24) % 2) as u8 + 1,
        1 => ((word >> 32) % 6) as u8,
        26 => ((word >> 40) % 3) as u8 + 1,
        _ => byte,
    }
}

/// 0 to 60 made bytes, which mostly begin as an entry, as a record of an entry or as another record.
fn next_bytes(alloc: Global, rng: &mut SplitMix64) -> Result<Vec<u8>, AllocError> {
    let word = rng.next_u64();
    let mut bytes = Vec::new(alloc);
    for at in 0..(word >> 8) % 61 {
        let byte = next_byte(rng);
        bytes.push(match word % 8 {
            0 | 1 | 2 => entry_byte(word, at, byte),
            3 if at < 10 => entry_byte(word, at, byte),
            3 => 0,
            4 | 5 if at > 0 => entry_byte(word, at - 1, byte),
            4 | 5 => 2,
            6 if at == 0 => ((word >> 24) % 6) as u8,
            _ => byte,
        })?;
    }
    Ok(bytes)
}

/// The entry with which the bytes begin is written back as those that it took; how many they are, 0 where there is none.
fn entry_comes_back(rt: &impl Abort, alloc: Global, k: u8, bytes: &[u8]) -> Result<usize, Fail>
    requires { IsK k }
{
    match EntryView::read(k, bytes) {
        Ok((view, len)) => {
            entry_writes(rt, alloc, &view, &bytes[..len])?;
            Ok(len)
        }
        Err(_) => Ok(0),
    }
}

#[test]
fn what_is_read_of_made_bytes_is_written_back(rt: HostRuntime) -> Result<(), Fail> {
    let alloc = rt.alloc();
    let mut rng = SplitMix64::seed_from_u64(20);
    let mut entries = 0u64;
    let mut records = 0u64;
    for n in 0..10_000u64 {
        let k = (n % 8) as u8 + 1;
        let bytes = next_bytes(alloc, &mut rng)?;
        if entry_comes_back(&rt, alloc, k, &bytes)? > 0 {
            entries = entries.wrapping_add(1);
        }
        if record_comes_back(&rt, alloc, k, &bytes)? > 0 {
            records = records.wrapping_add(1);
        }
    }
    assert!(rt; entries >= 300, "{entries} entries");
    assert!(rt; records >= 300, "{records} records");
    Ok(())
}

// ---- logs

/// A log shows these terms and that commit.
fn log_shows<L: LogView>(rt: &impl Abort, log: &L, terms: &[u64], commit: u64) {
    assert_eq!(rt; log.last(), terms.len() as u64);
    assert_eq!(rt; log.commit(), commit);
    assert_eq!(rt; log.term_at(0), 0);
    assert!(rt; log.at(0).is_none());
    assert!(rt; log.at(log.last() + 1).is_none());
    assert!(rt; log.at(u64::MAX).is_none());
    for (before, term) in terms.iter().enumerate() {
        let index = before as u64 + 1;
        assert!(rt; index <= log.last());
        assert_eq!(rt; log.term_at(index), *term);
        match log.at(index) {
            Some(view) => assert_eq!(rt; view.term(), *term),
            None => assert!(rt; false, "nothing at {index}"),
        }
    }
}

/// A log of two entries, of which one is committed.
fn two_are_kept(rt: &impl Abort, alloc: Global, first: &[u8], second: &[u8]) -> Result<(), Fail> {
    let mut log = KeptLog::new(alloc, 2);
    log_shows(rt, &log, &[], 0);
    let (view, _) = EntryView::read(2, first)?;
    log.push(view)?;
    log.commit_all();
    let (view, _) = EntryView::read(2, second)?;
    log.push(view)?;
    log_shows(rt, &log, &[1, 4], 1);
    Ok(())
}

#[test]
fn a_log_is_looked_at(rt: HostRuntime) -> Result<(), Fail> {
    let alloc = rt.alloc();
    let first = bytes_of(
        alloc,
        "01 00 0000000000000001 0000000000000000 0000000000000000 00",
    )?;
    let second = bytes_of(
        alloc,
        "01 03 0000000000000004 0000000000000001 0000000000000001 01 6b",
    )?;
    two_are_kept(&rt, alloc, &first, &second)
}
