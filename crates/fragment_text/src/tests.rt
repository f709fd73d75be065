ghost use Rattle.std.specs.Prelude.{◌≤◌};

use super::*;
use craft_base::Shape;
use craft_edge::{MemSink, MemSource};
use std::alloc::{AllocError, Global};
use std::process::Abort;
use std::test::Fail;

/// How a split of these bytes ends, and what it writes, where the source gives that many bytes a read.
fn split_of(
    alloc: Global,
    shape: &Shape,
    value: &[u8],
    piece: usize,
) -> Result<(SplitEnd, Vec<u8>), AllocError>
    requires { 1 ≤ piece }
{
    let mut src = MemSource::new(value.to_vec(alloc)?, piece, Vec::new(alloc));
    let mut out = MemSink::new(5, Vec::new(alloc));
    let end = split(alloc, shape, &mut src, &mut out);
    let text = out.taken().to_vec(alloc)?;
    Ok((end, text))
}

/// The same of a join.
fn join_of(
    alloc: Global,
    shape: &Shape,
    text: &[u8],
    piece: usize,
) -> Result<(JoinEnd, Vec<u8>), AllocError>
    requires { 1 ≤ piece }
{
    let mut src = MemSource::new(text.to_vec(alloc)?, piece, Vec::new(alloc));
    let mut out = MemSink::new(5, Vec::new(alloc));
    let end = join(alloc, shape, &mut src, &mut out);
    let value = out.taken().to_vec(alloc)?;
    Ok((end, value))
}

/// A split of these bytes writes that text.
fn splits(
    rt: &impl Abort,
    alloc: Global,
    shape: &Shape,
    value: &[u8],
    want: &[u8],
) -> Result<(), Fail> {
    let (end, text) = split_of(alloc, shape, value, 1)?;
    assert_eq!(rt; end, SplitEnd::End);
    assert_eq!(rt; text.as_slice(), want, "of {value:?}");
    Ok(())
}

/// A join of these bytes ends so, and writes that value.
fn joins(
    rt: &impl Abort,
    alloc: Global,
    text: &[u8],
    piece: usize,
    want: JoinEnd,
    written: &[u8],
) -> Result<(), Fail>
    requires { 1 ≤ piece }
{
    let shape = Shape::new(1, 2)?;
    let (end, value) = join_of(alloc, &shape, text, piece)?;
    assert_eq!(rt; end, want, "of {text:?} by {piece}");
    assert_eq!(rt; value.as_slice(), written, "of {text:?} by {piece}");
    Ok(())
}

// By hand: the points of the members are 1, 2 and 3, and twice 80 is 1d.
#[test]
fn short_values_are_split(rt: HostRuntime) -> Result<(), Fail> {
    let alloc = rt.alloc();
    let two = Shape::new(1, 2)?;
    splits(
        &rt,
        alloc,
        &two,
        &[1, 2],
        b"value 2\npart 0 03\npart 1 05\npart 2 07\n",
    )?;
    splits(
        &rt,
        alloc,
        &two,
        &[0, 0x80],
        b"value 2\npart 0 80\npart 1 1d\npart 2 9d\n",
    )?;
    splits(
        &rt,
        alloc,
        &two,
        &[],
        b"value 0\npart 0 -\npart 1 -\npart 2 -\n",
    )?;
    let one = Shape::new(1, 1)?;
    splits(
        &rt,
        alloc,
        &one,
        b"ab",
        b"value 2\npart 0 6162\npart 1 6162\npart 2 6162\n",
    )
}

/// The bytes 0 to 64.
fn bytes_to_64(alloc: Global) -> Result<Vec<u8>, Fail> {
    let mut value = Vec::new(alloc);
    for byte in 0..65u8 {
        value.push(byte)?;
    }
    Ok(value)
}

// Two pieces of 33 bytes, of which the second ends in a 0.
#[test]
fn an_odd_length_is_split(rt: HostRuntime) -> Result<(), Fail> {
    let shape = Shape::new(1, 2)?;
    let value = bytes_to_64(rt.alloc())?;
    let (end, text) = split_of(rt.alloc(), &shape, &value, 64)?;
    assert_eq!(rt; end, SplitEnd::End);
    // a line of 9 bytes, and three of 7, 66 and 1
    assert_eq!(rt; text.len(), 231);
    // where the digits of a byte begin, and the two
    let table: [(usize, &[u8]); 7] = [
        (16, b"21"),
        (16 + 62, b"5f"),
        (16 + 64, b"20"),
        (90, b"42"),
        (90 + 62, b"9f"),
        (90 + 64, b"20"),
        (164 + 62, b"df"),
    ];
    for (at, digits) in &table {
        assert!(rt; *at < 229);
        assert_eq!(rt; &text[*at..*at + 2], *digits, "at {at}");
    }
    Ok(())
}

// Each source gives 1, 2, 3 or 7 bytes a read.
#[test]
fn texts_are_joined(rt: HostRuntime) -> Result<(), Fail> {
    let alloc = rt.alloc();
    let table: [(&[u8], JoinEnd, &[u8]); 6] = [
        (b"value 2\npart 1 1d\npart 2 9d\n", JoinEnd::End, &[0, 0x80]),
        (b"value 2\npart 1 1d\n", JoinEnd::TooFew { index: 1 }, &[]),
        (b"value 2\n", JoinEnd::TooFew { index: 0 }, &[]),
        (b"value 2\npart 1 1D\n", JoinEnd::Bad { line: 2 }, &[]),
        (
            b"value 0\npart 0 -\npart 1 -\npart 2 -\n",
            JoinEnd::End,
            &[],
        ),
        // the third part is no fragment of that value, and isn't used
        (
            b"value 2\npart 0 03\npart 1 05\npart 2 ff\n",
            JoinEnd::End,
            &[1, 2],
        ),
    ];
    for (text, end, want) in &table {
        for piece in [1, 2, 3, 7] {
            assert!(rt; 1 <= piece);
            joins(&rt, alloc, text, piece, *end, want)?;
        }
    }
    Ok(())
}

/// How a join of the text below ends where the text is cut off there: its lines have 8, 10 and 10 bytes.
fn end_of_cut(cut: usize) -> JoinEnd {
    match cut {
        8 => JoinEnd::TooFew { index: 0 },
        18 => JoinEnd::TooFew { index: 1 },
        28 => JoinEnd::End,
        0..8 => JoinEnd::Bad { line: 1 },
        9..18 => JoinEnd::Bad { line: 2 },
        _ => JoinEnd::Bad { line: 3 },
    }
}

#[test]
fn a_text_is_cut_at_each_byte(rt: HostRuntime) -> Result<(), Fail> {
    let text = b"value 2\npart 1 1d\npart 2 9d\n".as_slice();
    for cut in 0..28 {
        joins(&rt, rt.alloc(), &text[..cut], 3, end_of_cut(cut), &[])?;
    }
    joins(&rt, rt.alloc(), text, 3, end_of_cut(28), &[0, 0x80])
}

#[test]
fn other_lines_are_bad(rt: HostRuntime) -> Result<(), Fail> {
    let table: [(&[u8], u64); 17] = [
        (b"", 1),
        (b"\n", 1),
        (b"part 0 -\n", 1),
        (b"value\n", 1),
        (b"value 02\n", 1),
        (b"value 32769\n", 1),
        (b"value  2\n", 1),
        (b"value 2\nvalue 2\n", 2),
        (b"value 2\npart 0 0\n", 2),
        (b"value 2\npart 0 0303\n", 2),
        (b"value 2\npart 0 -\n", 2),
        (b"value 0\npart 0 00\n", 2),
        (b"value 0\npart 0 \n", 2),
        (b"value 2\npart 3 03\n", 2),
        (b"value 2\npart 1 05\npart 0 03\n", 3),
        (b"value 2\npart 1 05\npart 1 05\n", 3),
        (b"value 2\npart 0 03\npart 1 05\npart 2 0g\n", 4),
    ];
    for (text, line) in &table {
        joins(
            &rt,
            rt.alloc(),
            text,
            100,
            JoinEnd::Bad { line: *line },
            &[],
        )?;
    }
    Ok(())
}

/// A value comes back from the text that a split writes of it.
fn comes_back(rt: &impl Abort, alloc: Global, shape: &Shape, value: &[u8]) -> Result<(), Fail> {
    let (end, text) = split_of(alloc, shape, value, 1000)?;
    assert_eq!(rt; end, SplitEnd::End);
    let (end, joined) = join_of(alloc, shape, &text, 1000)?;
    assert_eq!(rt; end, JoinEnd::End);
    assert!(rt; joined.as_slice() == value);
    Ok(())
}

#[test]
fn the_longest_value_comes_back(rt: HostRuntime) -> Result<(), Fail> {
    let shape = Shape::new(1, 2)?;
    let value = vec![in rt.alloc(); 0xa5; 32_768]?;
    comes_back(&rt, rt.alloc(), &shape, &value)
}

#[test]
fn a_longer_value_is_refused(rt: HostRuntime) -> Result<(), Fail> {
    let shape = Shape::new(1, 2)?;
    let value = vec![in rt.alloc(); 0xa5; 32_769]?;
    let (end, text) = split_of(rt.alloc(), &shape, &value, 1000)?;
    assert_eq!(rt; end, SplitEnd::TooLong);
    assert!(rt; text.is_empty());
    Ok(())
}

#[test]
fn a_failing_sink_is_told(rt: HostRuntime) -> Result<(), Fail> {
    let alloc = rt.alloc();
    let shape = Shape::new(1, 2)?;
    let mut out = MemSink::new(5, vec![in alloc; 2]?);
    let mut src = MemSource::new([1, 2].to_vec(alloc)?, 1, Vec::new(alloc));
    assert_eq!(rt;
        split(alloc, &shape, &mut src, &mut out),
        SplitEnd::SinkFault
    );
    assert_eq!(rt; out.taken(), b"value".as_slice());
    Ok(())
}

#[test]
fn a_failing_source_is_told(rt: HostRuntime) -> Result<(), Fail> {
    let alloc = rt.alloc();
    let shape = Shape::new(1, 2)?;
    let mut out = MemSink::new(5, Vec::new(alloc));
    let mut src = MemSource::new(b"value 2\n".to_vec(alloc)?, 1, vec![in alloc; 2]?);
    assert_eq!(rt;
        join(alloc, &shape, &mut src, &mut out),
        JoinEnd::SourceFault
    );
    assert!(rt; out.taken().is_empty());
    Ok(())
}
