//! The lines of parts are read, and the value that they give is written.
ghost use Rattle.std.specs.Prelude.{◌≡◌, ◌≤◌, ◌<◌, IfOk, IfErr, OnOk, IsTrue};
ghost use Rattle.craft_base.specs.Shape.{Shape};
ghost use Rattle.entry_frames.specs.Limits.{longest_value};
ghost use Rattle.fragment_text.specs.Said.{Said, part_of_words, words_of};
ghost use Rattle.fragment_text.specs.Joining.{JoinEnds, ReadsNoParts};
ghost use Rattle.fragment_text.specs.Kept.{StandsFor, Takes, ReadsLength, ReadsPart, ReadsNoPart, ReadsParts};
ghost use Rattle.fragment_text.specs.declared.join_end.JoinEnd.TheVariants.{End};

use crate::digits::value_length;
use crate::join_end::JoinEnd;
use crate::parts::Parts;
use craft_base::Shape;
use craft_edge::{Sink, Source, write_all};
use line_input::{LineEnd, read_line, words};
use std::alloc::{AllocError, Global};

/// Reads the lines of parts to the end of the source, and writes the value that the first k of them give, for a cluster
/// that needs k. The others are read for their form alone.
pub fn join<S: Source, O: Sink>(alloc: Global, shape: &Shape, src: &mut S, out: &mut O) -> JoinEnd
    ensures ends { JoinEnds shape.now
        (record { left = S.left src.old; taken = O.taken out.old; source_faults = S.faults src.old; sink_faults = O.faults out.old })
        (record { left = S.left src.new; taken = O.taken out.new; source_faults = S.faults src.new; sink_faults = O.faults out.new }) result }
{
    match run(alloc, shape, src, out) {
        Ok(()) => JoinEnd::End,
        Err(end) => end,
    }
}

/// The same, with what ends it early as an error.
fn run<S: Source, O: Sink>(
    alloc: Global,
    shape: &Shape,
    src: &mut S,
    out: &mut O,
) -> Result<(), JoinEnd>
    ensures done { OnOk result (JoinEnds shape.now
        (record { left = S.left src.old; taken = O.taken out.old; source_faults = S.faults src.old; sink_faults = O.faults out.old })
        (record { left = S.left src.new; taken = O.taken out.new; source_faults = S.faults src.new; sink_faults = O.faults out.new }) End) }
    ensures early { IfErr result (JoinEnds shape.now
        (record { left = S.left src.old; taken = O.taken out.old; source_faults = S.faults src.old; sink_faults = O.faults out.old })
        (record { left = S.left src.new; taken = O.taken out.new; source_faults = S.faults src.new; sink_faults = O.faults out.new })) }
{
    let parts = read_parts(alloc, shape, src)?;
    let value = parts.value(alloc)?;
    match write_all(out, &value) {
        Ok(()) => Ok(()),
        Err(_) => Err(JoinEnd::SinkFault),
    }
}

/// Reads all the lines.
fn read_parts<S: Source>(alloc: Global, shape: &Shape, src: &mut S) -> Result<Parts, JoinEnd>
    ensures read { IfOk result (ReadsParts shape.now (S.left src.old) (S.left src.new)) }
    ensures failed { IfErr result (ReadsNoParts shape.now (S.left src.old) (S.faults src.old) (S.faults src.new)) }
{
    let mut line = Vec::new(alloc);
    let value_length = read_length(alloc, src, &mut line)?;
    let mut parts = Parts::new(alloc, shape, value_length)?;
    'lines: loop {
        if !read_part(alloc, src, &mut line, &mut parts)? {
            return Ok(parts);
        }
    }
}

/// Reads the first line, which tells the value's length.
fn read_length<S: Source>(alloc: Global, src: &mut S, line: &mut Vec<u8>) -> Result<usize, JoinEnd>
    ensures read { IfOk result (ReadsLength (S.left src.old) (S.left src.new)) }
    ensures limit { IfOk result (λ count. count ≤ longest_value) }
    ensures failed { IfErr result (λ end. (shape : Shape) → ReadsNoParts shape (S.left src.old) (S.faults src.old) (S.faults src.new) end) }
    ensures later { S.faults src.old ≤ S.faults src.new }
{
    match read_line(src, line)? {
        LineEnd::LineFeed => match value_length(&words(alloc, line)?) {
            Some(count) => Ok(count),
            None => Err(JoinEnd::Bad { line: 1 }),
        },
        LineEnd::End | LineEnd::Broken => Err(JoinEnd::Bad { line: 1 }),
    }
}

/// Reads the line of the next part. Answers whether there was one, and not the end of the input.
fn read_part<S: Source>(
    alloc: Global,
    src: &mut S,
    line: &mut Vec<u8>,
    parts: &mut Parts,
) -> Result<bool, JoinEnd>
    ensures read { IfOk result (λ more. (shape : Shape) (said : Said) → StandsFor shape parts.old said → ReadsPart shape said (S.left src.old) (S.left src.new) parts.new more) }
    ensures rising { IfOk result (λ more. IsTrue more → parts.old.next < parts.new.next) }
    ensures limit { IfOk result (λ more. IsTrue more → parts.new.next ≤ 15) }
    ensures failed { IfErr result (λ end. (shape : Shape) (said : Said) → StandsFor shape parts.old said → ReadsNoPart shape said (S.left src.old) (S.faults src.old) (S.faults src.new) end) }
    ensures later { S.faults src.old ≤ S.faults src.new }
{
    let number = u64::from(parts.count()) + 2;
    match read_line(src, line)? {
        LineEnd::End => Ok(false),
        LineEnd::Broken => Err(JoinEnd::Bad { line: number }),
        LineEnd::LineFeed => {
            if take_line(alloc, line, parts)? {
                Ok(true)
            } else {
                Err(JoinEnd::Bad { line: number })
            }
        }
    }
}

/// Takes the part that a line without its line feed tells. Answers whether it is the line of a part that may come next.
fn take_line(alloc: Global, line: &[u8], parts: &mut Parts) -> Result<bool, AllocError>
    ensures taken { IfOk result (λ taken. (shape : Shape) (said : Said) → StandsFor shape parts.old said → Takes shape parts.new (part_of_words shape said (words_of line.now)) taken) }
    ensures rising { IfOk result (λ taken. IsTrue taken → parts.old.next < parts.new.next) }
    ensures limit { IfOk result (λ taken. IsTrue taken → parts.new.next ≤ 15) }
{
    let words = words(alloc, line)?;
    Ok(parts.take(&words))
}
