//! A value is read, and the text of its fragments is written.
ghost use Rattle.std.specs.Prelude.{◌≤◌, IfOk, IfErr, OnOk, length};
ghost use Rattle.std.specs.Io.KnownBytes.{Consumes, IsAtEnd};
ghost use Rattle.entry_frames.specs.Limits.{longest_value};
ghost use Rattle.fragment_text.specs.Splitting.{SplitEnds, ReadsNoValue};
ghost use Rattle.fragment_text.specs.declared.split_end.SplitEnd.TheVariants.{End};

use crate::split_end::SplitEnd;
use crate::text::text_of;
use craft_base::Shape;
use craft_edge::{Sink, Source, write_all};
use entry_frames::LONGEST_VALUE;
use std::alloc::Global;

/// The most bytes that are read at once.
const PIECE: usize = 4_096;

/// Reads a value to the end of the source, and writes the text of its fragments, a line for each member of the cluster.
pub fn split<S: Source, O: Sink>(alloc: Global, shape: &Shape, src: &mut S, out: &mut O) -> SplitEnd
    ensures ends { SplitEnds shape.now
        (record { left = S.left src.old; taken = O.taken out.old; source_faults = S.faults src.old; sink_faults = O.faults out.old })
        (record { left = S.left src.new; taken = O.taken out.new; source_faults = S.faults src.new; sink_faults = O.faults out.new }) result }
{
    match run(alloc, shape, src, out) {
        Ok(()) => SplitEnd::End,
        Err(end) => end,
    }
}

/// The same, with what ends it early as an error.
fn run<S: Source, O: Sink>(
    alloc: Global,
    shape: &Shape,
    src: &mut S,
    out: &mut O,
) -> Result<(), SplitEnd>
    ensures done { OnOk result (SplitEnds shape.now
        (record { left = S.left src.old; taken = O.taken out.old; source_faults = S.faults src.old; sink_faults = O.faults out.old })
        (record { left = S.left src.new; taken = O.taken out.new; source_faults = S.faults src.new; sink_faults = O.faults out.new }) End) }
    ensures early { IfErr result (SplitEnds shape.now
        (record { left = S.left src.old; taken = O.taken out.old; source_faults = S.faults src.old; sink_faults = O.faults out.old })
        (record { left = S.left src.new; taken = O.taken out.new; source_faults = S.faults src.new; sink_faults = O.faults out.new })) }
{
    let value = read_value(alloc, src)?;
    let text = text_of(alloc, shape, &value)?;
    match write_all(out, text.as_bytes()) {
        Ok(()) => Ok(()),
        Err(_) => Err(SplitEnd::SinkFault),
    }
}

/// Reads a value to the end of the source.
fn read_value<S: Source>(alloc: Global, src: &mut S) -> Result<Vec<u8>, SplitEnd>
    ensures read { IfOk result (λ value. Consumes (S.left src.old) (S.left src.new) value.items × IsAtEnd (S.left src.new) × (length value.items ≤ longest_value)) }
    ensures failed { IfErr result (ReadsNoValue (S.left src.old) (S.faults src.old) (S.faults src.new)) }
{
    let mut value = Vec::new(alloc);
    let mut buffer = [0u8; PIECE];
    'pieces: while value.len() <= LONGEST_VALUE as usize {
        match src.read(&mut buffer) {
            Ok(0) => return Ok(value),
            Ok(count) => value.extend_from_slice(&buffer[..count])?,
            Err(_) => return Err(SplitEnd::SourceFault),
        }
    }
    Err(SplitEnd::TooLong)
}
