//! The lines of an input.
ghost use Rattle.std.specs.Prelude.{◌≡◌, ◌≤◌, ◌⊎◌, is_some, IfOk, IfErr, OnErr};
ghost use Rattle.std.specs.Io.KnownBytes.{Keeps};
ghost use Rattle.craft_edge.specs.Causes.{Rose};
ghost use Rattle.line_input.specs.Lines.{TakesByte, TakesLine, TakesUnfinished};
ghost use Rattle.line_input.specs.declared.fault.InputFault.TheVariants.{SourceFault, NoMemory};

use crate::InputFault;
use craft_edge::Source;
use world_model::LONGEST_LINE;

/// How a line ends.
#[derive(Clone, Copy, Debug, PartialEq, Eq)]
pub enum LineEnd {
    /// By its line feed.
    LineFeed,
    /// The input ends before its first byte: there is no line.
    End,
    /// The input ends within it, or it is too long.
    Broken,
}

/// Takes one line of the source, without its line feed. The source is asked for a byte at a time, so that what stands
/// behind the line stays there; what buffers is the source.
pub fn read_line<S: Source>(src: &mut S, line: &mut Vec<u8>) -> Result<LineEnd, InputFault>
    ensures taken { IfOk result (λ end. TakesLine (S.left src.old) (S.left src.new) line.new.items end) }
    ensures told { is_some (S.left src.new) ≡ is_some (S.left src.old) }
    ensures later { S.faults src.old ≤ S.faults src.new }
    ensures unfinished { IfErr result (λ e. e ≡ SourceFault → TakesUnfinished (S.left src.old) (S.left src.new)) }
    ensures failed { IfErr result (λ e. (e ≡ NoMemory) ⊎ ((e ≡ SourceFault) × Rose (S.faults src.old) (S.faults src.new))) }
{
    line.clear();
    for _ in 0..LONGEST_LINE {
        match next_byte(src)? {
            None if line.is_empty() => return Ok(LineEnd::End),
            None => return Ok(LineEnd::Broken),
            Some(b'\n') => return Ok(LineEnd::LineFeed),
            Some(byte) => line.push(byte)?,
        }
    }
    Ok(LineEnd::Broken)
}

/// Takes one byte of the source, or none at its end.
fn next_byte<S: Source>(src: &mut S) -> Result<Option<u8>, InputFault>
    ensures taken { IfOk result (λ byte. TakesByte (S.left src.old) (S.left src.new) byte) }
    ensures kept { OnErr result (Keeps (S.left src.old) (S.left src.new)) }
    ensures told { is_some (S.left src.new) ≡ is_some (S.left src.old) }
    ensures later { S.faults src.old ≤ S.faults src.new }
    ensures failed { IfErr result (λ e. (e ≡ SourceFault) × Rose (S.faults src.old) (S.faults src.new)) }
{
    let mut buffer = [0u8; 1];
    match src.read(&mut buffer) {
        Ok(0) => Ok(None),
        Ok(_) => Ok(Some(buffer[0])),
        Err(_) => Err(InputFault::SourceFault),
    }
}
