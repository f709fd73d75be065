//! The text of a value and its fragments.
ghost use Rattle.std.specs.Prelude.{◌≡◌, ◌≤◌, ◌++◌, IfOk, OnOk, string_bytes};
ghost use Rattle.fragment_text.specs.Texts.{part_line, split_text};

use craft_base::{OutOfMemory, Shape, part_len};
use line_input::digits_of;
use rs_code::part_into;
use std::alloc::Global;
use std::fmt::Write;

/// A line with the value's length, and a line for each member's fragment.
pub fn text_of(alloc: Global, shape: &Shape, value: &[u8]) -> Result<String, OutOfMemory>
    ensures { IfOk result (λ text. string_bytes text ≡ split_text shape.now value.now) }
{
    let mut text = String::new(alloc);
    let length = value.len();
    writeln!(text, "value {length}")?;
    let need = shape.need();
    let mut buffer = vec![in alloc; 0; part_len(length, need)]?;
    let part = buffer.as_mut_slice();
    for member in 0..shape.members() {
        part_into(value, need, member, part);
        push_part(alloc, &mut text, member, part)?;
    }
    Ok(text)
}

/// Adds the line of a member's fragment.
fn push_part(alloc: Global, text: &mut String, member: u8, part: &[u8]) -> Result<(), OutOfMemory>
    ensures { OnOk result (string_bytes text.new ≡ string_bytes text.old ++ part_line member part.now) }
{
    let digits = digits_of(alloc, part)?;
    writeln!(text, "part {member} {digits}")?;
    Ok(())
}
