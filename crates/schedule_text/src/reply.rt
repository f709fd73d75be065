//! What a client is told, as words.
ghost use Rattle.std.specs.Prelude.{◌≡◌, ◌++◌, OnOk, string_bytes};
ghost use Rattle.world_model.specs.Lines.{line_of, reply_words};

use crate::words::yes_or_no;
use craft_base::{OutOfMemory, Reply};
use line_input::digits_of;
use std::alloc::Global;
use std::fmt::Write;

/// Adds the words of a reply, and a line feed.
pub fn push_reply(alloc: Global, text: &mut String, reply: &Reply) -> Result<(), OutOfMemory>
    ensures { OnOk result (string_bytes text.new ≡ string_bytes text.old ++ line_of (reply_words reply.now)) }
{
    match reply {
        Reply::Done(version) => writeln!(text, "done {version}")?,
        Reply::Differs(version) => writeln!(text, "differs {version}")?,
        Reply::Gone(was_there) => {
            let was_there = yes_or_no(*was_there);
            writeln!(text, "gone {was_there}")?
        }
        Reply::Value(version, value) => {
            let digits = digits_of(alloc, value.as_bytes())?;
            writeln!(text, "value {version} {digits}")?
        }
        Reply::Nothing => writeln!(text, "nothing")?,
        Reply::Old => writeln!(text, "old")?,
        Reply::Elsewhere(None) => writeln!(text, "elsewhere -")?,
        Reply::Elsewhere(Some(member)) => {
            let member = member.number();
            writeln!(text, "elsewhere {member}")?
        }
        Reply::Preparing => writeln!(text, "preparing")?,
        Reply::Busy => writeln!(text, "busy")?,
        Reply::Full => writeln!(text, "full")?,
    }
    Ok(())
}
