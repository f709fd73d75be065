//! What a member tells, as a line.
ghost use Rattle.std.specs.Prelude.{◌≡◌, ◌++◌, OnOk, OnErr, string_bytes};
ghost use Rattle.world_model.specs.Lines.{output_line};
ghost use Rattle.schedule_text.specs.Sends.{SendsPeer};

use crate::message::push_message;
use crate::reply::push_reply;
use crate::words::{cut_word, role_word};
use craft_base::{MemberId, OutOfMemory};
use peer_frames::Output;
use std::alloc::Global;
use std::fmt::Write;

/// Adds the line of what the member `me` tells. What it sends is told under the number `frame`; that isn't looked at for
/// anything else.
pub fn line_of(
    alloc: Global,
    out: &mut Vec<u8>,
    me: MemberId,
    frame: u64,
    output: &Output,
) -> Result<(), OutOfMemory>
    requires { SendsPeer output.now }
    ensures line { OnOk result (out.new.items ≡ out.old.items ++ output_line me frame output.now) }

    // After an error the text is as it was.
    ensures kept { OnErr result (out.new.items ≡ out.old.items) }
{
    let mut line = String::new(alloc);
    push_output(alloc, &mut line, me, frame, output)?;
    out.extend_from_slice(line.as_bytes())?;
    Ok(())
}

/// Adds the line to a text.
fn push_output(
    alloc: Global,
    text: &mut String,
    me: MemberId,
    frame: u64,
    output: &Output,
) -> Result<(), OutOfMemory>
    requires { SendsPeer output.now }
    ensures { OnOk result (string_bytes text.new ≡ string_bytes text.old ++ output_line me frame output.now) }
{
    let me = me.number();
    match output {
        Output::Role { role, term } => {
            let role = role_word(*role);
            writeln!(text, "role {me} {role} {term}")?
        }
        Output::Cut { index, prep } => {
            let cause = cut_word(*prep);
            writeln!(text, "cut {me} {index} {cause}")?
        }
        Output::Whole { index } => writeln!(text, "whole {me} {index}")?,
        Output::Commit { index } => writeln!(text, "commit {me} {index}")?,
        Output::Reply {
            client,
            seq,
            reply,
            ..
        } => {
            write!(text, "reply {me} {client} {seq} ")?;
            push_reply(alloc, text, reply)?
        }
        Output::Send { message } => push_message(alloc, text, frame, message)?,
    }
    Ok(())
}
