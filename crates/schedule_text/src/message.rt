//! What a member sends, as a line.
ghost use Rattle.std.specs.Prelude.{◌≡◌, ◌++◌, OnOk, string_bytes};
ghost use Rattle.entry_frames.specs.declared.peer.Peer.TheVariants as peers;
ghost use Rattle.entry_frames.specs.declared.output.Output.TheVariants as outputs;
ghost use Rattle.world_model.specs.Lines.{line_of, peer_words, output_line};
ghost use Rattle.entry_frames.specs.MessageParts.{IsPeer};

use crate::forms::forms_word;
use crate::words::{byte_word, yes_or_no};
use craft_base::OutOfMemory;
use peer_frames::{Message, Peer};
use std::alloc::Global;
use std::fmt::Write;

/// Adds the line of a message to another member, which is sent under that frame number.
pub fn push_message(
    alloc: Global,
    text: &mut String,
    frame: u64,
    message: &Message,
) -> Result<(), OutOfMemory>
    requires { IsPeer message.now }
    ensures { OnOk result (string_bytes text.new ≡ string_bytes text.old ++ output_line 0 frame (outputs.Send message.now)) }
{
    match message {
        Message::Peer {
            from,
            to,
            term,
            body,
        } => {
            let from = from.number();
            let to = to.number();
            write!(text, "send {frame} {from} {to} ")?;
            push_body(alloc, text, *term, body)?
        }
        Message::Request { .. } | Message::Answered { .. } => unreachable!(),
    }
    Ok(())
}

/// Adds what a message says, with its sender's term, and a line feed.
fn push_body(alloc: Global, text: &mut String, term: u64, body: &Peer) -> Result<(), OutOfMemory>
    ensures { OnOk result (string_bytes text.new ≡ string_bytes text.old ++ line_of (peer_words term body.now)) }
{
    match body {
        Peer::Vote { last_term, last } => writeln!(text, "vote {term} {last_term} {last}")?,
        Peer::VoteReply { granted } => {
            let granted = yes_or_no(*granted);
            writeln!(text, "voted {term} {granted}")?
        }
        Peer::Append {
            prev,
            prev_term,
            commit,
            entries,
        } => {
            let forms = forms_word(alloc, entries)?;
            writeln!(text, "append {term} {prev} {prev_term} {commit} {forms}")?
        }
        Peer::Matched { prev, count, mask } => {
            push_matched(alloc, text, term, *prev, *count, *mask)?
        }
        Peer::Refused { next } => writeln!(text, "refused {term} {next}")?,
        Peer::Ask { start } => writeln!(text, "ask {term} {start}")?,
        Peer::Answer { start, last, slots } => {
            let forms = forms_word(alloc, slots)?;
            writeln!(text, "answer {term} {start} {last} {forms}")?
        }
    }
    Ok(())
}

/// Adds how far a log goes along with the leader's.
fn push_matched(
    alloc: Global,
    text: &mut String,
    term: u64,
    prev: u64,
    count: u8,
    mask: u8,
) -> Result<(), OutOfMemory>
    ensures { OnOk result (string_bytes text.new ≡ string_bytes text.old ++ line_of (peer_words term (peers.Matched prev count mask))) }
{
    let mask = byte_word(alloc, mask)?;
    writeln!(text, "matched {term} {prev} {count} {mask}")?;
    Ok(())
}
