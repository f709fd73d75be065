//! The command `ask`.
ghost use Rattle.std.specs.Prelude.{◌≡◌, ℕ, List, Option, IfOk};
ghost use Rattle.command_words.specs.Spelling.{IsCommand};
ghost use Rattle.command_words.specs.declared.command.Command.TheVariants.{Ask};
ghost use Rattle.craft.specs.Asks.{Asks, answer_line};

use crate::status::Status;
use command_words::AskCommand;
use craft_base::{MemberId, OutOfMemory, Reply};
use craft_client::ask_group;
use craft_edge::{Link, Sink, write_all};
use peer_frames::Output;
use schedule_text::line_of;
use std::alloc::Global;

/// How many requests `ask` sends at most.
const TRIES: u64 = 20;

/// Asks a cluster, and writes the line of the reply.
pub(crate) fn run_ask<O: Sink, L: Link>(
    alloc: Global,
    ask: &AskCommand,
    out: &mut O,
    link: &mut L,
) -> Status
    requires { IsCommand (Ask ask.now) }
    ensures { (left : Option (List ℕ)) (source_faults : ℕ) → Asks ask.now
        (record { left = left; taken = O.taken out.old; source_faults = source_faults; sink_faults = O.faults out.old })
        (record { left = left; taken = O.taken out.new; source_faults = source_faults; sink_faults = O.faults out.new })
        (record { coming = L.coming link.old; sent = L.sent link.old; faults = L.faults link.old })
        (record { coming = L.coming link.new; sent = L.sent link.new; faults = L.faults link.new }) result }
{
    let places = ask.places.as_slice();
    let (member, reply) = match ask_group(alloc, &ask.shape, places, &ask.request, TRIES, link) {
        Ok(answer) => answer,
        Err(fault) => return Status::from(fault),
    };
    let Ok(line) = reply_text(alloc, ask, member, reply) else {
        return Status::NoMemory;
    };
    match write_all(out, &line) {
        Ok(()) => Status::Done,
        Err(_) => Status::SinkFault,
    }
}

/// The line of a reply that a member gave.
fn reply_text(
    alloc: Global,
    ask: &AskCommand,
    member: MemberId,
    reply: Reply,
) -> Result<Vec<u8>, OutOfMemory>
    ensures { IfOk result (λ line. line.items ≡ answer_line ask.now (member, reply)) }
{
    let output = Output::Reply {
        place: ask.request.client,
        client: ask.request.client,
        seq: ask.request.seq,
        reply,
    };
    let mut line = Vec::new(alloc);
    line_of(alloc, &mut line, member, 0, &output)?;
    Ok(line)
}
