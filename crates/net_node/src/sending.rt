//! The packets of a turn: messages to where their members listen, replies to where their clients asked.
ghost use Rattle.std.specs.Prelude.{◌≡◌, ◌≤◌, ◌∷◌, [], All, IfErr, OnErr, OnOk};
ghost use Rattle.entry_frames.specs.Formats.{Fits};
ghost use Rattle.entry_frames.specs.MessageFields.{frame_fields};
ghost use Rattle.entry_frames.specs.declared.output.Output.TheVariants as outputs;
ghost use Rattle.world_model.specs.Ranges.{HasSpelling};
ghost use Rattle.net_node.specs.NodeRun as run;
ghost use Rattle.net_node.specs.Sending.{CanBeSent, Sends, SendsFront, SendsNot};

use crate::cluster::Cluster;
use crate::serve_end::ServeEnd;
use craft_base::MemberId;
use craft_edge::{Failed, Link};
use peer_frames::{Message, Output, write_message};

/// Sends what a turn tells others, in order, up to the first send that fails.
pub fn send_all<L: Link>(
    cluster: &Cluster<'_>,
    outputs: Vec<Output>,
    link: &mut L,
) -> Result<(), ServeEnd>
    requires { All (CanBeSent cluster.now.shape.now cluster.now.me) outputs.items }
    ensures sent { OnOk result (Sends (L.sent link.old) (L.sent link.new) (run.packets_among cluster.now.shape.now cluster.now.places.now cluster.now.me outputs.items)) }
    ensures front { OnErr result (SendsFront (L.sent link.old) (L.sent link.new) (run.packets_among cluster.now.shape.now cluster.now.places.now cluster.now.me outputs.items)) }
    ensures coming { L.coming link.new ≡ L.coming link.old }
    ensures later { L.faults link.old ≤ L.faults link.new }
    ensures cause { IfErr result (SendsNot (L.faults link.old) (L.faults link.new)) }
{
    for output in outputs {
        send_output(cluster, output, link)?;
    }
    Ok(())
}

/// Sends what an output tells another, if it does.
fn send_output<L: Link>(cluster: &Cluster<'_>, output: Output, link: &mut L) -> Result<(), ServeEnd>
    requires { CanBeSent cluster.now.shape.now cluster.now.me output }
    ensures sent { OnOk result (Sends (L.sent link.old) (L.sent link.new) (run.packets_of cluster.now.shape.now cluster.now.places.now cluster.now.me output)) }
    ensures none { OnErr result (L.sent link.new ≡ L.sent link.old) }
    ensures coming { L.coming link.new ≡ L.coming link.old }
    ensures later { L.faults link.old ≤ L.faults link.new }
    ensures cause { IfErr result (SendsNot (L.faults link.old) (L.faults link.new)) }
{
    match output {
        Output::Send { message } => send_message(cluster, message, link),
        Output::Reply {
            place,
            client,
            seq,
            reply,
        } => {
            let message = Message::Answered {
                from: cluster.me,
                client,
                seq,
                reply,
            };
            send_to(cluster, place, &message, link)
        }
        Output::Role { .. } | Output::Cut { .. } | Output::Whole { .. } | Output::Commit { .. } => {
            Ok(())
        }
    }
}

/// Sends a message to where its receiver listens.
fn send_message<L: Link>(
    cluster: &Cluster<'_>,
    message: Message,
    link: &mut L,
) -> Result<(), ServeEnd>
    requires { HasSpelling cluster.now.shape.now message }
    ensures sent { OnOk result (Sends (L.sent link.old) (L.sent link.new) (run.packets_of cluster.now.shape.now cluster.now.places.now cluster.now.me (outputs.Send message))) }
    ensures none { OnErr result (L.sent link.new ≡ L.sent link.old) }
    ensures coming { L.coming link.new ≡ L.coming link.old }
    ensures later { L.faults link.old ≤ L.faults link.new }
    ensures cause { IfErr result (SendsNot (L.faults link.old) (L.faults link.new)) }
{
    let place = match &message {
        Message::Peer { to, .. } => place_of(cluster.places, *to),
        Message::Request { .. } | Message::Answered { .. } => unreachable!(),
    };
    send_to(cluster, place, &message, link)
}

/// Where a member listens.
fn place_of(places: &[u64], member: MemberId) -> u64
    ensures { result ≡ run.place_of places.now member }
{
    match places.get(member.number() as usize) {
        Some(place) => *place,
        None => 0,
    }
}

/// Sends a message to a place.
fn send_to<L: Link>(
    cluster: &Cluster<'_>,
    place: u64,
    message: &Message,
    link: &mut L,
) -> Result<(), ServeEnd>
    requires { Fits (frame_fields cluster.now.shape.now) message.now }
    ensures sent { OnOk result (Sends (L.sent link.old) (L.sent link.new) (run.packet_to cluster.now.shape.now place message.now ∷ [])) }
    ensures none { OnErr result (L.sent link.new ≡ L.sent link.old) }
    ensures coming { L.coming link.new ≡ L.coming link.old }
    ensures later { L.faults link.old ≤ L.faults link.new }
    ensures cause { IfErr result (SendsNot (L.faults link.old) (L.faults link.new)) }
{
    let Ok(frame) = write_message(cluster.alloc, cluster.shape, message) else {
        return Err(ServeEnd::NoMemory);
    };
    match link.send(place, frame.as_bytes()) {
        Ok(()) => Ok(()),
        Err(Failed) => Err(ServeEnd::LinkFault),
    }
}
