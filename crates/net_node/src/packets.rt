//! What a node does with the packets that come.
ghost use Rattle.std.specs.Prelude.{◌≡◌, ℕ, List, Option, ◌≤◌, ◌<◌, ◌+◌, ◌^◌, IfErr, IfOk, length};
ghost use Rattle.synced_log.specs.Crashes.{TellsSame};
ghost use Rattle.net_node.specs.NodeRun as run;
ghost use Rattle.net_node.specs.Serving.{CanLeave, Halts, IsOf, Makes};

use crate::cluster::Cluster;
use crate::heard::{Heard, heard_in};
use crate::serve_end::ServeEnd;
use crate::serving::Serving;
use craft_edge::{Came, Disk, Failed, Link, Sink};
use node_core::Event;

/// Takes the next packet, if one comes.
pub fn receive<D: Disk, L: Link, O: Sink>(
    cluster: &Cluster<'_>,
    serving: Serving<D>,
    buf: &mut [u8],
    link: &mut L,
    out: &mut O,
) -> Result<Serving<D>, (ServeEnd, D)>
    requires member { IsOf cluster.now.shape.now cluster.now.me serving.shell.core }
    requires room { serving.counts.events + 1 < 2 ^ 64 }
    requires buffer { 65536 ≤ length buf.old }
    ensures made { IfOk result (λ x. (readings : Option (List ℕ)) → Makes (λ s. run.receiving cluster.now.places.now s.packets s) cluster.now.shape.now cluster.now.me 1
        (record { core = serving.shell.core; counts = serving.counts; edges = record { readings = readings; coming = L.coming link.old; sent = L.sent link.old; taken = O.taken out.old }; faults = record { sink = O.faults out.old; disk = D.faults serving.shell.disk; link = L.faults link.old } })
        (record { core = x.shell.core; counts = x.counts; edges = record { readings = readings; coming = L.coming link.new; sent = L.sent link.new; taken = O.taken out.new }; faults = record { sink = O.faults out.new; disk = D.faults x.shell.disk; link = L.faults link.new } })) }
    ensures halted { IfErr result (λ x. (readings : Option (List ℕ)) → Halts (λ s. run.receiving cluster.now.places.now s.packets s) cluster.now.shape.now cluster.now.me
        (record { core = serving.shell.core; counts = serving.counts; edges = record { readings = readings; coming = L.coming link.old; sent = L.sent link.old; taken = O.taken out.old }; faults = record { sink = O.faults out.old; disk = D.faults serving.shell.disk; link = L.faults link.old } })
        (record { readings = readings; coming = L.coming link.new; sent = L.sent link.new; taken = O.taken out.new })
        (record { sink = O.faults out.new; disk = D.faults x.1; link = L.faults link.new })
        (CanLeave (D.tells_crash x.1) (D.seen x.1) (D.may_leave x.1)) x.0) }
    ensures told { IfOk result (λ x. TellsSame D.seen D.tells_crash D.tells_past D.history serving.shell.disk x.shell.disk) }
    ensures told_err { IfErr result (λ x. TellsSame D.seen D.tells_crash D.tells_past D.history serving.shell.disk x.1) }
{
    match link.next(buf) {
        Ok(Came::Packet { from, len }) => take(cluster, serving, from, &buf[..len], link, out),
        Ok(Came::Quiet) => Ok(serving),
        Err(Failed) => Err((ServeEnd::LinkFault, serving.shell.give_back())),
    }
}

/// Takes a packet from that place.
fn take<D: Disk, L: Link, O: Sink>(
    cluster: &Cluster<'_>,
    serving: Serving<D>,
    place: u64,
    bytes: &[u8],
    link: &mut L,
    out: &mut O,
) -> Result<Serving<D>, (ServeEnd, D)>
    requires member { IsOf cluster.now.shape.now cluster.now.me serving.shell.core }
    requires room { serving.counts.events + 1 < 2 ^ 64 }
    ensures made { IfOk result (λ x. (readings : Option (List ℕ)) → Makes (run.taking cluster.now.places.now (run.event_of_packet cluster.now.shape.now cluster.now.me (record { place = place; bytes = bytes.now }))) cluster.now.shape.now cluster.now.me 1
        (record { core = serving.shell.core; counts = serving.counts; edges = record { readings = readings; coming = L.coming link.old; sent = L.sent link.old; taken = O.taken out.old }; faults = record { sink = O.faults out.old; disk = D.faults serving.shell.disk; link = L.faults link.old } })
        (record { core = x.shell.core; counts = x.counts; edges = record { readings = readings; coming = L.coming link.new; sent = L.sent link.new; taken = O.taken out.new }; faults = record { sink = O.faults out.new; disk = D.faults x.shell.disk; link = L.faults link.new } })) }
    ensures halted { IfErr result (λ x. (readings : Option (List ℕ)) → Halts (run.taking cluster.now.places.now (run.event_of_packet cluster.now.shape.now cluster.now.me (record { place = place; bytes = bytes.now }))) cluster.now.shape.now cluster.now.me
        (record { core = serving.shell.core; counts = serving.counts; edges = record { readings = readings; coming = L.coming link.old; sent = L.sent link.old; taken = O.taken out.old }; faults = record { sink = O.faults out.old; disk = D.faults serving.shell.disk; link = L.faults link.old } })
        (record { readings = readings; coming = L.coming link.new; sent = L.sent link.new; taken = O.taken out.new })
        (record { sink = O.faults out.new; disk = D.faults x.1; link = L.faults link.new })
        (CanLeave (D.tells_crash x.1) (D.seen x.1) (D.may_leave x.1)) x.0) }
    ensures told { IfOk result (λ x. TellsSame D.seen D.tells_crash D.tells_past D.history serving.shell.disk x.shell.disk) }
    ensures told_err { IfErr result (λ x. TellsSame D.seen D.tells_crash D.tells_past D.history serving.shell.disk x.1) }
{
    let Ok(heard) = heard_in(cluster.alloc, cluster.shape, cluster.me, bytes) else {
        return Err((ServeEnd::NoMemory, serving.shell.give_back()));
    };
    match heard {
        Heard::Peer(view) => serving.step(cluster, &Event::Frame(view), link, out),
        Heard::Asked(request) => {
            let event = Event::Call {
                place,
                request: &request,
            };
            serving.step(cluster, &event, link, out)
        }
        Heard::Nothing => serving.drop_packet(cluster, out),
    }
}
