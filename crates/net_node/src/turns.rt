//! The turns of a node: each reads the clock, and where that stands still takes a packet.
ghost use Rattle.std.specs.Prelude.{◌≡◌, ◌≢◌, ℕ, List, Option, ◌≤◌, ◌<◌, ◌+◌, ◌^◌, IfErr, IfOk, length};
ghost use Rattle.craft_base.specs.Shape.{members_of};
ghost use Rattle.node_core.specs.Stands.{Stands};
ghost use Rattle.synced_log.specs.Crashes.{TellsSame};
ghost use Rattle.synced_log.specs.Journal.{owned};
ghost use Rattle.world_model.specs.Nodes.{Node};
ghost use Rattle.net_node.specs.Ends.{HasEnded, NoFewer};
ghost use Rattle.net_node.specs.NodeRun as run;
ghost use Rattle.net_node.specs.Runs.{HaltsAmong, IsLeft, StopsAmong, WhereRun};
ghost use Rattle.net_node.specs.Serving.{CanLeave, Halts, IsOf, Makes, TellsAs};

use crate::cluster::Cluster;
use crate::packets::receive;
use crate::serve_end::ServeEnd;
use crate::serving::{Counts, Serving};
use craft_base::{MemberId, Shape};
use craft_edge::{Clock, Disk, Link, Sink};
use node_core::Event;
use node_shell::Shell;
use rand_xoshiro::SplitMix64;
use rand_xoshiro::rand_core::SeedableRng;
use rand_xoshiro::rand_core::utils::NextWord;
use std::alloc::Global;

/// Room for any packet.
const ROOM: usize = 65_536;

/// Runs a member of a cluster for that many turns, and hands its disk back.
///
/// It reads the clock once before the first turn. A turn reads it again; where the reading rose, the member is told that time
/// passes, with the next word that SplitMix64 makes of the seed. Else it is told what the next packet says, if one comes. Each of
/// these is an event: its lines are written, and then its packets are sent, messages to the `places` of their members and replies
/// to where their clients asked. A packet that isn't for this member is an event that changes nothing. The first
/// fault ends the run.
pub fn serve<D: Disk, L: Link, C: Clock, O: Sink>(
    alloc: Global,
    shape: &Shape,
    me: MemberId,
    seed: u64,
    turns: u64,
    places: &[u64],
    shell: Shell<D>,
    link: &mut L,
    clock: &mut C,
    out: &mut O,
) -> (ServeEnd, D)
    requires places { length places.now ≡ members_of shape.now }
    requires member { IsOf shape.now me shell.core }

    // All turns made: just what the run prints was written and just what it sends was sent, and each image that a crash may leave
    // opens to its state.
    ensures ran { result.0 ≡ ServeEnd.Turns → (n : Node) → Stands shell.core n → WhereRun n seed (record { readings = C.readings clock.old; coming = L.coming link.old; sent = L.sent link.old; taken = O.taken out.old })
        (λ text sent s. IsLeft text sent (record { readings = C.readings clock.new; coming = L.coming link.new; sent = L.sent link.new; taken = O.taken out.new }) (owned shape.now me) (CanLeave (D.tells_crash result.1) (D.seen result.1) (D.may_leave result.1)) (run.node_run places.now turns s)) }

    // At each other end it stopped within a turn: of its event a front of the lines was written, and then a front of the packets was
    // sent; and each image that a crash may leave has the event, or the event wasn't told.
    ensures stopped { result.0 ≢ ServeEnd.Turns → (n : Node) → Stands shell.core n → WhereRun n seed (record { readings = C.readings clock.old; coming = L.coming link.old; sent = L.sent link.old; taken = O.taken out.old })
        (λ text sent s. StopsAmong places.now turns text sent (record { readings = C.readings clock.new; coming = L.coming link.new; sent = L.sent link.new; taken = O.taken out.new }) (owned shape.now me) (CanLeave (D.tells_crash result.1) (D.seen result.1) (D.may_leave result.1)) s) }

    // Each fault has its cause.
    ensures cause { HasEnded (record { sink = O.faults out.old; disk = D.faults shell.disk; link = L.faults link.old }) (record { sink = O.faults out.new; disk = D.faults result.1; link = L.faults link.new }) result.0 }
    ensures later { NoFewer (record { sink = O.faults out.old; disk = D.faults shell.disk; link = L.faults link.old }) (record { sink = O.faults out.new; disk = D.faults result.1; link = L.faults link.new }) }

    // Each device tells what it told.
    ensures told_edges { TellsAs (record { readings = C.readings clock.old; coming = L.coming link.old; sent = L.sent link.old; taken = O.taken out.old }) (record { readings = C.readings clock.new; coming = L.coming link.new; sent = L.sent link.new; taken = O.taken out.new }) }
    ensures told_disk { TellsSame D.seen D.tells_crash D.tells_past D.history shell.disk result.1 }
{
    let shown = clock.now();
    let Ok(mut buf) = vec![in alloc; 0; ROOM] else {
        return (ServeEnd::NoMemory, shell.give_back());
    };
    let cluster = Cluster {
        alloc,
        shape,
        me,
        places,
    };
    let serving = Serving {
        shell,
        counts: Counts {
            words: SplitMix64::seed_from_u64(seed),
            shown,
            events: 0,
            frame: 1,
        },
    };
    match run(&cluster, turns, serving, &mut buf, link, clock, out) {
        Ok(serving) => (ServeEnd::Turns, serving.shell.give_back()),
        Err((end, disk)) => (end, disk),
    }
}

/// Makes so many turns.
fn run<D: Disk, L: Link, C: Clock, O: Sink>(
    cluster: &Cluster<'_>,
    turns: u64,
    serving: Serving<D>,
    buf: &mut [u8],
    link: &mut L,
    clock: &mut C,
    out: &mut O,
) -> Result<Serving<D>, (ServeEnd, D)>
    requires member { IsOf cluster.now.shape.now cluster.now.me serving.shell.core }
    requires room { serving.counts.events + turns < 2 ^ 64 }
    requires buffer { 65536 ≤ length buf.old }
    ensures made { IfOk result (λ x. Makes (run.node_run cluster.now.places.now turns) cluster.now.shape.now cluster.now.me turns
        (record { core = serving.shell.core; counts = serving.counts; edges = record { readings = C.readings clock.old; coming = L.coming link.old; sent = L.sent link.old; taken = O.taken out.old }; faults = record { sink = O.faults out.old; disk = D.faults serving.shell.disk; link = L.faults link.old } })
        (record { core = x.shell.core; counts = x.counts; edges = record { readings = C.readings clock.new; coming = L.coming link.new; sent = L.sent link.new; taken = O.taken out.new }; faults = record { sink = O.faults out.new; disk = D.faults x.shell.disk; link = L.faults link.new } })) }
    ensures halted { IfErr result (λ x. HaltsAmong cluster.now.places.now turns cluster.now.shape.now cluster.now.me
        (record { core = serving.shell.core; counts = serving.counts; edges = record { readings = C.readings clock.old; coming = L.coming link.old; sent = L.sent link.old; taken = O.taken out.old }; faults = record { sink = O.faults out.old; disk = D.faults serving.shell.disk; link = L.faults link.old } })
        (record { readings = C.readings clock.new; coming = L.coming link.new; sent = L.sent link.new; taken = O.taken out.new })
        (record { sink = O.faults out.new; disk = D.faults x.1; link = L.faults link.new })
        (CanLeave (D.tells_crash x.1) (D.seen x.1) (D.may_leave x.1)) x.0) }
    ensures told { IfOk result (λ x. TellsSame D.seen D.tells_crash D.tells_past D.history serving.shell.disk x.shell.disk) }
    ensures told_err { IfErr result (λ x. TellsSame D.seen D.tells_crash D.tells_past D.history serving.shell.disk x.1) }
{
    let mut serving = serving;
    for _ in 0..turns {
        serving = turn(cluster, serving, buf, link, clock, out)?;
    }
    Ok(serving)
}

/// Makes a turn.
fn turn<D: Disk, L: Link, C: Clock, O: Sink>(
    cluster: &Cluster<'_>,
    serving: Serving<D>,
    buf: &mut [u8],
    link: &mut L,
    clock: &mut C,
    out: &mut O,
) -> Result<Serving<D>, (ServeEnd, D)>
    requires member { IsOf cluster.now.shape.now cluster.now.me serving.shell.core }
    requires room { serving.counts.events + 1 < 2 ^ 64 }
    requires buffer { 65536 ≤ length buf.old }
    ensures made { IfOk result (λ x. Makes (run.turn_of_node cluster.now.places.now) cluster.now.shape.now cluster.now.me 1
        (record { core = serving.shell.core; counts = serving.counts; edges = record { readings = C.readings clock.old; coming = L.coming link.old; sent = L.sent link.old; taken = O.taken out.old }; faults = record { sink = O.faults out.old; disk = D.faults serving.shell.disk; link = L.faults link.old } })
        (record { core = x.shell.core; counts = x.counts; edges = record { readings = C.readings clock.new; coming = L.coming link.new; sent = L.sent link.new; taken = O.taken out.new }; faults = record { sink = O.faults out.new; disk = D.faults x.shell.disk; link = L.faults link.new } })) }
    ensures halted { IfErr result (λ x. Halts (run.turn_of_node cluster.now.places.now) cluster.now.shape.now cluster.now.me
        (record { core = serving.shell.core; counts = serving.counts; edges = record { readings = C.readings clock.old; coming = L.coming link.old; sent = L.sent link.old; taken = O.taken out.old }; faults = record { sink = O.faults out.old; disk = D.faults serving.shell.disk; link = L.faults link.old } })
        (record { readings = C.readings clock.new; coming = L.coming link.new; sent = L.sent link.new; taken = O.taken out.new })
        (record { sink = O.faults out.new; disk = D.faults x.1; link = L.faults link.new })
        (CanLeave (D.tells_crash x.1) (D.seen x.1) (D.may_leave x.1)) x.0) }
    ensures told { IfOk result (λ x. TellsSame D.seen D.tells_crash D.tells_past D.history serving.shell.disk x.shell.disk) }
    ensures told_err { IfErr result (λ x. TellsSame D.seen D.tells_crash D.tells_past D.history serving.shell.disk x.1) }
{
    let reading = clock.now();
    let Serving { shell, counts } = serving;
    let rose = counts.shown < reading;
    let counts = Counts {
        shown: reading,
        ..counts
    };
    let serving = Serving { shell, counts };
    if rose {
        tick(cluster, serving, link, out)
    } else {
        receive(cluster, serving, buf, link, out)
    }
}

/// Time passes.
fn tick<D: Disk, L: Link, O: Sink>(
    cluster: &Cluster<'_>,
    serving: Serving<D>,
    link: &mut L,
    out: &mut O,
) -> Result<Serving<D>, (ServeEnd, D)>
    requires member { IsOf cluster.now.shape.now cluster.now.me serving.shell.core }
    requires room { serving.counts.events + 1 < 2 ^ 64 }
    ensures made { IfOk result (λ x. (readings : Option (List ℕ)) → Makes (run.ticking cluster.now.places.now) cluster.now.shape.now cluster.now.me 1
        (record { core = serving.shell.core; counts = serving.counts; edges = record { readings = readings; coming = L.coming link.old; sent = L.sent link.old; taken = O.taken out.old }; faults = record { sink = O.faults out.old; disk = D.faults serving.shell.disk; link = L.faults link.old } })
        (record { core = x.shell.core; counts = x.counts; edges = record { readings = readings; coming = L.coming link.new; sent = L.sent link.new; taken = O.taken out.new }; faults = record { sink = O.faults out.new; disk = D.faults x.shell.disk; link = L.faults link.new } })) }
    ensures halted { IfErr result (λ x. (readings : Option (List ℕ)) → Halts (run.ticking cluster.now.places.now) cluster.now.shape.now cluster.now.me
        (record { core = serving.shell.core; counts = serving.counts; edges = record { readings = readings; coming = L.coming link.old; sent = L.sent link.old; taken = O.taken out.old }; faults = record { sink = O.faults out.old; disk = D.faults serving.shell.disk; link = L.faults link.old } })
        (record { readings = readings; coming = L.coming link.new; sent = L.sent link.new; taken = O.taken out.new })
        (record { sink = O.faults out.new; disk = D.faults x.1; link = L.faults link.new })
        (CanLeave (D.tells_crash x.1) (D.seen x.1) (D.may_leave x.1)) x.0) }
    ensures told { IfOk result (λ x. TellsSame D.seen D.tells_crash D.tells_past D.history serving.shell.disk x.shell.disk) }
    ensures told_err { IfErr result (λ x. TellsSame D.seen D.tells_crash D.tells_past D.history serving.shell.disk x.1) }
{
    let mut serving = serving;
    let word = serving.counts.words.next_word();
    serving.step(cluster, &Event::Tick { word }, link, out)
}
