//! A node as it serves, event by event.
ghost use Rattle.std.specs.Prelude.{◌≡◌, ◌⊎◌, ℕ, List, Option, ◌≤◌, ◌<◌, ◌+◌, ◌^◌, ◌++◌, All, IfErr, IfOk, OnErr, OnOk, codes, is_some};
ghost use Rattle.std.specs.Io.KnownBytes.{Appends};
ghost use Rattle.craft_edge.specs.Bytes.{AppendsPrefix};
ghost use Rattle.node_core.specs.Turns.{IsFor, event_of};
ghost use Rattle.craft_edge.specs.Packets.{Packet};
ghost use Rattle.synced_log.specs.Crashes.{TellsSame};
ghost use Rattle.net_node.specs.Ends.{EndsEarly};
ghost use Rattle.net_node.specs.NodeRun as run;
ghost use Rattle.net_node.specs.Sending.{CanBeSent, Sends, SendsFront};
ghost use Rattle.net_node.specs.Serving.{CanLeave, Halts, IsOf, Makes};

use crate::cluster::Cluster;
use crate::event_text::{event_text, verdict_line};
use crate::sending::send_all;
use crate::serve_end::ServeEnd;
use craft_edge::{Disk, Link, Sink, write_all};
use node_core::{Event, Output};
use node_shell::{Shell, StepFault};
use rand_xoshiro::SplitMix64;

/// Where a run stands, beside its member.
#[derive(Drop)]
pub struct Counts {
    /// What gives a word for each tick.
    pub words: SplitMix64,
    /// The clock's last reading.
    pub shown: u64,
    /// How many events there were.
    pub events: u64,
    /// The number of the next frame that is sent.
    pub frame: u64,
}

/// A node as it serves.
#[derive(Drop)]
pub struct Serving<D: Disk> {
    pub shell: Shell<D>,
    pub counts: Counts,
}

impl<D: Disk> Serving<D> {
    /// An event: the member takes it, what it tells is written, and only then its packets are sent. The first fault ends the run,
    /// and the disk is handed back.
    pub fn step<L: Link, O: Sink>(
        self,
        cluster: &Cluster<'_>,
        event: &Event<'_>,
        link: &mut L,
        out: &mut O,
    ) -> Result<Serving<D>, (ServeEnd, D)>
        requires member { IsOf cluster.now.shape.now cluster.now.me self.shell.core }
        requires event { IsFor self.shell.core event.now }
        requires room { self.counts.events + 1 < 2 ^ 64 }
        // whatever readings are to come
        ensures made { IfOk result (λ x. (readings : Option (List ℕ)) → Makes (run.serving cluster.now.places.now (event_of event.now)) cluster.now.shape.now cluster.now.me 1
            (record { core = self.shell.core; counts = self.counts; edges = record { readings = readings; coming = L.coming link.old; sent = L.sent link.old; taken = O.taken out.old }; faults = record { sink = O.faults out.old; disk = D.faults self.shell.disk; link = L.faults link.old } })
            (record { core = x.shell.core; counts = x.counts; edges = record { readings = readings; coming = L.coming link.new; sent = L.sent link.new; taken = O.taken out.new }; faults = record { sink = O.faults out.new; disk = D.faults x.shell.disk; link = L.faults link.new } })) }
        ensures halted { IfErr result (λ x. (readings : Option (List ℕ)) → Halts (run.serving cluster.now.places.now (event_of event.now)) cluster.now.shape.now cluster.now.me
            (record { core = self.shell.core; counts = self.counts; edges = record { readings = readings; coming = L.coming link.old; sent = L.sent link.old; taken = O.taken out.old }; faults = record { sink = O.faults out.old; disk = D.faults self.shell.disk; link = L.faults link.old } })
            (record { readings = readings; coming = L.coming link.new; sent = L.sent link.new; taken = O.taken out.new })
            (record { sink = O.faults out.new; disk = D.faults x.1; link = L.faults link.new })
            (CanLeave (D.tells_crash x.1) (D.seen x.1) (D.may_leave x.1)) x.0) }
        ensures told { IfOk result (λ x. TellsSame D.seen D.tells_crash D.tells_past D.history self.shell.disk x.shell.disk) }
        ensures told_err { IfErr result (λ x. TellsSame D.seen D.tells_crash D.tells_past D.history self.shell.disk x.1) }
    {
        let Serving { shell, counts } = self;
        let number = counts.events + 1;
        let (shell, told) = match shell.step(event) {
            Ok(stepped) => stepped,
            Err((StepFault::DiskFault, disk)) => return Err((ServeEnd::DiskFault, disk)),
            Err((StepFault::OutOfMemory, disk)) => return Err((ServeEnd::NoMemory, disk)),
        };
        match tell(cluster, number, counts.frame, told.list, link, out) {
            Ok(frame) => Ok(Serving {
                shell,
                counts: Counts {
                    events: number,
                    frame,
                    ..counts
                },
            }),
            Err(end) => Err((end, shell.give_back())),
        }
    }

    /// A packet that isn't for this node: an event that changes nothing.
    pub fn drop_packet<O: Sink>(
        self,
        cluster: &Cluster<'_>,
        out: &mut O,
    ) -> Result<Serving<D>, (ServeEnd, D)>
        requires member { IsOf cluster.now.shape.now cluster.now.me self.shell.core }
        requires room { self.counts.events + 1 < 2 ^ 64 }
        // Its member and its disk stay as they are.
        ensures same { IfOk result (λ x. x.shell ≡ self.shell) }
        ensures same_err { IfErr result (λ x. x.1 ≡ self.shell.disk) }
        // whatever clock and link it has
        ensures made { IfOk result (λ x. (readings : Option (List ℕ)) (coming sent : Option (List Packet)) (link : ℕ) → Makes run.dropping cluster.now.shape.now cluster.now.me 1
            (record { core = self.shell.core; counts = self.counts; edges = record { readings = readings; coming = coming; sent = sent; taken = O.taken out.old }; faults = record { sink = O.faults out.old; disk = D.faults self.shell.disk; link = link } })
            (record { core = x.shell.core; counts = x.counts; edges = record { readings = readings; coming = coming; sent = sent; taken = O.taken out.new }; faults = record { sink = O.faults out.new; disk = D.faults x.shell.disk; link = link } })) }
        ensures halted { IfErr result (λ x. (readings : Option (List ℕ)) (coming sent : Option (List Packet)) (link : ℕ) → Halts run.dropping cluster.now.shape.now cluster.now.me
            (record { core = self.shell.core; counts = self.counts; edges = record { readings = readings; coming = coming; sent = sent; taken = O.taken out.old }; faults = record { sink = O.faults out.old; disk = D.faults self.shell.disk; link = link } })
            (record { readings = readings; coming = coming; sent = sent; taken = O.taken out.new })
            (record { sink = O.faults out.new; disk = D.faults x.1; link = link })
            (CanLeave (D.tells_crash x.1) (D.seen x.1) (D.may_leave x.1)) x.0) }
        ensures told { IfOk result (λ x. TellsSame D.seen D.tells_crash D.tells_past D.history self.shell.disk x.shell.disk) }
        ensures told_err { IfErr result (λ x. TellsSame D.seen D.tells_crash D.tells_past D.history self.shell.disk x.1) }
    {
        let Serving { shell, counts } = self;
        let number = counts.events + 1;
        match tell_drop(cluster, number, out) {
            Ok(()) => Ok(Serving {
                shell,
                counts: Counts {
                    events: number,
                    ..counts
                },
            }),
            Err(end) => Err((end, shell.give_back())),
        }
    }
}

/// Writes the lines of an event of that number, then sends its packets, and answers the number of the next frame.
fn tell<L: Link, O: Sink>(
    cluster: &Cluster<'_>,
    number: u64,
    frame: u64,
    outputs: Vec<Output>,
    link: &mut L,
    out: &mut O,
) -> Result<u64, ServeEnd>
    requires { All (CanBeSent cluster.now.shape.now cluster.now.me) outputs.items }
    ensures next { IfOk result (λ next. next ≡ run.frames_after frame outputs.items) }
    ensures text { OnOk result (Appends (O.taken out.old) (O.taken out.new) (run.verdict_line number (codes "done") ++ run.told_lines cluster.now.me frame outputs.items)) }
    ensures sent { OnOk result (Sends (L.sent link.old) (L.sent link.new) (run.packets_among cluster.now.shape.now cluster.now.places.now cluster.now.me outputs.items)) }
    ensures part { OnErr result (AppendsPrefix (O.taken out.old) (O.taken out.new) (run.verdict_line number (codes "done") ++ run.told_lines cluster.now.me frame outputs.items)) }
    ensures front { OnErr result (SendsFront (L.sent link.old) (L.sent link.new) (run.packets_among cluster.now.shape.now cluster.now.places.now cluster.now.me outputs.items)) }
    // none is sent before all lines are written
    ensures order { OnErr result ((L.sent link.new ≡ L.sent link.old) ⊎ Appends (O.taken out.old) (O.taken out.new) (run.verdict_line number (codes "done") ++ run.told_lines cluster.now.me frame outputs.items)) }
    ensures coming { L.coming link.new ≡ L.coming link.old }
    ensures taken { is_some (O.taken out.new) ≡ is_some (O.taken out.old) }
    ensures later_link { L.faults link.old ≤ L.faults link.new }
    ensures later_sink { O.faults out.old ≤ O.faults out.new }
    ensures cause { IfErr result (λ e. (disk : ℕ) → EndsEarly (record { sink = O.faults out.old; disk = disk; link = L.faults link.old }) (record { sink = O.faults out.new; disk = disk; link = L.faults link.new }) e) }
{
    let Ok((text, next)) = event_text(cluster.alloc, number, cluster.me, frame, &outputs) else {
        return Err(ServeEnd::NoMemory);
    };
    if write_all(out, &text).is_err() {
        return Err(ServeEnd::SinkFault);
    }
    send_all(cluster, outputs, link)?;
    Ok(next)
}

/// Writes the line of a packet that was dropped.
fn tell_drop<O: Sink>(cluster: &Cluster<'_>, number: u64, out: &mut O) -> Result<(), ServeEnd>
    ensures text { OnOk result (Appends (O.taken out.old) (O.taken out.new) (run.verdict_line number (codes "drop"))) }
    ensures part { OnErr result (AppendsPrefix (O.taken out.old) (O.taken out.new) (run.verdict_line number (codes "drop"))) }
    ensures taken { is_some (O.taken out.new) ≡ is_some (O.taken out.old) }
    ensures later_sink { O.faults out.old ≤ O.faults out.new }
    ensures cause { IfErr result (λ e. (disk link : ℕ) → EndsEarly (record { sink = O.faults out.old; disk = disk; link = link }) (record { sink = O.faults out.new; disk = disk; link = link }) e) }
{
    let Ok(text) = verdict_line(cluster.alloc, number, "drop") else {
        return Err(ServeEnd::NoMemory);
    };
    match write_all(out, &text) {
        Ok(()) => Ok(()),
        Err(_) => Err(ServeEnd::SinkFault),
    }
}
