//! The member over its journal.
ghost use Rattle.std.specs.Prelude.{◌≡◌, ◌≢◌, ℕ, ◌<◌, ◌≤◌, List, [], IfOk, IfErr, IfSome};
ghost use Rattle.craft_base.specs.Shape.{members_of};
ghost use Rattle.craft_edge.specs.Causes.{Rose};
ghost use Rattle.craft_edge.specs.Disk.{WhereTold, SameImages, StandsStill};
ghost use Rattle.craft_edge.specs.DiskCalls.{after_stop_of};
ghost use Rattle.entry_frames.specs.Durable.{Durable};
ghost use Rattle.node_core.specs.Stands.{Stands};
ghost use Rattle.node_core.specs.Turns.{IsFor, event_of};
ghost use Rattle.node_shell.specs.Opening.{LeavesFile, MakesUpTo, OpensAsBefore, Replays};
ghost use Rattle.node_shell.specs.Standing.{AllOpenTo, HasNode, IsKept, owner_of};
ghost use Rattle.node_shell.specs.Stepping.{BeforeOrAfter, MakesStep, StepsTo, StopsStep};
ghost use Rattle.synced_log.specs.Calls.{AllMade, IsOpening};
ghost use Rattle.synced_log.specs.Crashes.{BeginsWithSync, LeavesOnly, TellsSame};
ghost use Rattle.synced_log.specs.Journal.{owned};
ghost use Rattle.synced_log.specs.Standing.{FaultsAs};
ghost use Rattle.synced_log.specs.States.{OpensTo};
ghost use Rattle.world_model.specs.Nodes.{Node, started};
ghost use Rattle.world_model.specs.Turn as turns;

use crate::fault::StepFault;
use crate::outputs::Outputs;
use craft_base::{MemberId, OutOfMemory, Shape};
use craft_edge::{Disk, Stopping};
use log_store::LogStore;
use node_core::{Core, Event, Turned};
use std::alloc::Global;
use std::marker::Model;
use synced_log::{Groups, Journal, OpenFault};

/// A member of the cluster over its journal: what it keeps is what the journal's groups leave.
#[derive(Drop)]
pub struct Shell<D: Disk> {
    core: Core,
    journal: Journal<D>,
}

impl<D: Disk> Model for Shell<D> {
    ghost use Rattle.node_shell.specs.Standing.{Standing, IsUpheld};

    ghost Value = { Standing D };

    ghost view = { λ s. record { core = s.core; disk = s.journal.disk; gate = s.journal.gate } };

    ghost invariant = { λ s. IsUpheld (D.tells_crash s.journal.disk) (D.seen s.journal.disk) (D.may_leave s.journal.disk) s.journal.gate s.core };
}

impl<D: Disk> Shell<D> {
    /// Starts a member over the journal on a disk, which is created where the file was never born. The errors are those of
    /// `Journal::open`: a fault of the disk, the file's first fault and want of memory; the disk is then handed back.
    pub fn open(
        alloc: Global,
        shape: &Shape,
        me: MemberId,
        disk: D,
    ) -> Result<Shell<D>, (OpenFault, D)>
        requires { me < members_of shape.now }

        // The member has just started over the state to which the file opened.
        ensures started { IfOk result (λ x. Stands x.core (started shape.now me x.core.durable)) }
        ensures opened { IfOk result (λ x. IfSome (D.seen disk) (λ file. OpensTo file (owned shape.now me) x.core.durable)) }
        ensures only { IfOk result (λ x. IfSome (D.seen disk) (λ file. (d : Durable) → OpensTo file (owned shape.now me) d → d ≡ x.core.durable)) }
        ensures kept { IfOk result (λ x. IsKept (D.seen x.disk) x.gate x.core) }
        ensures fault { IfErr result (λ x. FaultsAs (D.seen disk) (owned shape.now me) x.0) }

        // From then on each crash leaves a file that opens to that state.
        ensures durable { IfOk result (λ x. WhereTold (D.tells_crash x.disk) (AllOpenTo (D.seen x.disk) (D.may_leave x.disk) (owned shape.now me) x.core.durable)) }

        // Once synced, a crash at any moment of the call leaves a file that opens as before.
        ensures any_moment { IfOk result (λ x. BeginsWithSync D.tells_crash D.tells_past D.moment D.may_leave D.left_since D.history disk x.disk
            (OpensAsBefore (owned shape.now me) (D.seen disk))) }
        ensures any_moment_err { IfErr result (λ x. BeginsWithSync D.tells_crash D.tells_past D.moment D.may_leave D.left_since D.history disk x.1
            (OpensAsBefore (owned shape.now me) (D.seen disk))) }

        // The device calls are those of opening a journal, up to and with the first that fails.
        ensures calls { IfOk result (λ x. AllMade (D.history disk) (D.history x.disk) (IsOpening (D.seen disk) (owned shape.now me))) }
        ensures calls_err { IfErr result (λ x. MakesUpTo x.0 (D.seen disk) (owned shape.now me) (D.history disk) (D.history x.1)) }

        // The disk that is handed back tells what it told, and where it didn't fail its file opens as before.
        ensures told { IfOk result (λ x. TellsSame D.seen D.tells_crash D.tells_past D.history disk x.disk) }
        ensures told_err { IfErr result (λ x. TellsSame D.seen D.tells_crash D.tells_past D.history disk x.1) }
        ensures untouched { IfErr result (λ x. LeavesFile x.0 (owned shape.now me) (D.seen disk) (D.seen x.1)) }

        ensures later { IfOk result (λ x. D.faults disk ≤ D.faults x.disk) }
        ensures later_err { IfErr result (λ x. D.faults disk ≤ D.faults x.1) }
        ensures cause { IfErr result (λ x. x.0 ≡ OpenFault.DiskFault → Rose (D.faults disk) (D.faults x.1)) }
    {
        let (journal, groups) = match Journal::open(alloc, disk, shape, me) {
            Err((fault, disk)) => return Err((fault, disk)),
            Ok(opened) => opened,
        };
        match boot(alloc, shape, me, &groups) {
            Err(OutOfMemory) => Err((OpenFault::OutOfMemory, journal.give_back())),
            Ok(core) => Ok(Shell { core, journal }),
        }
    }

    /// Makes the turn that an event calls for, adds its records to the journal, and then answers what is told. A turn without
    /// records makes no call of the disk.
    ///
    /// After an error the member is gone and its disk is handed back. `OutOfMemory` comes before any call of the disk;
    /// `DiskFault` comes only where the disk failed, and then the journal may have the turn's records or not.
    pub fn step(self, event: &Event<'_>) -> Result<(Shell<D>, Outputs), (StepFault, D)>
        requires { IsFor self.core event.now }

        // Whatever node the member stood for, the turn was made; and there is such a node.
        ensures stepped { IfOk result (λ x. (n : Node) → Stands self.core n → StepsTo self.core n (event_of event.now) x.0.core x.1) }
        ensures stands { HasNode self.core }
        ensures same { IfOk result (λ x. (x.0.core.shape ≡ self.core.shape) × (x.0.core.me ≡ self.core.me)) }
        ensures kept { IfOk result (λ x. IsKept (D.seen x.0.disk) x.0.gate x.0.core) }

        // From then on each crash leaves a file that opens to the new state.
        ensures durable { IfOk result (λ x. WhereTold (D.tells_crash x.0.disk) (AllOpenTo (D.seen x.0.disk) (D.may_leave x.0.disk) (owner_of self.core) x.0.core.durable)) }

        // A crash at any moment of the call leaves a file that opens to the state before the turn or to the one after it, and so
        // does one after an error.
        ensures any_moment { IfOk result (λ x. LeavesOnly D.tells_crash D.tells_past D.moment D.may_leave D.left_since self.disk x.0.disk
            (BeforeOrAfter (D.seen self.disk) self.core (event_of event.now))) }
        ensures any_moment_err { IfErr result (λ x. LeavesOnly D.tells_crash D.tells_past D.moment D.may_leave D.left_since self.disk x.1
            (BeforeOrAfter (D.seen self.disk) self.core (event_of event.now))) }
        ensures either { IfErr result (λ x. WhereTold (D.tells_crash x.1) ((image : List ℕ) → D.may_leave x.1 image
            → BeforeOrAfter (D.seen self.disk) self.core (event_of event.now) image)) }

        // The device calls are the four that add the turn's group, up to and with the first that fails, and none where the turn has
        // no records.
        ensures calls { IfOk result (λ x. MakesStep self.core (event_of event.now) self.gate (D.history self.disk) (D.history x.0.disk)) }
        ensures quiet { IfOk result (λ x. (n : Node) → Stands self.core n → (turns.turn (event_of event.now) n).records ≡ [] → (x.0.disk ≡ self.disk) × (x.0.gate ≡ self.gate)) }
        ensures calls_err { IfErr result (λ x. x.0 ≡ StepFault.DiskFault → (n : Node) → Stands self.core n
            → StopsStep D.seen D.tells_crash D.may_leave D.history self.disk x.1 self.gate self.core (event_of event.now) n) }
        ensures untouched { IfErr result (λ x. x.0 ≡ StepFault.OutOfMemory → x.1 ≡ self.disk) }

        // The disk that is handed back tells what it told.
        ensures told { IfOk result (λ x. TellsSame D.seen D.tells_crash D.tells_past D.history self.disk x.0.disk) }
        ensures told_err { IfErr result (λ x. TellsSame D.seen D.tells_crash D.tells_past D.history self.disk x.1) }

        ensures later { IfOk result (λ x. D.faults self.disk ≤ D.faults x.0.disk) }
        ensures later_err { IfErr result (λ x. D.faults self.disk ≤ D.faults x.1) }
        ensures cause { IfErr result (λ x. x.0 ≡ StepFault.DiskFault → Rose (D.faults self.disk) (D.faults x.1)) }
    {
        let Shell { core, journal } = self;
        let (core, turned) = match core.turn(event) {
            Err(OutOfMemory) => return Err((StepFault::OutOfMemory, journal.give_back())),
            Ok(done) => done,
        };
        let Turned { group, outputs } = turned;
        let told = Outputs { list: outputs };
        if group.is_empty() {
            return Ok((Shell { core, journal }, told));
        }
        match journal.append(&group) {
            Err(disk) => Err((StepFault::DiskFault, disk)),
            Ok(journal) => Ok((Shell { core, journal }, told)),
        }
    }

    /// The member as it runs.
    pub fn core(&self) -> &Core
        ensures core { result.now ≡ self.now.core }
        // There is a node for which it stands, and its journal leaves what it keeps.
        ensures stands { HasNode self.now.core }
        ensures kept { IsKept (D.seen self.now.disk) self.now.gate self.now.core }
    {
        &self.core
    }

    /// The disk, as it stands.
    pub fn give_back(self) -> D
        ensures disk { result ≡ self.disk }
        // Its file is the member's journal, and each crash leaves one that opens to what the member kept.
        ensures kept { IsKept (D.seen self.disk) self.gate self.core }
        ensures durable { WhereTold (D.tells_crash self.disk) (AllOpenTo (D.seen self.disk) (D.may_leave self.disk) (owner_of self.core) self.core.durable) }
    {
        let Shell { core: _, journal } = self;
        journal.give_back()
    }
}

impl<D: Stopping> Shell<D> {
    /// Tells the disk to stop at the `call`-th device call from now, and whether a crash then keeps what is pending. The member
    /// stays as it is.
    pub fn stop(&mut self, call: u8, keep: bool)
        requires { call ≢ 0 }
        ensures core { self.new.core ≡ self.old.core }
        ensures gate { self.new.gate ≡ self.old.gate }
        ensures history { D.history self.new.disk ≡ after_stop_of (D.history self.old.disk) call keep }
        ensures seen { D.seen self.new.disk ≡ D.seen self.old.disk }
        ensures crash { WhereTold (D.tells_crash self.old.disk) (SameImages (D.may_leave self.old.disk) (D.may_leave self.new.disk)) }
        ensures tells_crash { D.tells_crash self.new.disk ≡ D.tells_crash self.old.disk }
        ensures time { WhereTold (D.tells_past self.old.disk) (StandsStill (D.moment self.old.disk) (D.moment self.new.disk) (D.left_since self.old.disk) (D.left_since self.new.disk)) }
        ensures tells_past { D.tells_past self.new.disk ≡ D.tells_past self.old.disk }
        ensures faults { D.faults self.new.disk ≡ D.faults self.old.disk }
    {
        self.journal.stop(call, keep);
    }
}

/// The member as it starts over what these groups leave. The only error is want of memory.
fn boot(alloc: Global, shape: &Shape, me: MemberId, groups: &Groups) -> Result<Core, OutOfMemory>
    requires shape { groups.now.shape ≡ shape.now }
    requires member { me < members_of shape.now }
    ensures started { IfOk result (λ core. Stands core (started shape.now me core.durable)) }
    ensures replayed { IfOk result (λ core. Replays groups.now shape.now core.durable) }
{
    let store = LogStore::replay(alloc, shape, groups)?;
    let core = Core::boot(alloc, shape, me, store)?;
    Ok(core)
}
