//! The journal: groups are added one by one, each of them whole or not at all.
ghost use Rattle.std.specs.Prelude.{◌≡◌, ◌≢◌, ◌<◌, ◌≤◌, ◌+◌, [], ◌∷◌, List, ℕ, length, IfOk, IfErr, OnOk, OnErr};
ghost use Rattle.craft_edge.specs.Causes.{Rose};
ghost use Rattle.craft_edge.specs.Disk.{WhereTold, OnlySeen, max_len, SameImages, StandsStill};
ghost use Rattle.craft_edge.specs.DiskCalls.{after_stop_of};
ghost use Rattle.synced_log.specs.Calls.{after_calls, AllMade, IsOpening, IsSyncedReading, MakesUpTo};
ghost use Rattle.synced_log.specs.Crashes.{BeginsWithSync, LeavesOnly, TellsSame};
ghost use Rattle.synced_log.specs.Journal.{owned};
ghost use Rattle.synced_log.specs.Standing.{CanAppendTo, Added, AddedOrNot, append_calls, Opens, Stays, FaultsAs};
ghost use Rattle.synced_log.specs.Stops.{StopsAppend};
ghost use Rattle.craft_base.specs.Shape.{members_of};

use crate::fault::OpenFault;
use crate::groups::Groups;
use crate::open::open_on;
use crate::steady::write_steadily;
use craft_base::{MemberId, Shape};
use craft_edge::{Disk, Failed, Stopping};
use entry_frames::Group;
use std::alloc::Global;
use std::marker::Model;

/// A journal on its disk, open: what a crash leaves of it is what was written.
#[derive(Drop)]
pub struct Journal<D: Disk> {
    disk: D,
    gate: u64,
}

impl<D: Disk> Model for Journal<D> {
    ghost use Rattle.synced_log.specs.Standing.{Standing, IsSettled};

    ghost Value = { Standing D };

    ghost view = { λ j. record { disk = j.disk; gate = j.gate } };

    ghost invariant = { λ j. IsSettled (D.tells_crash j.disk) (D.seen j.disk) (D.may_leave j.disk) j.gate };
}

impl<D: Disk> Journal<D> {
    /// Opens the journal on a disk, or creates one where the file was never born, and answers it with its groups. It begins with
    /// a sync. The only errors are a fault of the disk, the file's first fault and want of memory; the disk is then handed back.
    pub fn open(
        alloc: Global,
        disk: D,
        shape: &Shape,
        me: MemberId,
    ) -> Result<(Journal<D>, Groups), (OpenFault, D)>
        requires { me < members_of shape.now }

        // The file is as it was, unless it was never born, and these are its groups.
        ensures opened { IfOk result (λ x. Opens (D.seen disk) (D.seen x.0.disk) (owned shape.now me) x.0.gate x.1) }
        ensures shape { IfOk result (λ x. x.1.shape ≡ shape.now) }
        ensures fault { IfErr result (λ x. FaultsAs (D.seen disk) (owned shape.now me) x.0) }
        ensures durable { IfOk result (λ x. WhereTold (D.tells_crash disk) (OnlySeen (D.seen x.0.disk) (D.may_leave x.0.disk))) }

        // Once synced, a crash at any moment leaves the file as it was, or where it was never born one that isn't born yet or has
        // no groups.
        ensures any_moment { IfOk result (λ x. BeginsWithSync D.tells_crash D.tells_past D.moment D.may_leave D.left_since D.history disk x.0.disk
            (Stays (owned shape.now me) (D.seen disk))) }
        ensures any_moment_err { IfErr result (λ x. BeginsWithSync D.tells_crash D.tells_past D.moment D.may_leave D.left_since D.history disk x.1
            (Stays (owned shape.now me) (D.seen disk))) }

        // The device calls are a sync, then what reads the file, and where it was never born the steps of its creation, each a
        // write and a sync; up to and with the first that fails.
        ensures calls { IfOk result (λ x. AllMade (D.history disk) (D.history x.0.disk) (IsOpening (D.seen disk) (owned shape.now me))) }
        ensures calls_err { IfErr result (λ x. MakesUpTo x.0 (D.history disk) (D.history x.1) (IsOpening (D.seen disk) (owned shape.now me)) IsSyncedReading) }

        // The disk that is handed back tells what it told, and where it didn't fail a read gives what it gave.
        ensures told { IfOk result (λ x. TellsSame D.seen D.tells_crash D.tells_past D.history disk x.0.disk) }
        ensures told_err { IfErr result (λ x. TellsSame D.seen D.tells_crash D.tells_past D.history disk x.1) }
        ensures untouched { IfErr result (λ x. (x.0 ≡ OpenFault.DiskFault → ⊥) → D.seen x.1 ≡ D.seen disk) }

        ensures later { IfOk result (λ x. D.faults disk ≤ D.faults x.0.disk) }
        ensures later_err { IfErr result (λ x. D.faults disk ≤ D.faults x.1) }
        ensures cause { IfErr result (λ x. x.0 ≡ OpenFault.DiskFault → Rose (D.faults disk) (D.faults x.1)) }
    {
        let mut disk = disk;
        match open_on(alloc, &mut disk, shape, me) {
            Err(fault) => Err((fault, disk)),
            Ok((groups, gate)) => Ok((Journal { disk, gate }, groups)),
        }
    }

    /// Adds a group. It takes no memory, and answers `Err` only where the disk failed; then it hands the disk back, to be
    /// opened again.
    pub fn append(self, group: &Group) -> Result<Journal<D>, D>
        requires some { group.now ≢ [] }
        // Its records can be applied, in order, to the state to which the file opens.
        requires can { CanAppendTo (D.seen self.disk) self.gate group.now }

        ensures added { IfOk result (λ journal. Added (D.seen self.disk) (D.seen journal.disk) self.gate group.now journal.gate) }

        // From then on each crash leaves that file.
        ensures durable { IfOk result (λ journal. WhereTold (D.tells_crash self.disk) (OnlySeen (D.seen journal.disk) (D.may_leave journal.disk))) }

        // A crash at any moment of the call leaves the groups from before it, with the new one or without.
        ensures any_moment { IfOk result (λ journal. LeavesOnly D.tells_crash D.tells_past D.moment D.may_leave D.left_since self.disk journal.disk
            (AddedOrNot (D.seen self.disk) self.gate group.now)) }
        ensures any_moment_err { IfErr result (λ disk. LeavesOnly D.tells_crash D.tells_past D.moment D.may_leave D.left_since self.disk disk
            (AddedOrNot (D.seen self.disk) self.gate group.now)) }

        // Just four device calls are made, up to and with the first that fails.
        ensures calls { IfOk result (λ journal. D.history journal.disk ≡ after_calls (D.history self.disk) (append_calls self.gate group.now)) }

        // Where the first or second failed, each crash from then on leaves the groups from before; where the third or fourth
        // did, it leaves them with the new one exactly where the byte at its gate is 1.
        ensures calls_err { IfErr result (λ disk. StopsAppend D.seen D.tells_crash D.may_leave D.history self.disk disk self.gate group.now) }

        // The disk that is handed back tells what it told.
        ensures told { IfOk result (λ journal. TellsSame D.seen D.tells_crash D.tells_past D.history self.disk journal.disk) }
        ensures told_err { IfErr result (λ disk. TellsSame D.seen D.tells_crash D.tells_past D.history self.disk disk) }

        ensures later { IfOk result (λ journal. D.faults self.disk ≤ D.faults journal.disk) }
        ensures later_err { IfErr result (λ disk. D.faults self.disk ≤ D.faults disk) }
        ensures cause { IfErr result (λ disk. Rose (D.faults self.disk) (D.faults disk)) }
    {
        let Journal { disk, gate } = self;
        let mut disk = disk;
        match add_group(&mut disk, gate, group) {
            Err(Failed) => Err(disk),
            Ok(next) => Ok(Journal { disk, gate: next }),
        }
    }

    /// The disk, as it stands.
    pub fn give_back(self) -> D
        ensures { result ≡ self.disk }
    {
        let Journal { disk, gate: _ } = self;
        disk
    }
}

impl<D: Stopping> Journal<D> {
    /// Tells the disk to stop.
    pub fn stop(&mut self, call: u8, keep: bool)
        requires { call ≢ 0 }
        ensures gate { self.new.gate ≡ self.old.gate }
        ensures history { D.history self.new.disk ≡ after_stop_of (D.history self.old.disk) call keep }
        ensures seen { D.seen self.new.disk ≡ D.seen self.old.disk }
        ensures crash { WhereTold (D.tells_crash self.old.disk) (SameImages (D.may_leave self.old.disk) (D.may_leave self.new.disk)) }
        ensures tells_crash { D.tells_crash self.new.disk ≡ D.tells_crash self.old.disk }
        ensures time { WhereTold (D.tells_past self.old.disk) (StandsStill (D.moment self.old.disk) (D.moment self.new.disk) (D.left_since self.old.disk) (D.left_since self.new.disk)) }
        ensures tells_past { D.tells_past self.new.disk ≡ D.tells_past self.old.disk }
        ensures faults { D.faults self.new.disk ≡ D.faults self.old.disk }
    {
        self.disk.stop(call, keep);
    }
}

/// Writes a group behind the closed gate at that offset, opens the gate, and answers the offset of the next one. The group and
/// the next gate, which is closed, are on the disk before the gate is opened.
fn add_group<D: Disk>(disk: &mut D, gate: u64, group: &Group) -> Result<u64, Failed>
    requires { gate ≤ max_len }
    ensures reach { IfOk result (λ next. next ≤ max_len) }
    ensures added { IfOk result (λ next. Added (D.seen disk.old) (D.seen disk.new) gate group.now next) }
    ensures durable { OnOk result (WhereTold (D.tells_crash disk.old) (OnlySeen (D.seen disk.new) (D.may_leave disk.new))) }
    ensures crash { WhereTold (D.tells_crash disk.old) (OnlySeen (D.seen disk.old) (D.may_leave disk.old))
        → LeavesOnly D.tells_crash D.tells_past D.moment D.may_leave D.left_since disk.old disk.new (AddedOrNot (D.seen disk.old) gate group.now) }
    ensures calls { OnOk result (D.history disk.new ≡ after_calls (D.history disk.old) (append_calls gate group.now)) }
    ensures calls_err { WhereTold (D.tells_crash disk.old) (OnlySeen (D.seen disk.old) (D.may_leave disk.old))
        → OnErr result (StopsAppend D.seen D.tells_crash D.may_leave D.history disk.old disk.new gate group.now) }
    ensures told { WhereTold (D.tells_crash disk.old) (OnlySeen (D.seen disk.old) (D.may_leave disk.old))
        → TellsSame D.seen D.tells_crash D.tells_past D.history disk.old disk.new }
    ensures later { D.faults disk.old ≤ D.faults disk.new }
    ensures cause { OnErr result (Rose (D.faults disk.old) (D.faults disk.new)) }
{
    let bytes = group.as_bytes();
    write_steadily(disk, gate + 1, bytes)?;
    write_steadily(disk, gate, &[1])?;
    Ok(gate + bytes.len() as u64)
}
