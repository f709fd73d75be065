//! Opening a journal.
ghost use Rattle.std.specs.Prelude.{◌≡◌, ◌<◌, ◌≤◌, ◌⊎◌, List, ℕ, length, is_some, IfOk, IfErr, IfSome, OnOk};
ghost use Rattle.craft_base.specs.Shape.{members_of};
ghost use Rattle.craft_edge.specs.Causes.{Rose};
ghost use Rattle.craft_edge.specs.Disk.{WhereTold, OnlySeen, max_len};
ghost use Rattle.synced_log.specs.Calls.{AreReadings, IsOpening, IsSyncedReading, ReadsAndCreates, MakesOrFaults};
ghost use Rattle.synced_log.specs.Crashes.{LeavesOnly, BeginsWithSync, TellsSame};
ghost use Rattle.synced_log.specs.Journal.{IsOwner, IsBorn, IsFaultOf, shape_of, owned, Reads};
ghost use Rattle.synced_log.specs.Standing.{Opens, Stays, FaultsAs};

use crate::create::{create, is_unborn};
use crate::fault::OpenFault;
use crate::groups::Groups;
use crate::header::{HEADER, owner_in, owner_of};
use crate::owner::Owner;
use crate::reading::{read_all, sync};
use crate::walk::{Ended, walk};
use craft_base::{MemberId, Shape};
use craft_edge::Disk;
use std::alloc::Global;

/// Reads a file that was born, and answers its groups and the offset of the closed gate, or its first fault.
fn read_file(
    alloc: Global,
    shape: &Shape,
    owner: Owner,
    file: Vec<u8>,
) -> Result<(Groups, u64), OpenFault>
    requires owner { IsOwner owner }
    requires shape { shape_of owner ≡ shape.now }
    requires born { IsBorn file.items }
    ensures groups { IfOk result (λ x. Reads file.items owner x.1 x.0) }
    ensures shape { IfOk result (λ x. x.0.shape ≡ shape.now) }
    ensures within { IfOk result (λ x. x.1 ≤ length file.items) }
    ensures fault { IfErr result (λ fault. (fault ≡ OpenFault.DiskFault → ⊥) × IsFaultOf file.items owner fault) }
{
    match owner_in(&file) {
        None => return Err(OpenFault::BadJournal(0)),
        Some(found) => {
            if found != owner {
                return Err(OpenFault::WrongOwner {
                    found,
                    wanted: owner,
                });
            }
        }
    }
    let (spans, ended) = walk(alloc, shape, &file)?;
    match ended {
        Ended::Closed(gate) => Ok((Groups::of(shape, file, spans), gate)),
        Ended::Faulty(gate) => Err(OpenFault::BadJournal(gate)),
    }
}

/// Opens the journal on a disk, or creates it where the file was never born. It begins with a sync.
pub fn open_on<D: Disk>(
    alloc: Global,
    disk: &mut D,
    shape: &Shape,
    me: MemberId,
) -> Result<(Groups, u64), OpenFault>
    requires { me < members_of shape.now }
    ensures opened { IfOk result (λ x. Opens (D.seen disk.old) (D.seen disk.new) (owned shape.now me) x.1 x.0) }
    ensures shape { IfOk result (λ x. x.0.shape ≡ shape.now) }
    ensures reach { IfOk result (λ x. x.1 ≤ max_len) }
    ensures durable { OnOk result (WhereTold (D.tells_crash disk.old) (OnlySeen (D.seen disk.new) (D.may_leave disk.new))) }
    ensures fault { IfErr result (λ fault. FaultsAs (D.seen disk.old) (owned shape.now me) fault) }

    // Once synced, a crash leaves the file as it was, or where it was never born one that isn't born yet or has no groups.
    ensures crash { BeginsWithSync D.tells_crash D.tells_past D.moment D.may_leave D.left_since D.history disk.old disk.new
        (Stays (owned shape.now me) (D.seen disk.old)) }

    ensures calls { MakesOrFaults (D.history disk.old) (D.history disk.new) (IsOpening (D.seen disk.old) (owned shape.now me)) IsSyncedReading result }
    ensures untouched { IfErr result (λ fault. (fault ≡ OpenFault.DiskFault → ⊥) → D.seen disk.new ≡ D.seen disk.old) }
    ensures told { TellsSame D.seen D.tells_crash D.tells_past D.history disk.old disk.new }
    ensures later { D.faults disk.old ≤ D.faults disk.new }
    ensures cause { IfErr result (λ fault. fault ≡ OpenFault.DiskFault → Rose (D.faults disk.old) (D.faults disk.new)) }
{
    sync(disk)?;
    open_synced(alloc, disk, shape, me)
}

/// The same of a disk that was synced.
fn open_synced<D: Disk>(
    alloc: Global,
    disk: &mut D,
    shape: &Shape,
    me: MemberId,
) -> Result<(Groups, u64), OpenFault>
    requires { me < members_of shape.now }
    ensures opened { IfOk result (λ x. Opens (D.seen disk.old) (D.seen disk.new) (owned shape.now me) x.1 x.0) }
    ensures shape { IfOk result (λ x. x.0.shape ≡ shape.now) }
    ensures reach { IfOk result (λ x. x.1 ≤ max_len) }
    ensures durable { WhereTold (D.tells_crash disk.old) (OnlySeen (D.seen disk.old) (D.may_leave disk.old))
        → OnOk result (WhereTold (D.tells_crash disk.old) (OnlySeen (D.seen disk.new) (D.may_leave disk.new))) }
    ensures fault { IfErr result (λ fault. FaultsAs (D.seen disk.old) (owned shape.now me) fault) }
    ensures crash { WhereTold (D.tells_crash disk.old) (OnlySeen (D.seen disk.old) (D.may_leave disk.old))
        → LeavesOnly D.tells_crash D.tells_past D.moment D.may_leave D.left_since disk.old disk.new (Stays (owned shape.now me) (D.seen disk.old)) }
    ensures calls { MakesOrFaults (D.history disk.old) (D.history disk.new) (ReadsAndCreates (D.seen disk.old) (owned shape.now me)) AreReadings result }
    ensures untouched { IfErr result (λ fault. (fault ≡ OpenFault.DiskFault → ⊥) → D.seen disk.new ≡ D.seen disk.old) }
    ensures told { is_some (D.seen disk.new) ≡ is_some (D.seen disk.old) }
    ensures later { D.faults disk.old ≤ D.faults disk.new }
    ensures cause { IfErr result (λ fault. fault ≡ OpenFault.DiskFault → Rose (D.faults disk.old) (D.faults disk.new)) }
{
    let file = read_all(alloc, disk)?;
    let owner = owner_of(shape, me);
    if is_unborn(&file) {
        create(disk, &file, owner)?;
        return Ok((Groups::of(shape, file, Vec::new(alloc)), HEADER as u64));
    }
    read_file(alloc, shape, owner, file)
}
