//! Reading a whole disk.
ghost use Rattle.std.specs.Prelude.{◌≡◌, ◌≤◌, length, is_err, IfOk, IfSome, OnOk, OnErr};
ghost use Rattle.craft_edge.specs.Causes.{Rose};
ghost use Rattle.craft_edge.specs.Disk.{max_len, WhereTold, OnlySeen};
ghost use Rattle.craft_edge.specs.DiskCalls.{Sync, after_call_of};
ghost use Rattle.synced_log.specs.Calls.{AreReadings, MakesOf, MakesOrFaults};
ghost use Rattle.synced_log.specs.Crashes.{LeavesOnly};
ghost use Rattle.synced_log.specs.Reading.{IsReadFault};

use crate::fault::OpenFault;
use craft_edge::{Disk, Failed};
use std::alloc::Global;

/// Reads the front of a disk into the buffer, up to its end or that of the buffer, and answers how many bytes there were.
fn fill<D: Disk>(disk: &mut D, buf: &mut [u8]) -> Result<usize, Failed>
    ensures within { IfOk result (λ n. n ≤ length buf.new) }
    ensures bytes { IfOk result (λ n. IfSome (D.seen disk.old) (λ file. length buf.old ≡ length file → (n ≡ length file) × (buf.new ≡ file))) }
    ensures seen { D.seen disk.new ≡ D.seen disk.old }
    ensures crash { LeavesOnly D.tells_crash D.tells_past D.moment D.may_leave D.left_since disk.old disk.new (D.may_leave disk.old) }
    ensures made { MakesOf (D.history disk.old) (D.history disk.new) AreReadings result }
    ensures later { D.faults disk.old ≤ D.faults disk.new }
    ensures cause { OnErr result (Rose (D.faults disk.old) (D.faults disk.new)) }
{
    let mut at = 0;
    while at < buf.len() {
        let count = disk.read_at(at as u64, &mut buf[at..])?;
        if count == 0 {
            return Ok(at);
        }
        at += count;
    }
    Ok(at)
}

/// All bytes of a disk.
pub fn read_all<D: Disk>(alloc: Global, disk: &mut D) -> Result<Vec<u8>, OpenFault>
    ensures bytes { IfOk result (λ bytes. IfSome (D.seen disk.old) (λ file. bytes.items ≡ file)) }
    ensures bound { IfOk result (λ bytes. length bytes.items ≤ max_len) }
    ensures seen { D.seen disk.new ≡ D.seen disk.old }
    ensures crash { LeavesOnly D.tells_crash D.tells_past D.moment D.may_leave D.left_since disk.old disk.new (D.may_leave disk.old) }
    ensures made { MakesOrFaults (D.history disk.old) (D.history disk.new) AreReadings AreReadings result }
    ensures later { D.faults disk.old ≤ D.faults disk.new }
    ensures cause { IsReadFault (Rose (D.faults disk.old) (D.faults disk.new)) result }
{
    let len = disk.len()?;
    let mut bytes = vec![in alloc; 0u8; len as usize]?;
    let count = fill(disk, &mut bytes)?;
    bytes.truncate(count);
    Ok(bytes)
}

/// Makes all of a disk last.
pub fn sync<D: Disk>(disk: &mut D) -> Result<(), Failed>
    ensures history { D.history disk.new ≡ after_call_of (D.history disk.old) Sync (is_err result) }
    ensures seen { D.seen disk.new ≡ D.seen disk.old }
    ensures durable { OnOk result (WhereTold (D.tells_crash disk.old) (OnlySeen (D.seen disk.old) (D.may_leave disk.new))) }
    ensures crash { LeavesOnly D.tells_crash D.tells_past D.moment D.may_leave D.left_since disk.old disk.new (D.may_leave disk.old) }
    ensures later { D.faults disk.old ≤ D.faults disk.new }
    ensures cause { OnErr result (Rose (D.faults disk.old) (D.faults disk.new)) }
{
    disk.sync()
}
