//! Writing for good: what was written is synced before anything else is done.
ghost use Rattle.std.specs.Prelude.{◌≡◌, ◌≤◌, ◌+◌, [], ◌∷◌, length, option_map, OnOk, OnErr, is_some};
ghost use Rattle.craft_edge.specs.Causes.{Rose};
ghost use Rattle.craft_edge.specs.Disk.{max_len, WhereTold, OnlySeen, written};
ghost use Rattle.craft_edge.specs.DiskCalls.{WriteAt, Sync};
ghost use Rattle.synced_log.specs.Calls.{Makes};
ghost use Rattle.synced_log.specs.Crashes.{LeavesOnly, TornFrom};

use craft_edge::{Disk, Failed};

/// Writes the bytes at the offset and makes them last.
pub fn write_steadily<D: Disk>(disk: &mut D, at: u64, bytes: &[u8]) -> Result<(), Failed>
    ensures seen { OnOk result (D.seen disk.new ≡ option_map (λ file. written file at bytes.now) (D.seen disk.old)) }
    ensures told { is_some (D.seen disk.new) ≡ is_some (D.seen disk.old) }
    ensures durable { OnOk result (WhereTold (D.tells_crash disk.old) (OnlySeen (D.seen disk.new) (D.may_leave disk.new))) }
    ensures limit { OnOk result (at + length bytes.now ≤ max_len) }

    // Until the end a crash leaves what it might have left before, torn in the written range.
    ensures crash { LeavesOnly D.tells_crash D.tells_past D.moment D.may_leave D.left_since disk.old disk.new (TornFrom (D.may_leave disk.old) at bytes.now) }

    ensures history { Makes (D.history disk.old) (D.history disk.new) (WriteAt at bytes.now ∷ Sync ∷ []) result }
    ensures later { D.faults disk.old ≤ D.faults disk.new }
    ensures cause { OnErr result (Rose (D.faults disk.old) (D.faults disk.new)) }
{
    disk.write_at(at, bytes)?;
    disk.sync()
}
