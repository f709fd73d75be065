//! The creation of a file that was never born.
ghost use Rattle.std.specs.Prelude.{◌≡◌, ◌≤◌, ◌⊎◌, ◌++◌, ◌∷◌, [], Some, length, is_some, List, ℕ, OnOk, OnErr};
ghost use Rattle.std.specs.Bool.{Decides};
ghost use Rattle.craft_edge.specs.Causes.{Rose};
ghost use Rattle.craft_edge.specs.Disk.{WhereTold, Only, OnlySeen};
ghost use Rattle.synced_log.specs.Calls.{Makes, needs_zero, blank_calls, birth_calls, creation_calls};
ghost use Rattle.synced_log.specs.Crashes.{LeavesOnly};
ghost use Rattle.synced_log.specs.Creation.{CreationLeaves, IsBlank, HasBlank};
ghost use Rattle.synced_log.specs.Journal.{IsOwner, IsUnborn, header};

use crate::header::born_file;
use crate::owner::Owner;
use crate::steady::write_steadily;
use craft_edge::{Disk, Failed};

/// The first byte of a header.
const FIRST: u8 = 67;

/// Whether a file never became a journal.
pub fn is_unborn(file: &[u8]) -> bool
    ensures { Decides result (IsUnborn file.now) }
{
    file.len() < 33 || (file.len() == 33 && file[0] != FIRST)
}

/// Whether the first byte has to be written as zero before anything else.
fn needs_zero(file: &[u8]) -> bool
    ensures { result ≡ needs_zero file.now }
{
    file.is_empty() || (file.len() < 33 && file[0] == FIRST)
}

/// Makes a journal without groups of a file that was never born. The first byte of the header is written last: until then the
/// file is one that was never born.
pub fn create<D: Disk>(disk: &mut D, file: &[u8], owner: Owner) -> Result<(), Failed>
    requires owner { IsOwner owner }
    requires unborn { IsUnborn file.now }
    ensures seen { OnOk result (D.seen disk.old ≡ Some file.now → D.seen disk.new ≡ Some (header owner ++ 0 ∷ [])) }
    ensures durable { OnOk result (WhereTold (D.tells_crash disk.old) (OnlySeen (D.seen disk.new) (D.may_leave disk.new))) }

    // Where the file was all that a crash could leave, a crash leaves a file that isn't born yet or has no groups.
    ensures crash { LeavesOnly D.tells_crash D.tells_past D.moment D.may_leave D.left_since disk.old disk.new
        (CreationLeaves (λ f. f ≡ file.now) (D.seen disk.old) (D.may_leave disk.old) owner) }

    ensures calls { Makes (D.history disk.old) (D.history disk.new) (creation_calls file.now owner) result }
    ensures told { is_some (D.seen disk.new) ≡ is_some (D.seen disk.old) }
    ensures later { D.faults disk.old ≤ D.faults disk.new }
    ensures cause { OnErr result (Rose (D.faults disk.old) (D.faults disk.new)) }
{
    make_blank(disk, file, owner)?;
    write_born(disk, owner)
}

/// Makes sure that the file has a first byte, which isn't a header's. The owner is only whose journal it is to become.
fn make_blank<D: Disk>(disk: &mut D, file: &[u8], owner: Owner) -> Result<(), Failed>
    requires { IsUnborn file.now }
    ensures seen { OnOk result (D.seen disk.old ≡ Some file.now → (f : List ℕ) × (D.seen disk.new ≡ Some f) × IsBlank f) }
    ensures blank { OnOk result (D.seen disk.old ≡ Some file.now → WhereTold (D.tells_crash disk.old) (Only file.now (D.may_leave disk.old))
        → HasBlank (D.tells_crash disk.old) (D.seen disk.new) (D.may_leave disk.new)) }
    ensures crash { LeavesOnly D.tells_crash D.tells_past D.moment D.may_leave D.left_since disk.old disk.new
        (CreationLeaves (λ f. f ≡ file.now) (D.seen disk.old) (D.may_leave disk.old) owner) }
    ensures calls { Makes (D.history disk.old) (D.history disk.new) (blank_calls file.now) result }
    ensures told { is_some (D.seen disk.new) ≡ is_some (D.seen disk.old) }
    ensures later { D.faults disk.old ≤ D.faults disk.new }
    ensures cause { OnErr result (Rose (D.faults disk.old) (D.faults disk.new)) }
{
    let _owner = owner;
    if !needs_zero(file) {
        return Ok(());
    }
    write_steadily(disk, 0, &[0])
}

/// Writes a journal without groups over such a file, its first byte last.
fn write_born<D: Disk>(disk: &mut D, owner: Owner) -> Result<(), Failed>
    requires { IsOwner owner }
    ensures seen { OnOk result ((file : List ℕ) → D.seen disk.old ≡ Some file → IsBlank file → D.seen disk.new ≡ Some (header owner ++ 0 ∷ [])) }
    ensures durable { OnOk result (WhereTold (D.tells_crash disk.old) (OnlySeen (D.seen disk.new) (D.may_leave disk.new))) }
    ensures crash { LeavesOnly D.tells_crash D.tells_past D.moment D.may_leave D.left_since disk.old disk.new
        (CreationLeaves IsBlank (D.seen disk.old) (D.may_leave disk.old) owner) }
    ensures calls { Makes (D.history disk.old) (D.history disk.new) (birth_calls owner) result }
    ensures told { is_some (D.seen disk.new) ≡ is_some (D.seen disk.old) }
    ensures later { D.faults disk.old ≤ D.faults disk.new }
    ensures cause { OnErr result (Rose (D.faults disk.old) (D.faults disk.new)) }
{
    let born = born_file(owner);
    write_steadily(disk, 1, &born[1..])?;
    write_steadily(disk, 0, &born[..1])
}
