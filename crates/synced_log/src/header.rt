//! The header of a file.
ghost use Rattle.std.specs.Prelude.{◌≡◌, ◌≤◌, ◌<◌, ◌++◌, ◌∷◌, [], length, MatchOption};
ghost use Rattle.std.specs.Bool.{Decides};
ghost use Rattle.craft_base.specs.Shape.{members_of};
ghost use Rattle.synced_log.specs.Journal.{IsOwner, header, shape_of, owned, HasHeader, NoHeader};

use crate::owner::Owner;
use craft_base::{MemberId, Shape};

/// The length of a header.
pub const HEADER: usize = 32;

/// The owner that a member of a cluster is.
pub fn owner_of(shape: &Shape, me: MemberId) -> Owner
    requires { me < members_of shape.now }
    ensures value { result ≡ owned shape.now me }
    ensures shape { shape_of result ≡ shape.now }
    ensures owner { IsOwner result }
{
    Owner {
        f: shape.faults(),
        k: shape.need(),
        me: me.number(),
    }
}

/// Whether it is a member of a cluster.
fn is_owner(owner: Owner) -> bool
    ensures { Decides result (IsOwner owner) }
{
    1 <= owner.f
        && owner.f <= 7
        && 1 <= owner.k
        && owner.k <= owner.f + 1
        && owner.me < 2 * owner.f + 1
}

/// The file of an owner's journal without groups: the header, and a closed gate.
pub fn born_file(owner: Owner) -> [u8; 33]
    ensures { result ≡ header owner ++ 0 ∷ [] }
{
    let Owner { f, k, me } = owner;
    [
        67, 82, 65, 70, 84, 76, 79, 71, 1, f, k, me, 0, 0, 0, 0, 0, 0, 0, 0, 0, 0, 0, 0, 0, 0, 0,
        0, 0, 0, 0, 0, 0,
    ]
}

/// The owner whose header a file begins with; `None` exactly where it begins with nobody's.
pub fn owner_in(file: &[u8]) -> Option<Owner>
    requires { 32 ≤ length file.now }
    ensures { MatchOption result (NoHeader file.now) (HasHeader file.now) }
{
    let owner = Owner {
        f: file[9],
        k: file[10],
        me: file[11],
    };
    if is_owner(owner) && file.starts_with(&born_file(owner)[..HEADER]) {
        Some(owner)
    } else {
        None
    }
}
