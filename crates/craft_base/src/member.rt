ghost use Rattle.std.specs.Prelude.{◌≡◌, ◌<◌, Some, None, if◌then◌else◌, nat_lt};
ghost use Rattle.craft_base.specs.Shape.{members_of};

use crate::Shape;
use arrayvec::ArrayVec;
use std::marker::Model;

/// The most members that a cluster can have.
pub const MAX_MEMBERS: usize = 15;

/// A member of a cluster, by its number from 0 on. Its default is member 0.
#[derive(Clone, Copy, Debug, PartialEq, Eq, PartialOrd, Ord, Hash)]
pub struct MemberId {
    number: u8,
}

impl Model for MemberId {
    ghost use Rattle.std.specs.Prelude.{ℕ, ◌<◌};

    ghost Value = { ℕ };

    ghost view = { λ member. member.number };

    ghost invariant = { λ member. member.number < 15 };

    ghost inverse = { λ number. record { number = number } };
}

/// A set of members, in the order in which they were added.
pub type MemberSet = ArrayVec<MemberId, MAX_MEMBERS>;

impl MemberId {
    /// The member of that number; `None` exactly where the cluster has no such member.
    pub fn new(shape: &Shape, number: u8) -> Option<MemberId>
        ensures { result ≡ (if nat_lt number (members_of shape.now) then Some number else None) }
    {
        if number < shape.members() {
            Some(MemberId { number })
        } else {
            None
        }
    }

    /// The member's number: below 15, and below the number of members of its cluster.
    pub fn number(&self) -> u8
        ensures value { result ≡ self.now }
        ensures range { result < 15 }
    {
        self.number
    }
}

impl Default for MemberId {
    ghost is_default = { λ member. member ≡ 0 };

    fn default() -> Self {
        MemberId { number: 0 }
    }
}
