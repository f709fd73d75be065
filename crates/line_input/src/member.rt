//! A member as a word.
ghost use Rattle.std.specs.Prelude.{◌≡◌, Some};
ghost use Rattle.world_model.specs.Schedule as schedule;

use craft_base::{MemberId, Shape};

/// The member of that number, if the cluster has one.
pub fn member_of(shape: &Shape, number: u64) -> Option<MemberId>
    ensures { result ≡ schedule.member_of shape.now (Some number) }
{
    if number >= u64::from(shape.members()) {
        return None;
    }
    MemberId::new(shape, number as u8)
}
