//! Which mode a leader takes.
ghost use Rattle.std.specs.Prelude.{◌≡◌};
ghost use Rattle.coded_append.specs.Modes.{mode_of};

use crate::modes::Mode;
use craft_base::Shape;

/// The mode of a leader that takes `fresh` other members for healthy: coded exactly where they and itself are at least F+k, as
/// many as have to hold a coded entry before it is committed. It takes no memory.
pub fn mode(fresh: u8, shape: &Shape) -> Mode
    ensures { result ≡ mode_of shape.now fresh }
{
    if u16::from(fresh) + 1 >= u16::from(shape.coded_quorum()) {
        Mode::Coded
    } else {
        Mode::Complete
    }
}
