//! What a call was told: to fail, or to be the one at which the disk stops.
ghost use Rattle.std.specs.Prelude.{◌≡◌, ◌≤◌, ◌||◌, IsTrue};
ghost use Rattle.craft_edge.specs.Calls.{after_call, next_fails};
ghost use Rattle.craft_edge.specs.Causes.{Rose};
ghost use Rattle.crash_disk.specs.Kept.{is_over, is_last, one_less};

use craft_edge::Calls;

/// What one call was told.
#[derive(Clone, Copy)]
pub(crate) struct Order {
    /// It fails.
    pub(crate) fails: bool,
    /// The disk stops at it, so that a write is torn.
    pub(crate) tears: bool,
}

/// Counts one call more, and says what it was told: it fails where it is listed, or where at most one call
/// is left until the disk stops.
pub(crate) fn next_order(calls: &mut Calls, left: &mut Option<u8>) -> Order
    ensures fails { result.fails ≡ (next_fails calls.old || is_over left.old) }
    ensures tears { result.tears ≡ is_last left.old }
    ensures calls { calls.new ≡ after_call calls.old (next_fails calls.old || is_over left.old) }
    ensures left { left.new ≡ one_less left.old }
    ensures later { calls.old.faults ≤ calls.new.faults }
    ensures rose { IsTrue result.fails → Rose calls.old.faults calls.new.faults }
{
    let listed = calls.next_fails();
    let (stopped, tears) = match *left {
        Some(calls_left) => (calls_left <= 1, calls_left == 1),
        None => (false, false),
    };
    if stopped && !listed {
        calls.count_fault();
    }
    *left = left.map(|calls_left| calls_left.saturating_sub(1));
    Order {
        fails: listed || stopped,
        tears,
    }
}
