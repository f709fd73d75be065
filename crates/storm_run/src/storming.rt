//! The lines of a storm are made and carried out, one after the other, and then its tally is written.
ghost use Rattle.std.specs.Prelude.{◌≡◌, ◌≤◌, IfOk, OnOk};
ghost use Rattle.storm_gen.specs.declared.storm.TheConstants.{MOST_EVENTS};
ghost use Rattle.storm_run.specs.Storms.{StormEnds, storm_lines};
ghost use Rattle.world_model.specs.Safety.{IsSafe};
ghost use Rattle.world_model.specs.Tallies.{tally_of};

use crate::storm_end::StormEnd;
use crate::text::tally_text;
use craft_base::{OutOfMemory, Shape};
use craft_edge::{Sink, write_all};
use schedule_replay::{Tally, World};
use std::alloc::Global;
use storm_gen::Storm;

/// Runs the storm of that seed, of `count` lines, at most 100,000, in a cluster that has never run before, and writes its tally: the
/// events run, the peer frames sent, the replies, how often a member told that it leads, the greatest commit index on any disk, and
/// how often one told of a cut.
pub fn storm<O: Sink>(alloc: Global, shape: &Shape, seed: u64, count: u64, out: &mut O) -> StormEnd
    requires { count ≤ MOST_EVENTS }
    ensures { StormEnds shape.now seed count (O.taken out.old) (O.taken out.new) (O.faults out.old) (O.faults out.new) result }
{
    let Ok(tally) = tally_after(alloc, shape, seed, count) else {
        return StormEnd::NoMemory;
    };
    let Ok(text) = tally_text(alloc, &tally) else {
        return StormEnd::NoMemory;
    };
    match write_all(out, &text) {
        Ok(()) => StormEnd::End,
        Err(_) => StormEnd::SinkFault,
    }
}

/// What the lines of a storm came to. The only error is want of memory.
fn tally_after(alloc: Global, shape: &Shape, seed: u64, count: u64) -> Result<Tally, OutOfMemory>
    requires { count ≤ MOST_EVENTS }
    ensures tally { IfOk result (λ tally. tally ≡ tally_of shape.now (storm_lines shape.now seed count)) }
    ensures safe { OnOk result (IsSafe shape.now (storm_lines shape.now seed count)) }
{
    let mut world = World::new(alloc, shape)?;
    let mut storm = Storm::new(shape, seed);
    for n in 1..count + 1 {
        let line = storm.next(alloc, n, world.sent())?;
        let (next, _) = world.step(&line)?;
        world = next;
    }
    Ok(world.tally())
}
