//! The replay of a schedule: a line is read, its event is carried out, and its text is written, one after the other.
ghost use Rattle.std.specs.Prelude.{◌≡◌, ◌<◌, ◌≤◌, ◌+◌, ◌++◌, ◌∷◌, ◌⊎◌, [], List, Some, length, is_some, IfOk, IfErr, OnOk};
ghost use Rattle.std.specs.Io.KnownBytes.{Appends, Keeps};
ghost use Rattle.craft_base.specs.Shape.{Shape};
ghost use Rattle.craft_edge.specs.Bytes.{AppendsPrefix};
ghost use Rattle.craft_edge.specs.Causes.{Rose};
ghost use Rattle.line_input.specs.Lines.{TakesUnfinished};
ghost use Rattle.world_model.specs.Lines.{event_text};
ghost use Rattle.world_model.specs.Schedule.{most_lines};
ghost use Rattle.world_model.specs.Spelling.{IsLineOf};
ghost use Rattle.world_model.specs.World as model;
ghost use Rattle.world_model.specs.declared.line.Line.{Line};
ghost use Rattle.schedule_replay.specs.Replaying.{Ends, EndsEarly, HandsBack, ReadsNone, ReadsNext, end_or_bad};
ghost use Rattle.schedule_replay.specs.Worlds.{StandsFor};
ghost use Rattle.schedule_replay.specs.declared.replay_end.ReplayEnd.TheVariants.{SourceFault, SinkFault, NoMemory};

use crate::replay_end::ReplayEnd;
use crate::world::World;
use craft_base::Shape;
use craft_edge::{Sink, Source, write_all};
use line_input::{LineEnd, read_line};
use schedule_text::{Line, LineFault};
use std::alloc::Global;
use world_model::MOST_LINES;

/// Runs the schedule of a source in a cluster that has never run before, and writes the text of each event as it is
/// carried out. After `End` and `Bad` it hands back the world, which stands for the events that were read.
pub fn replay<S: Source, O: Sink>(
    alloc: Global,
    shape: &Shape,
    src: &mut S,
    out: &mut O,
) -> (ReplayEnd, Option<World>)
    ensures ends { Ends shape.now (record { left = S.left src.old; taken = O.taken out.old; source_faults = S.faults src.old; sink_faults = O.faults out.old })
        (record { left = S.left src.new; taken = O.taken out.new; source_faults = S.faults src.new; sink_faults = O.faults out.new }) result.0 }
    ensures world { HandsBack shape.now (S.left src.old) result.0 result.1 }
{
    match run(alloc, shape, src, out) {
        Ok((end, world)) => (end, Some(world)),
        Err(end) => (end, None),
    }
}

/// The same, with what ends it early as an error.
fn run<S: Source, O: Sink>(
    alloc: Global,
    shape: &Shape,
    src: &mut S,
    out: &mut O,
) -> Result<(ReplayEnd, World), ReplayEnd>
    ensures done { IfOk result (λ x. Ends shape.now (record { left = S.left src.old; taken = O.taken out.old; source_faults = S.faults src.old; sink_faults = O.faults out.old })
        (record { left = S.left src.new; taken = O.taken out.new; source_faults = S.faults src.new; sink_faults = O.faults out.new }) x.0) }
    ensures world { IfOk result (λ x. HandsBack shape.now (S.left src.old) x.0 (Some x.1)) }
    ensures early { IfErr result (EndsEarly shape.now (record { left = S.left src.old; taken = O.taken out.old; source_faults = S.faults src.old; sink_faults = O.faults out.old })
        (record { left = S.left src.new; taken = O.taken out.new; source_faults = S.faults src.new; sink_faults = O.faults out.new })) }
{
    let mut world = World::new(alloc, shape)?;
    let mut line = Vec::new(alloc);
    for number in 1..MOST_LINES + 1 {
        match next_line(alloc, shape, number, src, &mut line)? {
            Next::End => return Ok((ReplayEnd::End, world)),
            Next::Bad => return Ok((ReplayEnd::Bad { line: number }, world)),
            Next::Asked(asked) => world = print_event(&asked, world, out)?,
        }
    }
    let ended = has_ended(src, &mut line)?;
    if ended {
        return Ok((ReplayEnd::End, world));
    }
    let late = ReplayEnd::Bad {
        line: MOST_LINES + 1,
    };
    Ok((late, world))
}

/// What comes next of a schedule.
#[derive(Debug, Drop)]
pub enum Next {
    Asked(Line),
    /// The line is bad.
    Bad,
    /// There is no line any more.
    End,
}

/// Reads the next line, which has that number.
fn next_line<S: Source>(
    alloc: Global,
    shape: &Shape,
    number: u64,
    src: &mut S,
    line: &mut Vec<u8>,
) -> Result<Next, ReplayEnd>
    requires { number ≤ most_lines }
    ensures read { IfOk result (ReadsNext shape.now number (S.left src.old) (S.left src.new)) }
    ensures failed { IfErr result (ReadsNone (S.faults src.old) (S.faults src.new)) }
    ensures unfinished { IfErr result (λ e. e ≡ SourceFault → TakesUnfinished (S.left src.old) (S.left src.new)) }
    ensures told { is_some (S.left src.new) ≡ is_some (S.left src.old) }
    ensures later { S.faults src.old ≤ S.faults src.new }
{
    match read_line(src, line)? {
        LineEnd::End => Ok(Next::End),
        LineEnd::Broken => Ok(Next::Bad),
        LineEnd::LineFeed => match schedule_text::read_line(alloc, shape, line) {
            Ok(asked) => Ok(Next::Asked(asked)),
            Err(LineFault::Bad) => Ok(Next::Bad),
            Err(LineFault::OutOfMemory) => Err(ReplayEnd::NoMemory),
        },
    }
}

/// Whether the input has ended behind the last line that a schedule may have. Any other line is bad.
fn has_ended<S: Source>(src: &mut S, line: &mut Vec<u8>) -> Result<bool, ReplayEnd>
    ensures read { IfOk result (λ ended. (shape : Shape) → ReadsNext shape (most_lines + 1) (S.left src.old) (S.left src.new) (end_or_bad ended)) }
    ensures failed { IfErr result (ReadsNone (S.faults src.old) (S.faults src.new)) }
    ensures unfinished { IfErr result (λ e. e ≡ SourceFault → TakesUnfinished (S.left src.old) (S.left src.new)) }
    ensures told { is_some (S.left src.new) ≡ is_some (S.left src.old) }
    ensures later { S.faults src.old ≤ S.faults src.new }
{
    match read_line(src, line)? {
        LineEnd::End => Ok(true),
        LineEnd::Broken | LineEnd::LineFeed => Ok(false),
    }
}

/// Carries an event out, and writes its text.
fn print_event<O: Sink>(asked: &Line, world: World, out: &mut O) -> Result<World, ReplayEnd>
    requires line { IsLineOf world.shape asked.now }
    requires few { world.tally.events < most_lines }
    ensures shape { IfOk result (λ next. next.shape ≡ world.shape) }
    ensures world { IfOk result (λ next. (events : List Line) → StandsFor world events → StandsFor next (events ++ asked.now ∷ [])) }
    ensures text { OnOk result ((events : List Line) → StandsFor world events → Appends (O.taken out.old) (O.taken out.new)
        (event_text (length events + 1) (model.run world.shape events) (model.step (model.run world.shape events) asked.now))) }
    ensures failed { IfErr result (λ e. (e ≡ NoMemory) ⊎ ((e ≡ SinkFault) × Rose (O.faults out.old) (O.faults out.new))) }
    ensures kept { IfErr result (λ e. e ≡ NoMemory → Keeps (O.taken out.old) (O.taken out.new)) }
    ensures part { IfErr result (λ e. e ≡ SinkFault → (events : List Line) → StandsFor world events → AppendsPrefix (O.taken out.old) (O.taken out.new)
        (event_text (length events + 1) (model.run world.shape events) (model.step (model.run world.shape events) asked.now))) }
    ensures told { is_some (O.taken out.new) ≡ is_some (O.taken out.old) }
    ensures later { O.faults out.old ≤ O.faults out.new }
{
    let (world, text) = world.step(asked)?;
    match write_all(out, text.as_bytes()) {
        Ok(()) => Ok(world),
        Err(_) => Err(ReplayEnd::SinkFault),
    }
}
