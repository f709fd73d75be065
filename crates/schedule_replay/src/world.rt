//! A whole cluster and its network, each member of which runs over a journal on a disk in memory.
ghost use Rattle.std.specs.Prelude.{◌≡◌, ◌<◌, ◌≤◌, ◌+◌, ◌++◌, ◌∷◌, [], List, length, IfOk, OnOk, map};
ghost use Rattle.craft_base.specs.Shape.{IsShape, members_of};
ghost use Rattle.world_model.specs.Lines.{event_text};
ghost use Rattle.world_model.specs.Schedule.{most_lines};
ghost use Rattle.world_model.specs.Spelling.{IsLineOf};
ghost use Rattle.world_model.specs.Tallies.{tally_of};
ghost use Rattle.world_model.specs.World as model;
ghost use Rattle.world_model.specs.declared.line.Line.{Line};
ghost use Rattle.schedule_replay.specs.Seats.{IsNewborn};
ghost use Rattle.schedule_replay.specs.Worlds.{StandsFor};

use crate::counting::{NOTHING, counted_on, most_committed};
use crate::event_text::event_text;
use crate::lines::happen;
use crate::network::keep_messages;
use crate::seat::{Seat, newborn};
use craft_base::{Blob, MemberId, OutOfMemory, Shape};
use std::alloc::Global;
use std::marker::Model;
use world_model::{Line, Tally};

/// The members of a cluster, each with a disk of its own, and every message that they ever sent, as the bytes of its frame. A frame
/// that is never taken is lost.
#[derive(Drop)]
pub struct World {
    alloc: Global,
    shape: Shape,
    seats: Vec<Seat>,
    sent: Vec<Blob>,
    tally: Tally,
}

impl Model for World {
    ghost use Rattle.std.specs.Prelude.{List};
    ghost use Rattle.world_model.specs.declared.line.Line.{Line};
    ghost use Rattle.schedule_replay.specs.Worlds.{Kept, StandsFor};

    ghost Value = { Kept };

    ghost view = { λ w. record { shape = w.shape; seats = w.seats.items; sent = w.sent.items; tally = w.tally } };

    ghost invariant = { λ w. (events : List Line) × StandsFor (record { shape = w.shape; seats = w.seats.items; sent = w.sent.items; tally = w.tally }) events };
}

impl World {
    /// A cluster of which each member runs, and none has ever run before. The only error is want of memory.
    pub fn new(alloc: Global, shape: &Shape) -> Result<World, OutOfMemory>
        // The numbers of the shape are in range, also where memory is wanting.
        ensures known { IsShape shape.now }
        ensures shape { IfOk result (λ world. world.shape ≡ shape.now) }
        ensures start { IfOk result (λ world. StandsFor world []) }
    {
        let mut seats = Vec::new(alloc);
        for number in 0..shape.members() {
            add_member(alloc, shape, number, &mut seats)?;
        }
        Ok(World {
            alloc,
            shape: *shape,
            seats,
            sent: Vec::new(alloc),
            tally: NOTHING,
        })
    }

    /// Carries out one line, and answers the text of the event. The only error is want of memory, also of a disk; the world is
    /// then gone.
    pub fn step(self, line: &Line) -> Result<(World, Blob), OutOfMemory>
        requires line { IsLineOf self.shape line.now }
        requires few { self.tally.events < most_lines }
        ensures shape { IfOk result (λ x. x.0.shape ≡ self.shape) }

        // Whatever events the world stood for, it stands for those and this one more; and the text is that of the event.
        ensures stands { IfOk result (λ x. (events : List Line) → StandsFor self events → StandsFor x.0 (events ++ line.now ∷ [])) }
        ensures text { IfOk result (λ x. (events : List Line) → StandsFor self events →
            x.1 ≡ event_text (length events + 1) (model.run self.shape events) (model.step (model.run self.shape events) line.now)) }
    {
        let World {
            alloc,
            shape,
            mut seats,
            mut sent,
            tally,
        } = self;
        let frame = sent.len() as u64 + 1;
        let happened = happen(alloc, &shape, &mut seats, &sent, line)?;
        keep_messages(alloc, &shape, &mut sent, &happened.outputs)?;
        let text = event_text(alloc, tally.events + 1, frame, &happened)?;
        let tally = counted_on(
            &tally,
            &happened.outputs,
            sent.len() as u64,
            most_committed(&seats),
        );
        Ok((
            World {
                alloc,
                shape,
                seats,
                sent,
                tally,
            },
            text,
        ))
    }

    /// How many frames were sent so far.
    pub fn sent(&self) -> u64
        ensures { (events : List Line) → StandsFor self.now events → result ≡ length (model.run self.now.shape events).sent }
    {
        self.sent.len() as u64
    }

    /// What happened so far, in numbers.
    pub fn tally(&self) -> Tally
        ensures value { result ≡ self.now.tally }
        ensures events { (events : List Line) → StandsFor self.now events → result ≡ tally_of self.now.shape events }
        // There are events for which the world stands, so that what is said of them isn't empty.
        ensures stands { (events : List Line) × StandsFor self.now events }
    {
        self.tally
    }
}

/// Adds the member of that number, which has never run before.
fn add_member(
    alloc: Global,
    shape: &Shape,
    number: u8,
    seats: &mut Vec<Seat>,
) -> Result<(), OutOfMemory>
    requires { number < members_of shape.now }
    ensures { OnOk result (IsNewborn shape.now number seats.old.items seats.new.items) }
{
    if let Some(me) = MemberId::new(shape, number) {
        seats.push(Seat::Running(newborn(alloc, shape, me)?))?;
    }
    Ok(())
}
