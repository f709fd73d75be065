//! What a line of a schedule makes of the members.
ghost use Rattle.std.specs.Prelude.{◌≡◌, ◌≤◌, ◌<◌, ◌∷◌, Some, List, IfOk, OnOk, slice_get};
ghost use Rattle.craft_base.specs.Shape.{members_of};
ghost use Rattle.entry_frames.specs.Durable.{Durable};
ghost use Rattle.node_core.specs.Turns.{event_of};
ghost use Rattle.world_model.specs.Nodes.{Volatile};
ghost use Rattle.world_model.specs.Spelling.{IsInnerOf, IsLineOf};
ghost use Rattle.world_model.specs.World as model;
ghost use Rattle.schedule_replay.specs.Actions.{CanAct, CanEnd, IsDone, IsToldTo, act_of, ending_of, turn_done};
ghost use Rattle.schedule_replay.specs.Seats.{AreSeats, Runs, Rests, Sits, running_with, turn_of};
ghost use Rattle.schedule_replay.specs.Told.{TellsOf};
ghost use Rattle.schedule_replay.specs.Worlds.{PartsStand};

use crate::happened::Happened;
use crate::network::frame_in;
use crate::seat::{Resting, Seat, show, start, stop, take_down, turn};
use craft_base::{Blob, MemberId, OutOfMemory, Shape};
use crash_disk::MemDisk;
use node_core::Event;
use node_shell::Shell;
use std::alloc::Global;
use std::mem;
use world_model::{Inner, Line, Verdict};

/// How a turn ends.
#[derive(Clone, Copy, Debug)]
pub enum Ending {
    Done,
    /// The machine stops in that device call of the turn.
    Stop { call: u8, keep: bool },
}

/// What is asked of a member.
#[derive(Drop)]
pub enum Action<'a> {
    Turn { event: Event<'a>, ending: Ending },
    Down,
    Up,
    Show,
}

/// Carries out what a line asks for. The only error is want of memory; the members are then of no more use.
pub fn happen(
    alloc: Global,
    shape: &Shape,
    seats: &mut Vec<Seat>,
    sent: &[Blob],
    line: &Line,
) -> Result<Happened, OutOfMemory>
    requires stands { (w : model.World) × PartsStand shape.now seats.old.items sent.now w }
    requires line { IsLineOf shape.now line.now }
    ensures seats { OnOk result ((w : model.World) → PartsStand shape.now seats.old.items sent.now w →
        AreSeats shape.now seats.new.items (model.step w line.now).world.members) }
    ensures told { IfOk result (λ happened. (w : model.World) → PartsStand shape.now seats.old.items sent.now w →
        TellsOf happened (model.step w line.now)) }
{
    match line {
        Line::Do(inner) => happen_as(alloc, shape, seats, sent, inner, Ending::Done),
        Line::Stop { call, keep, event } => {
            let ending = Ending::Stop {
                call: *call,
                keep: *keep,
            };
            happen_as(alloc, shape, seats, sent, event, ending)
        }
        Line::Down(member) => act_at(alloc, shape, seats, *member, &Action::Down),
        Line::Up(member) => act_at(alloc, shape, seats, *member, &Action::Up),
        Line::Show(member) => act_at(alloc, shape, seats, *member, &Action::Show),
    }
}

/// Lets something happen to a member, whose turn ends in that way.
fn happen_as(
    alloc: Global,
    shape: &Shape,
    seats: &mut Vec<Seat>,
    sent: &[Blob],
    inner: &Inner,
    ending: Ending,
) -> Result<Happened, OutOfMemory>
    requires stands { (w : model.World) × PartsStand shape.now seats.old.items sent.now w }
    requires inner { IsInnerOf shape.now inner.now }
    requires ending { CanEnd ending }
    ensures seats { OnOk result ((w : model.World) → PartsStand shape.now seats.old.items sent.now w →
        AreSeats shape.now seats.new.items (model.turn_at (ending_of ending) w (model.aim_of w inner.now)).world.members) }
    ensures told { IfOk result (λ happened. (w : model.World) → PartsStand shape.now seats.old.items sent.now w →
        TellsOf happened (model.turn_at (ending_of ending) w (model.aim_of w inner.now))) }
{
    match inner {
        Inner::Tick { member, word } => {
            let event = Event::Tick { word: *word };
            turn_at(alloc, shape, seats, *member, event, ending)
        }
        Inner::Take { frame } => match frame_in(shape, sent, *frame) {
            None => Ok(Happened::nothing(alloc, Verdict::NoFrame)),
            Some(view) => turn_at(alloc, shape, seats, view.to(), Event::Frame(view), ending),
        },
        Inner::Call { member, request } => {
            let place = request.client;
            let event = Event::Call { place, request };
            turn_at(alloc, shape, seats, *member, event, ending)
        }
    }
}

/// Lets a member make the turn that an event calls for.
fn turn_at(
    alloc: Global,
    shape: &Shape,
    seats: &mut Vec<Seat>,
    member: MemberId,
    event: Event<'_>,
    ending: Ending,
) -> Result<Happened, OutOfMemory>
    requires seats { (members : List model.Member) × AreSeats shape.now seats.old.items members }
    requires event { IsToldTo shape.now member event }
    requires ending { CanEnd ending }
    ensures seats { OnOk result ((w : model.World) → w.shape ≡ shape.now → AreSeats shape.now seats.old.items w.members →
        AreSeats shape.now seats.new.items (turn_done event.entry ending w member).world.members) }
    ensures told { IfOk result (λ happened. (w : model.World) → w.shape ≡ shape.now → AreSeats shape.now seats.old.items w.members →
        TellsOf happened (turn_done event.entry ending w member)) }
{
    act_at(alloc, shape, seats, member, &Action::Turn { event, ending })
}

/// Does what is asked of a member, in its place.
fn act_at(
    alloc: Global,
    shape: &Shape,
    seats: &mut Vec<Seat>,
    member: MemberId,
    action: &Action<'_>,
) -> Result<Happened, OutOfMemory>
    requires seats { (members : List model.Member) × AreSeats shape.now seats.old.items members }
    requires action { CanAct shape.now member action.now }
    ensures seats { OnOk result ((w : model.World) → w.shape ≡ shape.now → AreSeats shape.now seats.old.items w.members →
        AreSeats shape.now seats.new.items (act_of action.now w member (slice_get w.members member)).world.members) }
    ensures told { IfOk result (λ happened. (w : model.World) → w.shape ≡ shape.now → AreSeats shape.now seats.old.items w.members →
        TellsOf happened (act_of action.now w member (slice_get w.members member))) }
{
    let position = usize::from(member.number());
    if position >= seats.len() {
        return Ok(Happened::nothing(alloc, Verdict::Skip));
    }
    let seat = mem::replace(&mut seats[position], Seat::vacant(alloc));
    let (seat, happened) = act(alloc, shape, member, seat, action)?;
    seats[position] = seat;
    Ok(happened)
}

/// Does what is asked of the member in a place.
fn act(
    alloc: Global,
    shape: &Shape,
    me: MemberId,
    seat: Seat,
    action: &Action<'_>,
) -> Result<(Seat, Happened), OutOfMemory>
    requires member { me < members_of shape.now }
    requires sits { (m : model.Member) × Sits shape.now me seat m }
    requires action { CanAct shape.now me action.now }
    ensures { IfOk result (λ x. (w : model.World) (m : model.Member) → w.shape ≡ shape.now → slice_get w.members me ≡ Some m → Sits shape.now me seat m →
        IsDone shape.now me x.0 x.1 w (act_of action.now w me (Some m))) }
{
    match seat {
        Seat::Running(shell) => act_running(alloc, shape, me, shell, action),
        Seat::Down(resting) => act_down(alloc, shape, me, resting, action),
    }
}

/// Does what is asked of a member that runs.
fn act_running(
    alloc: Global,
    shape: &Shape,
    me: MemberId,
    shell: Shell<MemDisk>,
    action: &Action<'_>,
) -> Result<(Seat, Happened), OutOfMemory>
    requires member { me < members_of shape.now }
    requires runs { (d : Durable) × (v : Volatile) × Runs shape.now me shell d v }
    requires action { CanAct shape.now me action.now }
    ensures { IfOk result (λ x. (w : model.World) (d : Durable) (v : Volatile) → w.shape ≡ shape.now → slice_get w.members me ≡ Some (running_with d v) →
        Runs shape.now me shell d v → IsDone shape.now me x.0 x.1 w (act_of action.now w me (Some (running_with d v)))) }
{
    match action {
        Action::Turn { event, ending } => end_turn(alloc, shape, me, shell, event, *ending),
        Action::Down => {
            let resting = take_down(alloc, shell)?;
            Ok((Seat::Down(resting), Happened::at(alloc, me, Verdict::Done)))
        }
        Action::Up => Ok((
            Seat::Running(shell),
            Happened::nothing(alloc, Verdict::Skip),
        )),
        Action::Show => {
            let mut happened = Happened::at(alloc, me, Verdict::Done);
            happened.shown = show(alloc, me, &shell)?;
            Ok((Seat::Running(shell), happened))
        }
    }
}

/// Makes the turn of a member that runs.
fn end_turn(
    alloc: Global,
    shape: &Shape,
    me: MemberId,
    shell: Shell<MemDisk>,
    event: &Event<'_>,
    ending: Ending,
) -> Result<(Seat, Happened), OutOfMemory>
    requires member { me < members_of shape.now }
    requires runs { (d : Durable) × (v : Volatile) × Runs shape.now me shell d v }
    requires event { IsToldTo shape.now me event.now }
    requires ending { CanEnd ending }
    ensures { IfOk result (λ x. (w : model.World) (d : Durable) (v : Volatile) → w.shape ≡ shape.now → slice_get w.members me ≡ Some (running_with d v) →
        Runs shape.now me shell d v → IsDone shape.now me x.0 x.1 w (ending_of ending w me d (turn_of shape.now me d v (event_of event.now)))) }
{
    match ending {
        Ending::Done => {
            let (shell, outputs) = turn(shell, event)?;
            let mut happened = Happened::at(alloc, me, Verdict::Done);
            happened.outputs = outputs;
            Ok((Seat::Running(shell), happened))
        }
        Ending::Stop { call, keep } => {
            let resting = stop(alloc, shape, me, shell, event, call, keep)?;
            Ok((Seat::Down(resting), Happened::at(alloc, me, Verdict::Stop)))
        }
    }
}

/// Does what is asked of a member that is down.
fn act_down(
    alloc: Global,
    shape: &Shape,
    me: MemberId,
    resting: Resting,
    action: &Action<'_>,
) -> Result<(Seat, Happened), OutOfMemory>
    requires member { me < members_of shape.now }
    ensures { IfOk result (λ x. (w : model.World) (d : Durable) → w.shape ≡ shape.now → slice_get w.members me ≡ Some (model.down_with d) →
        Rests shape.now me resting d → IsDone shape.now me x.0 x.1 w (act_of action.now w me (Some (model.down_with d)))) }
{
    match action {
        Action::Up => {
            let shell = start(alloc, shape, me, resting.disk)?;
            Ok((Seat::Running(shell), Happened::at(alloc, me, Verdict::Done)))
        }
        _ => Ok((Seat::Down(resting), Happened::nothing(alloc, Verdict::Skip))),
    }
}
