//! A member's place in the cluster: it runs over its journal, or it is down and its disk rests.
ghost use Rattle.std.specs.Prelude.{◌≡◌, ◌≤◌, ◌<◌, ℕ, if◌then◌else◌, IfOk};
ghost use Rattle.craft_base.specs.Shape.{Shape, members_of};
ghost use Rattle.entry_frames.specs.Durable.{Durable, born};
ghost use Rattle.node_core.specs.Turns.{IsFor, event_of};
ghost use Rattle.world_model.specs.Lines.{show_lines};
ghost use Rattle.world_model.specs.Nodes.{Volatile, fresh};
ghost use Rattle.world_model.specs.World.{Member, is_applied};
ghost use Rattle.schedule_replay.specs.Seats.{HasState, IsLeft, Rests, Runs, Sits, turn_of};

use craft_base::{MemberId, OutOfMemory, Shape};
use crash_disk::MemDisk;
use entry_frames::LogView;
use node_core::Event;
use node_shell::{Shell, StepFault};
use peer_frames::Output;
use schedule_text::show_of;
use std::alloc::Global;

/// The disk of a member that is down.
#[derive(Drop)]
pub struct Resting {
    pub disk: MemDisk,
    /// How far the log on it is committed.
    pub commit: u64,
}

/// A member's place.
#[derive(Drop)]
pub enum Seat {
    Running(Shell<MemDisk>),
    Down(Resting),
}

impl Seat {
    /// A place with nobody in it.
    pub fn vacant(alloc: Global) -> Seat {
        Seat::Down(Resting {
            disk: MemDisk::new(Vec::new(alloc)),
            commit: 0,
        })
    }

    /// How far the member's log is committed on its disk.
    pub fn commit(&self) -> u64
        ensures { (shape : Shape) (me : ℕ) (m : Member) → Sits shape me self.now m → result ≡ m.durable.commit }
    {
        match self {
            Seat::Running(shell) => shell.core().store().commit(),
            Seat::Down(resting) => resting.commit,
        }
    }
}

/// A member that starts over what its disk holds. The only error is want of memory, also of the disk.
pub fn start(
    alloc: Global,
    shape: &Shape,
    me: MemberId,
    disk: MemDisk,
) -> Result<Shell<MemDisk>, OutOfMemory>
    requires { me < members_of shape.now }
    ensures { IfOk result (λ shell. (d : Durable) → HasState shape.now me disk d → Runs shape.now me shell d fresh) }
{
    match Shell::open(alloc, shape, me, disk) {
        Ok(shell) => Ok(shell),
        Err(_) => Err(OutOfMemory),
    }
}

/// A member that has never run before.
pub fn newborn(alloc: Global, shape: &Shape, me: MemberId) -> Result<Shell<MemDisk>, OutOfMemory>
    requires { me < members_of shape.now }
    ensures { IfOk result (λ shell. Runs shape.now me shell born fresh) }
{
    shape.law();
    let shell = start(alloc, shape, me, MemDisk::new(Vec::new(alloc)))?;
    Ok(shell)
}

/// One turn of a member, and what it tells. The only error is want of memory, also of the disk.
pub fn turn(
    shell: Shell<MemDisk>,
    event: &Event<'_>,
) -> Result<(Shell<MemDisk>, Vec<Output>), OutOfMemory>
    requires { IsFor shell.core event.now }
    ensures runs { IfOk result (λ x. (shape : Shape) (me : ℕ) (d : Durable) (v : Volatile) → Runs shape me shell d v →
        Runs shape me x.0 (turn_of shape me d v (event_of event.now)).node.durable (turn_of shape me d v (event_of event.now)).node.volatile) }
    ensures told { IfOk result (λ x. (shape : Shape) (me : ℕ) (d : Durable) (v : Volatile) → Runs shape me shell d v →
        x.1.items ≡ (turn_of shape me d v (event_of event.now)).outputs) }
{
    match shell.step(event) {
        Ok(stepped) => Ok((stepped.0, stepped.1.list)),
        Err(_) => Err(OutOfMemory),
    }
}

/// A member that goes down between two turns.
pub fn take_down(alloc: Global, shell: Shell<MemDisk>) -> Result<Resting, OutOfMemory>
    ensures { IfOk result (λ resting. (shape : Shape) (me : ℕ) (d : Durable) (v : Volatile) → Runs shape me shell d v → Rests shape me resting d) }
{
    let commit = shell.core().store().commit();
    let disk = shell.give_back().image(alloc)?;
    Ok(Resting { disk, commit })
}

/// A member whose machine stops in a device call of the turn, which may be one that isn't made. What it tells is lost.
pub fn stop(
    alloc: Global,
    shape: &Shape,
    me: MemberId,
    shell: Shell<MemDisk>,
    event: &Event<'_>,
    call: u8,
    keep: bool,
) -> Result<Resting, OutOfMemory>
    requires member { me < members_of shape.now }
    requires event { IsFor shell.core event.now }
    requires some { 1 ≤ call }
    requires few { call ≤ 4 }
    ensures { IfOk result (λ resting. (d : Durable) (v : Volatile) → Runs shape.now me shell d v →
        Rests shape.now me resting (if is_applied call keep then (turn_of shape.now me d v (event_of event.now)).node.durable else d)) }
{
    let disk = stopped_disk(alloc, shell, event, call, keep)?;
    let resting = rest(alloc, shape, me, disk)?;
    Ok(resting)
}

/// What a crash leaves of the disk of a member whose machine stops in a device call of the turn.
fn stopped_disk(
    alloc: Global,
    shell: Shell<MemDisk>,
    event: &Event<'_>,
    call: u8,
    keep: bool,
) -> Result<MemDisk, OutOfMemory>
    requires event { IsFor shell.core event.now }
    requires some { 1 ≤ call }
    requires few { call ≤ 4 }
    ensures { IfOk result (λ disk. (shape : Shape) (me : ℕ) (d : Durable) (v : Volatile) → Runs shape me shell d v →
        HasState shape me disk (if is_applied call keep then (turn_of shape me d v (event_of event.now)).node.durable else d)) }
{
    let disk = step_until_stop(shell, event, call, keep)?;
    if disk.starved() {
        return Err(OutOfMemory);
    }
    let image = disk.image(alloc)?;
    Ok(image)
}

/// Makes the turn of a member whose machine stops in one of its device calls, and answers the disk.
fn step_until_stop(
    shell: Shell<MemDisk>,
    event: &Event<'_>,
    call: u8,
    keep: bool,
) -> Result<MemDisk, OutOfMemory>
    requires event { IsFor shell.core event.now }
    requires some { 1 ≤ call }
    ensures { IfOk result (λ disk. (shape : Shape) (me : ℕ) (d : Durable) (v : Volatile) → Runs shape me shell d v →
        IsLeft shape me d v (event_of event.now) call keep disk) }
{
    let mut shell = shell;
    shell.stop(call, keep);
    match shell.step(event) {
        Ok(stepped) => Ok(stepped.0.give_back()),
        Err(left) => match left.0 {
            StepFault::DiskFault => Ok(left.1),
            StepFault::OutOfMemory => Err(OutOfMemory),
        },
    }
}

/// The disk of a member that is down. It is read, to tell how far the log on it is committed.
fn rest(alloc: Global, shape: &Shape, me: MemberId, disk: MemDisk) -> Result<Resting, OutOfMemory>
    requires { me < members_of shape.now }
    ensures { IfOk result (λ resting. (d : Durable) → HasState shape.now me disk d → Rests shape.now me resting d) }
{
    let shell = start(alloc, shape, me, disk)?;
    let commit = shell.core().store().commit();
    Ok(Resting {
        disk: shell.give_back(),
        commit,
    })
}

/// The lines that show what outlives a crash of a member.
pub fn show(alloc: Global, me: MemberId, shell: &Shell<MemDisk>) -> Result<Vec<u8>, OutOfMemory>
    ensures { IfOk result (λ text. (shape : Shape) (d : Durable) (v : Volatile) → Runs shape me shell.now d v → text.items ≡ show_lines me d) }
{
    let store = shell.core().store();
    let mut text = Vec::new(alloc);
    show_of(alloc, &mut text, me, store.term(), store.vote(), store)?;
    Ok(text)
}
