//! All that the program does, over whatever it is given to do it with.
ghost use Rattle.std.specs.Prelude.{◌≡◌, ◌⊎◌, ℕ, List, ◌∷◌, [], false, length, map, None, Some, string_bytes, vec_len};
ghost use Rattle.command_words.specs.Spelling.{IsCommand};
ghost use Rattle.command_words.specs.Words as commands;
ghost use Rattle.command_words.specs.declared.command.Command.{Command as AnyCommand};
ghost use Rattle.command_words.specs.declared.command.Command.TheVariants.{Node};
ghost use Rattle.command_words.specs.declared.command.NodeCommand as nodes;
ghost use Rattle.net_node.specs.Serving.{CanLeave};
ghost use Rattle.synced_log.specs.Crashes.{TellsSame};
ghost use Rattle.craft.specs.Program.{Answers, NeverBegins, is_node, paths};
ghost use Rattle.craft.specs.Serves.{Serves};

use crate::ask::run_ask;
use crate::node::run_node;
use crate::status::Status;
use command_words::{Command, NodeCommand, plan};
use craft_base::OutOfMemory;
use craft_edge::{Clock, Disk, Link, Sink, Source};
use fragment_text::{join, split};
use schedule_replay::replay;
use std::alloc::Global;
use storm_run::storm;

/// Does what the words ask for, and hands the disks back. Each command is for a cluster that survives F failures and needs k
/// fragments of a value. `replay F k` runs the schedule that the source gives, and writes the text of the run to the sink.
/// `node F k me seed turns path place0 ..` is a member of a cluster: it opens the journal on its disk and serves, by the link and
/// the clock. `ask F k client seq op key value place0 ..` asks a cluster by the link, and writes the line of the reply. `split F k`
/// writes a value's fragments as text. `join F k` reads such a text and writes the value. `storm F k seed count` runs the schedule that
/// a number makes, and writes what it came to in numbers.
pub fn craft<S: Source, O: Sink, D: Disk, L: Link, C: Clock>(
    alloc: Global,
    words: &[String],
    src: &mut S,
    out: &mut O,
    disks: Vec<D>,
    link: &mut L,
    clock: &mut C,
) -> (Status, Vec<D>)
    requires { vec_len disks ≡ length (paths (map string_bytes words.now)) }

    // What each status means, by the command: over devices that tell what they hold, what was read and written, taken and sent.
    ensures answers { (command : AnyCommand) → commands.plan (map string_bytes words.now) ≡ Some command → Answers command
        (record { streams = record { left = S.left src.old; taken = O.taken out.old; source_faults = S.faults src.old; sink_faults = O.faults out.old }; link = record { coming = L.coming link.old; sent = L.sent link.old; faults = L.faults link.old }; readings = C.readings clock.old })
        (record { streams = record { left = S.left src.new; taken = O.taken out.new; source_faults = S.faults src.new; sink_faults = O.faults out.new }; link = record { coming = L.coming link.new; sent = L.sent link.new; faults = L.faults link.new }; readings = C.readings clock.new }) result.0
        ⊎ NeverBegins
        (record { streams = record { left = S.left src.old; taken = O.taken out.old; source_faults = S.faults src.old; sink_faults = O.faults out.old }; link = record { coming = L.coming link.old; sent = L.sent link.old; faults = L.faults link.old }; readings = C.readings clock.old })
        (record { streams = record { left = S.left src.new; taken = O.taken out.new; source_faults = S.faults src.new; sink_faults = O.faults out.new }; link = record { coming = L.coming link.new; sent = L.sent link.new; faults = L.faults link.new }; readings = C.readings clock.new }) result.0 }

    // And of `node`, over its disk, which tells what it told; also where memory was wanting to read the words.
    ensures serves { (node : nodes.NodeCommand) (disk : D) → commands.plan (map string_bytes words.now) ≡ Some (Node node) → disks.items ≡ disk ∷ [] →
        (left : D) × (result.1.items ≡ left ∷ []) × TellsSame D.seen D.tells_crash D.tells_past D.history disk left × Serves node
        (record { before = D.seen disk; after = D.seen left; might_leave = CanLeave (D.tells_crash disk) (D.seen disk) (D.may_leave disk); leaves = CanLeave (D.tells_crash left) (D.seen left) (D.may_leave left) })
        (record { readings = C.readings clock.old; coming = L.coming link.old; sent = L.sent link.old; taken = O.taken out.old })
        (record { readings = C.readings clock.new; coming = L.coming link.new; sent = L.sent link.new; taken = O.taken out.new })
        (record { sink = O.faults out.old; disk = D.faults disk; link = L.faults link.old })
        (record { sink = O.faults out.new; disk = D.faults left; link = L.faults link.new }) result.0 }

    // No other command touches a disk, and `node` reads no input.
    ensures kept { is_node (commands.plan (map string_bytes words.now)) ≡ false → result.1 ≡ disks }
    ensures unread { (node : nodes.NodeCommand) → commands.plan (map string_bytes words.now) ≡ Some (Node node) → src.new ≡ src.old }

    // The words are no command, and nothing was done; or memory was wanting to see it.
    ensures bad_words { result.0 ≡ Status.BadWords → commands.plan (map string_bytes words.now) ≡ None }
    ensures no_command { commands.plan (map string_bytes words.now) ≡ None → ((result.0 ≡ Status.BadWords) ⊎ (result.0 ≡ Status.NoMemory))
        × (src.new ≡ src.old) × (out.new ≡ out.old) × (link.new ≡ link.old) × (clock.new ≡ clock.old) }
{
    match plan(alloc, words) {
        Ok(Some(command)) => run(alloc, &command, src, out, disks, link, clock),
        Ok(None) => (Status::BadWords, disks),
        Err(OutOfMemory) => (Status::NoMemory, disks),
    }
}

/// Carries a command out.
fn run<S: Source, O: Sink, D: Disk, L: Link, C: Clock>(
    alloc: Global,
    command: &Command,
    src: &mut S,
    out: &mut O,
    disks: Vec<D>,
    link: &mut L,
    clock: &mut C,
) -> (Status, Vec<D>)
    requires ranged { IsCommand command.now }
    requires one { (node : nodes.NodeCommand) → command.now ≡ Node node → vec_len disks ≡ 1 }
    ensures answers { Answers command.now
        (record { streams = record { left = S.left src.old; taken = O.taken out.old; source_faults = S.faults src.old; sink_faults = O.faults out.old }; link = record { coming = L.coming link.old; sent = L.sent link.old; faults = L.faults link.old }; readings = C.readings clock.old })
        (record { streams = record { left = S.left src.new; taken = O.taken out.new; source_faults = S.faults src.new; sink_faults = O.faults out.new }; link = record { coming = L.coming link.new; sent = L.sent link.new; faults = L.faults link.new }; readings = C.readings clock.new }) result.0 }
    ensures serves { (node : nodes.NodeCommand) (disk : D) → command.now ≡ Node node → disks.items ≡ disk ∷ [] →
        (left : D) × (result.1.items ≡ left ∷ []) × TellsSame D.seen D.tells_crash D.tells_past D.history disk left × Serves node
        (record { before = D.seen disk; after = D.seen left; might_leave = CanLeave (D.tells_crash disk) (D.seen disk) (D.may_leave disk); leaves = CanLeave (D.tells_crash left) (D.seen left) (D.may_leave left) })
        (record { readings = C.readings clock.old; coming = L.coming link.old; sent = L.sent link.old; taken = O.taken out.old })
        (record { readings = C.readings clock.new; coming = L.coming link.new; sent = L.sent link.new; taken = O.taken out.new })
        (record { sink = O.faults out.old; disk = D.faults disk; link = L.faults link.old })
        (record { sink = O.faults out.new; disk = D.faults left; link = L.faults link.new }) result.0 }
    ensures kept { is_node (Some command.now) ≡ false → result.1 ≡ disks }
    ensures unread { (node : nodes.NodeCommand) → command.now ≡ Node node → src.new ≡ src.old }
    ensures known { result.0 ≡ Status.BadWords → ⊥ }
{
    match command {
        Command::Replay(shape) => (Status::from(replay(alloc, shape, src, out).0), disks),
        Command::Node(node) => run_on_disk(alloc, node, out, disks, link, clock),
        Command::Ask(ask) => (run_ask(alloc, ask, out, link), disks),
        Command::Split(shape) => (Status::from(split(alloc, shape, src, out)), disks),
        Command::Join(shape) => (Status::from(join(alloc, shape, src, out)), disks),
        Command::Storm(made) => {
            let end = storm(alloc, &made.shape, made.seed, made.count, out);
            (Status::from(end), disks)
        }
    }
}

/// Runs a member over the one disk that there is.
fn run_on_disk<O: Sink, D: Disk, L: Link, C: Clock>(
    alloc: Global,
    node: &NodeCommand,
    out: &mut O,
    disks: Vec<D>,
    link: &mut L,
    clock: &mut C,
) -> (Status, Vec<D>)
    requires ranged { IsCommand (Node node.now) }
    requires one { vec_len disks ≡ 1 }
    ensures serves { (disk : D) → disks.items ≡ disk ∷ [] → (left : D) × (result.1.items ≡ left ∷ []) × TellsSame D.seen D.tells_crash D.tells_past D.history disk left × Serves node.now
        (record { before = D.seen disk; after = D.seen left; might_leave = CanLeave (D.tells_crash disk) (D.seen disk) (D.may_leave disk); leaves = CanLeave (D.tells_crash left) (D.seen left) (D.may_leave left) })
        (record { readings = C.readings clock.old; coming = L.coming link.old; sent = L.sent link.old; taken = O.taken out.old })
        (record { readings = C.readings clock.new; coming = L.coming link.new; sent = L.sent link.new; taken = O.taken out.new })
        (record { sink = O.faults out.old; disk = D.faults disk; link = L.faults link.old })
        (record { sink = O.faults out.new; disk = D.faults left; link = L.faults link.new }) result.0 }
    ensures known { result.0 ≡ Status.BadWords → ⊥ }
{
    let mut disks = disks;
    let Some(disk) = disks.pop() else {
        unreachable!();
    };
    let (status, disk) = run_node(alloc, node, out, disk, link, clock);
    disks.push_reserved(disk);
    (status, disks)
}
