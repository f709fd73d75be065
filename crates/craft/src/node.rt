//! The command `node`.
ghost use Rattle.std.specs.Prelude.{◌≡◌};
ghost use Rattle.command_words.specs.Spelling.{IsCommand};
ghost use Rattle.command_words.specs.declared.command.Command.TheVariants.{Node};
ghost use Rattle.net_node.specs.Serving.{CanLeave};
ghost use Rattle.synced_log.specs.Crashes.{TellsSame};
ghost use Rattle.craft.specs.Serves.{Serves};

use crate::status::Status;
use command_words::NodeCommand;
use craft_edge::{Clock, Disk, Link, Sink};
use net_node::serve;
use node_shell::Shell;
use std::alloc::Global;

/// Opens a member's journal and runs it, and hands its disk back.
pub(crate) fn run_node<O: Sink, D: Disk, L: Link, C: Clock>(
    alloc: Global,
    node: &NodeCommand,
    out: &mut O,
    disk: D,
    link: &mut L,
    clock: &mut C,
) -> (Status, D)
    requires { IsCommand (Node node.now) }
    ensures serves { Serves node.now
        (record { before = D.seen disk; after = D.seen result.1; might_leave = CanLeave (D.tells_crash disk) (D.seen disk) (D.may_leave disk); leaves = CanLeave (D.tells_crash result.1) (D.seen result.1) (D.may_leave result.1) })
        (record { readings = C.readings clock.old; coming = L.coming link.old; sent = L.sent link.old; taken = O.taken out.old })
        (record { readings = C.readings clock.new; coming = L.coming link.new; sent = L.sent link.new; taken = O.taken out.new })
        (record { sink = O.faults out.old; disk = D.faults disk; link = L.faults link.old })
        (record { sink = O.faults out.new; disk = D.faults result.1; link = L.faults link.new }) result.0 }
    // The disk tells what it told.
    ensures told { TellsSame D.seen D.tells_crash D.tells_past D.history disk result.1 }
{
    let shell = match Shell::open(alloc, &node.shape, node.me, disk) {
        Ok(shell) => shell,
        Err((fault, disk)) => return (Status::from(fault), disk),
    };
    let places = node.places.as_slice();
    let (end, disk) = serve(
        alloc,
        &node.shape,
        node.me,
        node.seed,
        node.turns,
        places,
        shell,
        link,
        clock,
        out,
    );
    (Status::from(end), disk)
}
