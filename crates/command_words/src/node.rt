//! The words of `node`.
ghost use Rattle.std.specs.Prelude.{◌≡◌, map, string_bytes, IfOk};
ghost use Rattle.command_words.specs.Words as commands;
ghost use Rattle.world_model.specs.Calls as calls;
ghost use Rattle.world_model.specs.Numbers.{number_of};
ghost use Rattle.world_model.specs.Schedule as schedule;

use crate::command::{Command, NodeCommand};
use crate::places::Places;
use craft_base::{MemberId, Shape};
use line_input::{member_of, number, number_within};

/// The most turns of a node.
const MOST_TURNS: u64 = 1_000_000_000_000;

/// The member that these words say, if they say one.
pub(crate) fn node_of_words(
    shape: Shape,
    me: &str,
    seed: &str,
    turns: &str,
    path: &str,
    places: Option<Places>,
) -> Option<Command>
    ensures { result ≡ commands.node_of shape (schedule.member_of shape (number_of me.now)) (number_of seed.now)
        (calls.number_within 1 commands.most_turns (number_of turns.now)) path.now places }
{
    let me = number(me.as_bytes())?;
    let me = member_of(&shape, me)?;
    let seed = number(seed.as_bytes())?;
    let turns = number_within(1, MOST_TURNS, turns.as_bytes())?;
    let places = places?;
    if path.is_empty() {
        return None;
    }
    Some(Command::Node(NodeCommand {
        shape,
        me,
        seed,
        turns,
        places,
    }))
}
