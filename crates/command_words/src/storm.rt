//! The words of `storm`.
ghost use Rattle.std.specs.Prelude.{◌≡◌};
ghost use Rattle.command_words.specs.Words as commands;
ghost use Rattle.storm_gen.specs.declared.storm.TheConstants.{MOST_EVENTS as most_events};
ghost use Rattle.world_model.specs.Calls as calls;
ghost use Rattle.world_model.specs.Numbers.{number_of};

use crate::command::{Command, StormCommand};
use craft_base::Shape;
use line_input::{number, number_within};
use storm_gen::MOST_EVENTS;

/// The made schedule that these words say, if they say one.
pub(crate) fn storm_of_words(shape: Shape, seed: &str, count: &str) -> Option<Command>
    ensures { result ≡ commands.storm_of shape (number_of seed.now) (calls.number_within 1 most_events (number_of count.now)) }
{
    let seed = number(seed.as_bytes())?;
    let count = number_within(1, MOST_EVENTS, count.as_bytes())?;
    Some(Command::Storm(StormCommand { shape, seed, count }))
}
