//! What the words ask for, by position.
ghost use Rattle.std.specs.Prelude.{◌≡◌, map, string_bytes, option_map, IfOk, IfSome};
ghost use Rattle.command_words.specs.Places as places_words;
ghost use Rattle.command_words.specs.Spelling.{IsCommand};
ghost use Rattle.command_words.specs.Words as commands;

use crate::command::{AskCommand, Command};
use crate::node::node_of_words;
use crate::place::place_in;
use crate::places::Places;
use crate::request::request_in;
use crate::shape::shape_of_words;
use crate::storm::storm_of_words;
use craft_base::{OutOfMemory, Request, Shape};
use std::alloc::Global;

/// What the words ask for, with its numbers in range; nothing exactly where they are no command. The only error is want of memory.
pub fn plan(alloc: Global, words: &[String]) -> Result<Option<Command>, OutOfMemory>
    ensures exact { IfOk result (λ command. command ≡ commands.plan (map string_bytes words.now)) }
    ensures ranged { IfOk result (λ command. IfSome command IsCommand) }
{
    command_in(alloc, words)
}

/// What the words ask for, by position.
fn command_in(alloc: Global, words: &[String]) -> Result<Option<Command>, OutOfMemory>
    ensures { IfOk result (λ command. command ≡ commands.plan (map string_bytes words.now)) }
{
    match words {
        [name, faults, need, rest @ ..] => {
            match shape_of_words(faults.as_str(), need.as_str()) {
                Some(shape) => command_named(alloc, name.as_str(), shape, rest),
                None => Ok(None),
            }
        }
        _ => Ok(None),
    }
}

/// The path of the journal that the words of `node` name.
pub fn path_of(words: &[String]) -> Option<&str>
    ensures { option_map (λ path. path.now) result ≡ commands.path_in (map string_bytes words.now) }
{
    match words {
        [_, _, _, _, _, _, path, ..] => Some(path.as_str()),
        _ => None,
    }
}

/// The command of that name for a cluster, with the words behind it.
fn command_named(
    alloc: Global,
    name: &str,
    shape: Shape,
    words: &[String],
) -> Result<Option<Command>, OutOfMemory>
    ensures { IfOk result (λ command. command ≡ commands.command_named name.now shape (map string_bytes words.now)) }
{
    match name {
        "replay" => Ok(alone(Command::Replay(shape), words)),
        "node" => node_in(alloc, shape, words),
        "ask" => ask_in(alloc, shape, words),
        "split" => Ok(alone(Command::Split(shape), words)),
        "join" => Ok(alone(Command::Join(shape), words)),
        "storm" => Ok(storm_in(shape, words)),
        _ => Ok(None),
    }
}

/// A command behind which no word stands.
fn alone(command: Command, words: &[String]) -> Option<Command>
    ensures { result ≡ commands.alone command (map string_bytes words.now) }
{
    match words {
        [] => Some(command),
        _ => None,
    }
}

/// `node F k me seed turns path place0 ..`, by what stands behind `k`.
fn node_in(alloc: Global, shape: Shape, words: &[String]) -> Result<Option<Command>, OutOfMemory>
    ensures { IfOk result (λ command. command ≡ commands.node_in shape (map string_bytes words.now)) }
{
    match words {
        [me, seed, turns, path, places @ ..] => {
            let places = places_in(alloc, &shape, places)?;
            Ok(node_of_words(
                shape,
                me.as_str(),
                seed.as_str(),
                turns.as_str(),
                path.as_str(),
                places,
            ))
        }
        _ => Ok(None),
    }
}

/// `ask F k client seq op key value place0 ..`, by what stands behind `k`.
fn ask_in(alloc: Global, shape: Shape, words: &[String]) -> Result<Option<Command>, OutOfMemory>
    ensures { IfOk result (λ command. command ≡ commands.ask_in shape (map string_bytes words.now)) }
{
    match words {
        [client, seq, op, key, value, places @ ..] => {
            let places = places_in(alloc, &shape, places)?;
            let request = request_in(
                alloc,
                client.as_str(),
                seq.as_str(),
                op.as_str(),
                key.as_str(),
                value.as_str(),
            )?;
            Ok(ask_of(shape, request, places))
        }
        _ => Ok(None),
    }
}

/// `storm F k seed count`, by what stands behind `k`.
fn storm_in(shape: Shape, words: &[String]) -> Option<Command>
    ensures { result ≡ commands.storm_in shape (map string_bytes words.now) }
{
    match words {
        [seed, count] => storm_of_words(shape, seed.as_str(), count.as_str()),
        _ => None,
    }
}

/// A request to a cluster whose members have places.
fn ask_of(shape: Shape, request: Option<Request>, places: Option<Places>) -> Option<Command>
    ensures { result ≡ commands.ask_of shape request places }
{
    let request = request?;
    let places = places?;
    Some(Command::Ask(AskCommand {
        shape,
        request,
        places,
    }))
}

/// The places of all members, one word each.
fn places_in(alloc: Global, shape: &Shape, words: &[String]) -> Result<Option<Places>, OutOfMemory>
    ensures { IfOk result (λ places. places ≡ places_words.places_in shape.now (map string_bytes words.now)) }
{
    if words.len() != usize::from(shape.members()) {
        return Ok(None);
    }
    let mut list = Vec::new(alloc);
    for word in words {
        match place_in(alloc, word.as_bytes())? {
            Some(place) => list.push(place)?,
            None => return Ok(None),
        }
    }
    Ok(Some(Places::of(list)))
}
