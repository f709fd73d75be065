//! What main opens before the top call.
ghost use Rattle.std.specs.Prelude.{◌≡◌, length, map, string_bytes, IfOk, vec_len};
ghost use Rattle.craft.specs.Program.{paths, place};

use command_words::{Command, path_of, plan};
use craft_base::OutOfMemory;
use std::alloc::Global;

/// The paths of the journals that the command of these words has: one for `node`, and none for any other words. The only error is
/// want of memory.
pub fn paths_of(alloc: Global, words: &[String]) -> Result<Vec<String>, OutOfMemory>
    ensures found { IfOk result (λ found. map string_bytes found.items ≡ paths (map string_bytes words.now)) }
    ensures count { IfOk result (λ found. vec_len found ≡ length (paths (map string_bytes words.now))) }
{
    let mut paths = Vec::new(alloc);
    if let Some(Command::Node(_)) = plan(alloc, words)? {
        if let Some(path) = path_of(words) {
            paths.push(String::from_str(alloc, path)?)?;
        }
    }
    Ok(paths)
}

/// The place at which the command of these words binds its socket: that of its member for `node`, and none for any other words.
/// The only error is want of memory.
pub fn place_of(alloc: Global, words: &[String]) -> Result<Option<u64>, OutOfMemory>
    ensures { IfOk result (λ found. found ≡ place (map string_bytes words.now)) }
{
    match plan(alloc, words)? {
        Some(Command::Node(node)) => {
            let places = node.places.as_slice();
            Ok(places.get(usize::from(node.me.number())).copied())
        }
        _ => Ok(None),
    }
}
