//! Texts in few letters.
use craft_base::OutOfMemory;
use std::alloc::Global;
use std::fmt::Write;

/// Three points for what was left out.
const MORE: &str = "\u{2026}";

/// Adds the words, which are ASCII, with single blanks between them: at most so many letters, and then points for what is left out.
pub(crate) fn push_words(
    text: &mut String,
    words: &[&str],
    most: usize,
) -> Result<(), OutOfMemory> {
    let mut room = most;
    for (place, word) in words.iter().enumerate() {
        if place > 0 {
            text.push(' ')?;
            room = room.saturating_sub(1);
        }
        if word.len() > room {
            let (front, _) = word.split_at_checked(room).unwrap_or(("", ""));
            write!(text, "{front}{MORE}")?;
            return Ok(());
        }
        text.push_str(word)?;
        room -= word.len();
    }
    Ok(())
}

/// The words in at most so many letters.
pub(crate) fn short(alloc: Global, words: &[&str], most: usize) -> Result<String, OutOfMemory> {
    let mut text = String::new(alloc);
    push_words(&mut text, words, most)?;
    Ok(text)
}
