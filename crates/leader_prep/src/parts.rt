//! The parts of a log.
ghost use Rattle.std.specs.Prelude.{◌≡◌, Some};
ghost use Rattle.entry_frames.specs.Logs.{entry_at, viewed_with};
ghost use Rattle.leader_prep.specs.Decisions.{cursor_of, if_part};

use entry_frames::{EntryView, LogView};

/// The least index above the commit index that the log holds as a part, if there is one.
pub(crate) fn first_part<L: LogView>(log: &L) -> Option<u64>
    ensures { result ≡ cursor_of (L.log log.now).commit (L.log log.now).entries }
{
    for before in log.commit()..log.last() {
        if part_at(log, before + 1).is_some() {
            return Some(before + 1);
        }
    }
    None
}

/// The entry at that index, where the log holds it as a part.
pub(crate) fn part_at<L: LogView>(log: &L, index: u64) -> Option<EntryView<'_>>
    ensures { result ≡ viewed_with (L.log log.now).k (if_part (entry_at (L.log log.now).entries index)) }
{
    match log.at(index) {
        Some(entry) => if_part(entry),
        None => None,
    }
}

/// The entry, where it is a part.
fn if_part(view: EntryView<'_>) -> Option<EntryView<'_>>
    ensures { result ≡ viewed_with view.entry.k (if_part (Some view.entry.entry)) }
{
    if view.is_whole() { None } else { Some(view) }
}
