//! A log that can be looked at.
ghost use Rattle.std.specs.Prelude.{◌≡◌, ◌≤◌, length};
ghost use Rattle.entry_frames.specs.Logs.{Log, IsLog, entry_at, term_at, viewed_with};

use crate::entry_view::EntryView;

/// A log of at most 1,000,000 entries, the first of which has index 1, and the index up to which it is committed. None of
/// its calls takes memory.
pub trait LogView {
    /// The log, how many fragments rebuild a value of it, and how far it is committed.
    ghost log: { Self → Log };

    /// It isn't too long, and isn't committed past its end.
    ghost is_log: { (view : Self) → IsLog (log view) };

    /// The index of the last entry, 0 where there is none.
    fn last(&self) -> u64
        ensures { result ≡ length (log self.now).entries };

    /// The index up to which the log is committed, 0 where nothing is.
    fn commit(&self) -> u64
        ensures { result ≡ (log self.now).commit };

    /// The term of the entry at that index; 0 at index 0.
    fn term_at(&self, index: u64) -> u64
        requires { index ≤ length (log self.now).entries }
        ensures { result ≡ term_at (log self.now).entries index };

    /// The entry at that index, lent; `None` exactly where the index is 0 or past the last one.
    fn at(&self, index: u64) -> Option<EntryView<'_>>
        ensures { result ≡ viewed_with (log self.now).k (entry_at (log self.now).entries index) };
}
