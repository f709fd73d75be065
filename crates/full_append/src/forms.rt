//! Whole values in place of parts.
ghost use Rattle.std.specs.Prelude.{◌≡◌, ◌<◌, ◌*◌, ◌^◌, ◌≤◌, if◌then◌else◌};
ghost use Rattle.full_append.specs.Comparisons.{completes};

use entry_frames::EntryView;
use leader_prep::is_same_head;

/// Whether the log holds a part of the entry and the message has its value.
pub(crate) fn completes(own: &EntryView<'_>, entry: &EntryView<'_>) -> bool
    ensures { result ≡ completes own.now.entry entry.now.entry }
{
    !own.is_whole() && entry.is_whole() && is_same_head(own, entry)
}

/// The mask with that bit alone, or with none.
pub(crate) fn bit(stands: bool, n: u8) -> u8
    requires { n < 8 }
    ensures { result ≡ (if stands then 1 else 0) * 2 ^ n }
{
    if stands { 1 << n } else { 0 }
}
