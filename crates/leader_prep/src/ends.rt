//! The ends of others' logs.
ghost use Rattle.std.specs.Prelude.{◌≡◌, ◌≤◌, ◌<◌, ◌+◌, ◌^◌, length};
ghost use Rattle.entry_frames.specs.Kinds.{kind_of};
ghost use Rattle.entry_frames.specs.Limits.{most_entries};
ghost use Rattle.entry_frames.specs.MessageParts.{body_of, entries_of, start_of};
ghost use Rattle.entry_frames.specs.declared.kind.Kind.TheVariants as kinds;
ghost use Rattle.entry_frames.specs.declared.kind.PeerKind.TheVariants as peer_kinds;
ghost use Rattle.leader_prep.specs.Pages.{end_in, page_of};
ghost use Rattle.leader_prep.specs.Standing.{is_past, least_of};

use peer_frames::MessageView;

/// The last index of its sender's log, where the page reaches the end.
pub(crate) fn end_in(page: &MessageView<'_>) -> Option<u64>
    requires kind { kind_of page.now.frame ≡ kinds.Peer peer_kinds.Answer }
    requires few { length (entries_of (body_of page.now.frame)) ≤ most_entries }
    requires start { start_of (body_of page.now.frame) < 2 ^ 63 }
    ensures { result ≡ end_in (page_of page.now.frame) }
{
    if page.last() < page.start() + u64::from(page.count()) {
        Some(page.last())
    } else {
        None
    }
}

/// The lesser of two ends, where there are two.
pub(crate) fn least_of(end: Option<u64>, other: Option<u64>) -> Option<u64>
    ensures { result ≡ least_of end other }
{
    match (end, other) {
        (None, _) => other,
        (Some(_), None) => end,
        (Some(end), Some(other)) => Some(end.min(other)),
    }
}

/// Whether an index lies past the end of a log, where that is known.
pub(crate) fn is_past(end: Option<u64>, index: u64) -> bool
    ensures { result ≡ is_past end index }
{
    match end {
        Some(last) => last < index,
        None => false,
    }
}
