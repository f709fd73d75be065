//! What a member does with an Append.
ghost use Rattle.std.specs.Prelude.{◌≡◌, ◌≤◌, ◌+◌, min, length, drop, IfOk};
ghost use Rattle.entry_frames.specs.Kinds.{kind_of};
ghost use Rattle.entry_frames.specs.Limits.{most_entries};
ghost use Rattle.entry_frames.specs.MessageParts.{body_of, entries_of, prev_of, prev_term_of, commit_of};
ghost use Rattle.entry_frames.specs.declared.kind.Kind.TheVariants as kinds;
ghost use Rattle.entry_frames.specs.declared.kind.PeerKind.TheVariants as peer_kinds;
ghost use Rattle.full_append.specs.Plans.{IsPlan, AreItsRecords, later_commit};
ghost use Rattle.world_model.specs.Rules.Append.{common, difference, has_before, is_clash};

use crate::compared::compared;
use crate::plan::Plan;
use craft_base::OutOfMemory;
use entry_frames::LogView;
use peer_frames::MessageView;
use std::alloc::Global;

/// What a member with that log does with an Append of its term's leader, after Raft's AppendEntries: `Refuse` exactly where
/// the log hasn't the term at `prev` that the message names, `Clash` exactly where it has and differs from the message at or
/// below its commit index. It looks at each entry once. The only error is want of memory.
pub fn take_append<L: LogView>(
    alloc: Global,
    log: &L,
    append: &MessageView<'_>,
) -> Result<Plan, OutOfMemory>
    requires kind { kind_of append.now.frame ≡ kinds.Peer peer_kinds.Append }
    requires few { length (entries_of (body_of append.now.frame)) ≤ most_entries }
    ensures plan { IfOk result (IsPlan (L.log log.now) (prev_of (body_of append.now.frame)) (prev_term_of (body_of append.now.frame)) (commit_of (body_of append.now.frame)) (entries_of (body_of append.now.frame))) }
    ensures records { IfOk result (AreItsRecords (prev_of (body_of append.now.frame)) (L.log log.now).entries (entries_of (body_of append.now.frame))) }
{
    if !has_before(log, append.prev(), append.prev_term()) {
        return Ok(Plan::Refuse {
            next: log.commit() + 1,
        });
    }
    let found = compared(alloc, log, append)?;
    let cut = difference(log, append, found.same);
    if is_clash(log.commit(), cut) {
        return Ok(Plan::Clash);
    }
    Ok(Plan::Take {
        cut,
        wholes: found.wholes,
        first_new: found.same,
        mask: found.mask,
        commit: commit_after(log, append),
    })
}

/// Whether the log has that term at `prev`.
fn has_before<L: LogView>(log: &L, prev: u64, prev_term: u64) -> bool
    ensures { result ≡ has_before (L.log log.now).entries prev prev_term }
{
    prev <= log.last() && log.term_at(prev) == prev_term
}

/// The index behind the entries that are the same, where the log and the message both have one.
fn difference<L: LogView>(log: &L, append: &MessageView<'_>, same: u8) -> Option<u64>
    requires kind { kind_of append.now.frame ≡ kinds.Peer peer_kinds.Append }
    requires prev { prev_of (body_of append.now.frame) ≤ length (L.log log.now).entries }
    requires same { same ≡ common (drop (prev_of (body_of append.now.frame)) (L.log log.now).entries) (entries_of (body_of append.now.frame)) }
    ensures { result ≡ difference (prev_of (body_of append.now.frame)) (L.log log.now).entries (entries_of (body_of append.now.frame)) }
{
    let last_same = append.prev() + u64::from(same);
    if last_same < log.last() && same < append.count() {
        Some(last_same + 1)
    } else {
        None
    }
}

/// Whether what is committed would be cut.
fn is_clash(commit: u64, cut: Option<u64>) -> bool
    ensures { result ≡ is_clash commit cut }
{
    match cut {
        Some(index) => index <= commit,
        None => false,
    }
}

/// How far the log is committed once it has the entries: as far as the leader's where the message tells it.
fn commit_after<L: LogView>(log: &L, append: &MessageView<'_>) -> u64
    requires kind { kind_of append.now.frame ≡ kinds.Peer peer_kinds.Append }
    requires prev { prev_of (body_of append.now.frame) ≤ length (L.log log.now).entries }
    ensures { result ≡ later_commit (L.log log.now).commit (min (commit_of (body_of append.now.frame)) (prev_of (body_of append.now.frame) + length (entries_of (body_of append.now.frame)))) }
{
    let told = append.prev() + u64::from(append.count());
    let theirs = append.commit().min(told);
    if log.commit() < theirs {
        theirs
    } else {
        log.commit()
    }
}
