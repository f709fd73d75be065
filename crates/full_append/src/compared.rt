//! The entries of a message beside those of the log.
ghost use Rattle.std.specs.Prelude.{◌≡◌, ◌<◌, ◌+◌, ◌*◌, ◌^◌, ◌≤◌, ◌++◌, ◌==◌, [], map, length, drop, if◌then◌else◌, IfOk, OnOk};
ghost use Rattle.std.specs.Option.{option_map};
ghost use Rattle.entry_frames.specs.Entries.{is_whole};
ghost use Rattle.entry_frames.specs.Kinds.{kind_of};
ghost use Rattle.entry_frames.specs.Limits.{most_entries};
ghost use Rattle.entry_frames.specs.MessageParts.{body_of, entries_of, prev_of};
ghost use Rattle.entry_frames.specs.Records.{first_number};
ghost use Rattle.entry_frames.specs.declared.kind.Kind.TheVariants as kinds;
ghost use Rattle.entry_frames.specs.declared.kind.PeerKind.TheVariants as peer_kinds;
ghost use Rattle.full_append.specs.Comparisons.{Compares, Notes, entry_after, shared};
ghost use Rattle.world_model.specs.Rules.Append.{completion};

use crate::forms::{bit, completes};
use craft_base::OutOfMemory;
use entry_frames::{EntryView, LogView};
use peer_frames::MessageView;
use std::alloc::Global;

/// What was found by comparing entries of a message, in order, with those of the log.
#[derive(Drop)]
pub(crate) struct Comparison {
    /// How many have the same term in both, up to the first that hasn't.
    pub same: u8,
    /// At which indexes the log holds a part of one of these, whose value the message has.
    pub wholes: Vec<u64>,
    /// Which the log holds whole once it has become the leader's.
    pub mask: u8,
}

impl Comparison {
    /// Nothing is compared yet.
    fn new(alloc: Global) -> Comparison
        ensures same { result.same ≡ 0 }
        ensures wholes { result.wholes.items ≡ [] }
        ensures mask { result.mask ≡ 0 }
    {
        Comparison {
            same: 0,
            wholes: Vec::new(alloc),
            mask: 0,
        }
    }

    /// Compares the entry with number `n` with what the log has at its index.
    fn note(
        &mut self,
        n: u8,
        index: u64,
        own: &Option<EntryView<'_>>,
        entry: &EntryView<'_>,
    ) -> Result<(), OutOfMemory>
        requires number { n < 8 }
        requires same { self.old.same ≤ n }
        requires mask { self.old.mask < 2 ^ n }
        ensures { OnOk result (Notes n index (shared (self.old.same == n) (option_map (λ v. v.entry) own.now) entry.now.entry) entry.now.entry self.old self.new) }
    {
        if let Some(own) = own {
            if self.same == n && own.term() == entry.term() {
                return self.share(n, index, own, entry);
            }
        }
        self.mask += bit(entry.is_whole(), n);
        Ok(())
    }

    /// The log has the entry too.
    fn share(
        &mut self,
        n: u8,
        index: u64,
        own: &EntryView<'_>,
        entry: &EntryView<'_>,
    ) -> Result<(), OutOfMemory>
        requires number { n < 8 }
        requires same { self.old.same ≤ n }
        requires mask { self.old.mask < 2 ^ n }
        ensures same { OnOk result (self.new.same ≡ self.old.same + 1) }
        ensures wholes { OnOk result (self.new.wholes.items ≡ self.old.wholes.items ++ map first_number (completion index own.now.entry entry.now.entry)) }
        ensures mask { OnOk result (self.new.mask ≡ self.old.mask + (if is_whole (entry_after own.now.entry entry.now.entry).form then 1 else 0) * 2 ^ n) }
    {
        let becomes_whole = completes(own, entry);
        if becomes_whole {
            self.wholes.push(index)?;
        }
        self.same += 1;
        self.mask += bit(becomes_whole || own.is_whole(), n);
        Ok(())
    }
}

/// What is found by comparing the entries of an Append with the log behind `prev`.
pub(crate) fn compared<L: LogView>(
    alloc: Global,
    log: &L,
    append: &MessageView<'_>,
) -> Result<Comparison, OutOfMemory>
    requires kind { kind_of append.now.frame ≡ kinds.Peer peer_kinds.Append }
    requires few { length (entries_of (body_of append.now.frame)) ≤ most_entries }
    requires prev { prev_of (body_of append.now.frame) ≤ length (L.log log.now).entries }
    ensures { IfOk result (Compares (drop (prev_of (body_of append.now.frame)) (L.log log.now).entries) (entries_of (body_of append.now.frame)) (prev_of (body_of append.now.frame) + 1)) }
{
    let first = append.prev() + 1;
    let mut found = Comparison::new(alloc);
    for n in 0..append.count() {
        if let Some(entry) = append.entry(n) {
            let index = first + u64::from(n);
            found.note(n, index, &log.at(index), &entry)?;
        }
    }
    Ok(found)
}
