//! What the definitions come to, in other words.
ghost use Rattle.std.specs.Prelude.{◌-◌, ℕ, List, drop};
ghost use Rattle.craft_base.specs.Knowledge.{Heard};
ghost use Rattle.craft_base.specs.declared.command.Entry.{Entry};
ghost use Rattle.entry_frames.specs.Limits.{most_entries, most_entry_bytes};
ghost use Rattle.coded_append.specs.Batches.{coded_batch, sent_to, whole_batch};
ghost use Rattle.coded_append.specs.Starts.{start_for};
ghost use Rattle.coded_append.specs.declared.modes.Mode.TheVariants.{Complete};
ghost use Rattle.coded_append.specs.Laws.{IsAsMuch, IsStart};

/// A batch has the first entries from an index on, in order and each as it goes: all of them held whole, at most 8, of at most
/// 56,000 bytes as they go. It has one more wherever there is one that is held whole, a place for it and room for its bytes.
pub fn a_batch_is_as_much_as_has_room()
    ensures coded { (need member start : ℕ) (log : List Entry) →
        IsAsMuch need most_entries most_entry_bytes (sent_to need member) (drop (start - 1) log) (coded_batch need member log start) }
    ensures whole { (k start : ℕ) (log : List Entry) →
        IsAsMuch k most_entries most_entry_bytes (λ entry. entry) (drop (start - 1) log) (whole_batch k log start) }
{}

/// In Complete mode entries go from the index on from which they go in Coded mode, or from an earlier one which the member
/// isn't known to hold whole; and it is known to hold whole all before it that isn't committed.
pub fn a_start_is_as_late_as_what_is_held()
    ensures { (member commit first : ℕ) (log : List Entry) (heard : List Heard) →
        IsStart member commit log heard first (start_for Complete member commit log heard first) }
{}
