//! What is decided by all that was shown.
ghost use Rattle.std.specs.Prelude.{◌≡◌, ◌<◌, Some, IfOk, IfSome};
ghost use Rattle.std.specs.Option.{option_map};
ghost use Rattle.craft_base.specs.Knowledge.{members};
ghost use Rattle.entry_frames.specs.Entries.{form_bytes};
ghost use Rattle.entry_frames.specs.Views.{IsInRange};
ghost use Rattle.leader_prep.specs.Decisions.{decided, open_parts};
ghost use Rattle.leader_prep.specs.Rebuilders.{IsPartOf, with_parts};
ghost use Rattle.leader_prep.specs.Standing.{Decides, IsVerdict, kept_shown, kept_slot, kept_verdict};
ghost use Rattle.leader_prep.specs.Verdicts.{first_whole, form_in, is_covered, part_in, parts_of, rebuilding_by, usable_form, verdict, verdict_of_parts, whole_in};

use crate::heads::is_usable;
use crate::parts::part_at;
use crate::prep::Prep;
use crate::verdicts::{Verdict, Verdicts, verdicts_of};
use craft_base::{Blob, OutOfMemory};
use entry_frames::{EntryView, LogView};
use rs_code::Rebuilder;

impl Prep {
    /// Decides index by index, until one has to wait, the log is cut or nothing is left; and the cursor that is left.
    pub(crate) fn decide<'a, L: LogView>(
        &'a self,
        log: &'a L,
    ) -> Result<(Verdicts, Option<u64>), OutOfMemory>
        requires need { (L.log log.now).k ≡ self.now.shape.need }
        ensures { IfOk result (λ r. Decides (decided (kept_verdict self.now) (open_parts (L.log log.now).commit (L.log log.now).entries)) r.0 r.1) }
    {
        let mut wholes = Vec::new(self.alloc);
        for before in log.commit()..log.last() {
            let index = before + 1;
            if let Some(own) = part_at(log, index) {
                match self.verdict(&own, index)? {
                    Verdict::Wait => return Ok(verdicts_of(wholes, None, Some(index))),
                    Verdict::Whole(value) => wholes.push((index, value))?,
                    Verdict::Cut => return Ok(verdicts_of(wholes, Some(index), None)),
                }
            }
        }
        Ok(verdicts_of(wholes, None, None))
    }

    /// What is decided of the node's own entry at an index.
    fn verdict<'a>(&'a self, own: &EntryView<'a>, index: u64) -> Result<Verdict, OutOfMemory>
        requires need { own.now.k ≡ self.now.shape.need }
        requires in_range { IsInRange own.now }
        ensures { IfOk result (IsVerdict (verdict self.now.shape self.now.me own.now.entry (kept_shown self.now index) (kept_slot self.now index))) }
    {
        if !self.is_covered(index) {
            return Ok(Verdict::Wait);
        }
        match self.whole_at(own, index) {
            Some(view) => Ok(Verdict::Whole(Blob::copy_of(self.alloc, view.bytes())?)),
            None => self.verdict_of_parts(own, index),
        }
    }

    /// Whether more than half of the members have shown what they hold at an index.
    fn is_covered(&self, index: u64) -> bool
        ensures { result ≡ is_covered self.now.shape self.now.me (kept_shown self.now index) }
    {
        let mut covering = 0;
        for number in 0..self.shape.members() {
            if self.covers_at(index, number) {
                covering += 1;
            }
        }
        covering >= self.shape.majority()
    }

    /// The entry of the lowest member that is known to hold all of its value, lent.
    fn whole_at<'a>(&'a self, own: &EntryView<'a>, index: u64) -> Option<EntryView<'a>>
        requires need { own.now.k ≡ self.now.shape.need }
        ensures { option_map (λ view. form_bytes view.entry.form) result
            ≡ first_whole (usable_form self.now.me own.now.entry (kept_slot self.now index)) (members self.now.shape) }
    {
        for number in 0..self.shape.members() {
            if let Some(view) = self.whole_of(own, index, number) {
                return Some(view);
            }
        }
        None
    }

    /// The entry of a member, where it is known to hold all of its value, lent.
    fn whole_of<'a>(&'a self, own: &EntryView<'a>, index: u64, member: u8) -> Option<EntryView<'a>>
        requires need { own.now.k ≡ self.now.shape.need }
        requires member { member < 15 }
        ensures { option_map (λ view. form_bytes view.entry.form) result
            ≡ whole_in (usable_form self.now.me own.now.entry (kept_slot self.now index) member) }
    {
        match self.usable(own, index, member) {
            Some(view) => if_whole(view),
            None => None,
        }
    }

    /// The entry of a member, where it counts, lent.
    fn usable<'a>(&'a self, own: &EntryView<'a>, index: u64, member: u8) -> Option<EntryView<'a>>
        requires need { own.now.k ≡ self.now.shape.need }
        requires member { member < 15 }
        ensures form { option_map (λ view. view.entry.form) result ≡ usable_form self.now.me own.now.entry (kept_slot self.now index) member }
        ensures usable { IfSome result (λ view. IsPartOf own.now view) }
    {
        if member == self.me.number() {
            return Some(own.again());
        }
        match self.slots.at(member, index) {
            Some(view) => if_usable(own, view),
            None => None,
        }
    }

    /// What is decided where nobody is known to hold all of the value.
    fn verdict_of_parts<'a>(
        &'a self,
        own: &EntryView<'a>,
        index: u64,
    ) -> Result<Verdict, OutOfMemory>
        requires need { own.now.k ≡ self.now.shape.need }
        requires in_range { IsInRange own.now }
        ensures { IfOk result (IsVerdict (verdict_of_parts self.now.shape own.now.entry
            (parts_of (usable_form self.now.me own.now.entry (kept_slot self.now index)) (members self.now.shape)))) }
    {
        let rebuilder = self.rebuilder(own, index)?;
        if rebuilder.count() < self.shape.need() {
            return Ok(Verdict::Cut);
        }
        let mut value = vec![in self.alloc; 0; own.vlen() as usize]?;
        rebuilder.write(&mut value);
        Ok(Verdict::Whole(Blob::of(value)))
    }

    /// As many parts as are needed, of the lowest members that are known to hold one.
    fn rebuilder<'a>(&'a self, own: &EntryView<'a>, index: u64) -> Result<Rebuilder, OutOfMemory>
        requires need { own.now.k ≡ self.now.shape.need }
        requires in_range { IsInRange own.now }
        ensures { IfOk result (λ rebuilder. rebuilder ≡ rebuilding_by self.now.shape own.now.entry
            (parts_of (usable_form self.now.me own.now.entry (kept_slot self.now index)) (members self.now.shape))) }
    {
        let mut rebuilder = Rebuilder::new(self.alloc, self.shape.need(), own.vlen() as usize)?;
        for number in 0..self.shape.members() {
            self.add_part(&mut rebuilder, own, index, number);
        }
        Ok(rebuilder)
    }

    /// Adds the part of a member, if it is known to hold one.
    fn add_part<'a>(
        &'a self,
        rebuilder: &mut Rebuilder,
        own: &EntryView<'a>,
        index: u64,
        member: u8,
    )
        requires need { own.now.k ≡ self.now.shape.need }
        requires member { member < 15 }
        requires same_need { rebuilder.old.need ≡ self.now.shape.need }
        requires same_length { rebuilder.old.value_length ≡ own.now.entry.head.vlen }
        ensures { rebuilder.new ≡ with_parts (part_in member (usable_form self.now.me own.now.entry (kept_slot self.now index) member)) rebuilder.old }
    {
        if let Some(view) = self.usable(own, index, member) {
            if !view.is_whole() {
                rebuilder.add(member, view.bytes());
            }
        }
    }
}

/// The entry, where it holds all of its value.
fn if_whole(view: EntryView<'_>) -> Option<EntryView<'_>>
    ensures { option_map (λ view. form_bytes view.entry.form) result ≡ whole_in (Some view.entry.entry.form) }
{
    if view.is_whole() { Some(view) } else { None }
}

/// Another's entry, where it counts beside the node's own.
fn if_usable<'a>(own: &EntryView<'a>, view: EntryView<'a>) -> Option<EntryView<'a>>
    requires { view.k ≡ own.now.k }
    ensures form { option_map (λ view. view.entry.form) result ≡ form_in own.now.entry (Some view.entry.entry) }
    ensures usable { IfSome result (λ view. IsPartOf own.now view) }
{
    if is_usable(own, &view) {
        Some(view)
    } else {
        None
    }
}
