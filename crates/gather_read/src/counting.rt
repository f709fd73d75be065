//! The value that all that was shown gives.
ghost use Rattle.std.specs.Prelude.{◌≡◌, ◌<◌, Some, IfOk, IfSome};
ghost use Rattle.std.specs.Option.{option_map};
ghost use Rattle.craft_base.specs.Knowledge.{members};
ghost use Rattle.entry_frames.specs.Entries.{form_bytes};
ghost use Rattle.entry_frames.specs.Views.{IsInRange};
ghost use Rattle.gather_read.specs.Gathered.{IsGiven, source_in};
ghost use Rattle.gather_read.specs.Keeping.{kept_slot};
ghost use Rattle.gather_read.specs.Standing.{kept_source};
ghost use Rattle.leader_prep.specs.Rebuilders.{IsPartOf, with_parts};
ghost use Rattle.leader_prep.specs.Verdicts.{first_whole, form_in, part_in, parts_of, rebuilding_by, usable_form, verdict_of_parts, whole_in};

use crate::gather::Gather;
use craft_base::{Blob, OutOfMemory};
use entry_frames::EntryView;
use leader_prep::is_usable;
use rs_code::Rebuilder;

impl Gather {
    /// The value, if what is kept gives it.
    pub(crate) fn value(&self) -> Result<Option<Blob>, OutOfMemory>
        ensures { IfOk result (IsGiven (kept_source self.now)) }
    {
        let own = self.own();
        match self.whole(&own) {
            Some(view) => Ok(Some(Blob::copy_of(self.alloc, view.bytes())?)),
            None => self.value_of_parts(&own),
        }
    }

    /// The entry of the lowest member that is known to hold all of its value, lent.
    fn whole<'a>(&'a self, own: &EntryView<'a>) -> Option<EntryView<'a>>
        requires need { own.now.k ≡ self.now.shape.need }
        ensures { option_map (λ view. form_bytes view.entry.form) result
            ≡ first_whole (usable_form self.now.me own.now.entry (kept_slot self.now.slots)) (members self.now.shape) }
    {
        for number in 0..self.shape.members() {
            if let Some(view) = self.whole_of(own, number) {
                return Some(view);
            }
        }
        None
    }

    /// The entry of a member, where it is known to hold all of its value, lent.
    fn whole_of<'a>(&'a self, own: &EntryView<'a>, member: u8) -> Option<EntryView<'a>>
        requires need { own.now.k ≡ self.now.shape.need }
        requires member { member < 15 }
        ensures { option_map (λ view. form_bytes view.entry.form) result
            ≡ whole_in (usable_form self.now.me own.now.entry (kept_slot self.now.slots) member) }
    {
        match self.usable(own, member) {
            Some(view) => if_whole(view),
            None => None,
        }
    }

    /// The entry of a member, where it counts, lent.
    fn usable<'a>(&'a self, own: &EntryView<'a>, member: u8) -> Option<EntryView<'a>>
        requires need { own.now.k ≡ self.now.shape.need }
        requires member { member < 15 }
        ensures form { option_map (λ view. view.entry.form) result ≡ usable_form self.now.me own.now.entry (kept_slot self.now.slots) member }
        ensures usable { IfSome result (λ view. IsPartOf own.now view) }
    {
        if member == self.me.number() {
            return Some(own.again());
        }
        match self.slots.at(member) {
            Some(view) => if_usable(own, view),
            None => None,
        }
    }

    /// The value, if as many parts as are needed are known.
    fn value_of_parts<'a>(&'a self, own: &EntryView<'a>) -> Result<Option<Blob>, OutOfMemory>
        requires need { own.now.k ≡ self.now.shape.need }
        requires in_range { IsInRange own.now }
        ensures { IfOk result (IsGiven (source_in (verdict_of_parts self.now.shape own.now.entry
            (parts_of (usable_form self.now.me own.now.entry (kept_slot self.now.slots)) (members self.now.shape))))) }
    {
        let rebuilder = self.rebuilder(own)?;
        if rebuilder.count() < self.shape.need() {
            return Ok(None);
        }
        let mut value = vec![in self.alloc; 0; own.vlen() as usize]?;
        rebuilder.write(&mut value);
        Ok(Some(Blob::of(value)))
    }

    /// As many parts as are needed, of the lowest members that are known to hold one.
    fn rebuilder<'a>(&'a self, own: &EntryView<'a>) -> Result<Rebuilder, OutOfMemory>
        requires need { own.now.k ≡ self.now.shape.need }
        requires in_range { IsInRange own.now }
        ensures { IfOk result (λ rebuilder. rebuilder ≡ rebuilding_by self.now.shape own.now.entry
            (parts_of (usable_form self.now.me own.now.entry (kept_slot self.now.slots)) (members self.now.shape))) }
    {
        let mut rebuilder = Rebuilder::new(self.alloc, self.shape.need(), own.vlen() as usize)?;
        for number in 0..self.shape.members() {
            self.add_part(&mut rebuilder, own, number);
        }
        Ok(rebuilder)
    }

    /// Adds the part of a member, if it is known to hold one.
    fn add_part<'a>(&'a self, rebuilder: &mut Rebuilder, own: &EntryView<'a>, member: u8)
        requires need { own.now.k ≡ self.now.shape.need }
        requires member { member < 15 }
        requires same_need { rebuilder.old.need ≡ self.now.shape.need }
        requires same_length { rebuilder.old.value_length ≡ own.now.entry.head.vlen }
        ensures { rebuilder.new ≡ with_parts (part_in member (usable_form self.now.me own.now.entry (kept_slot self.now.slots) member)) rebuilder.old }
    {
        if let Some(view) = self.usable(own, member) {
            if !view.is_whole() {
                rebuilder.add(member, view.bytes());
            }
        }
    }
}

/// The entry, where it holds all of its value.
fn if_whole(view: EntryView<'_>) -> Option<EntryView<'_>>
    ensures { option_map (λ view. form_bytes view.entry.form) result ≡ whole_in (Some view.entry.entry.form) }
{
    if view.is_whole() { Some(view) } else { None }
}

/// Another's entry, where it counts beside the leader's own.
fn if_usable<'a>(own: &EntryView<'a>, view: EntryView<'a>) -> Option<EntryView<'a>>
    requires { view.k ≡ own.now.k }
    ensures form { option_map (λ view. view.entry.form) result ≡ form_in own.now.entry (Some view.entry.entry) }
    ensures usable { IfSome result (λ view. IsPartOf own.now view) }
{
    if is_usable(own, &view) {
        Some(view)
    } else {
        None
    }
}
