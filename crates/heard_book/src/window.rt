//! Who holds which entry whole.
ghost use Rattle.std.specs.Prelude.{◌≡◌, ◌==◌, ◌<◌, ◌≤◌, ◌+◌, ◌-◌, ◌&&◌, ◌||◌, ℕ, ◌^◌, max, nat_lt, false, slice_index, OnOk};
ghost use Rattle.std.specs.Int.{bit_at};
ghost use Rattle.std.specs.VecDeque.{deque_len};
ghost use Rattle.heard_book.specs.Kept.{is_noted};

use crate::masks::{has_entry, has_member, with_member};
use craft_base::{MemberId, OutOfMemory};
use std::alloc::Global;
use std::collections::VecDeque;

/// Masks of the members that hold an entry whole, from the index behind `settled` on, as far as any is known to.
#[derive(Drop)]
pub struct Window {
    settled: u64,
    masks: VecDeque<u16>,
}

impl Window {
    /// Nobody is known to hold anything.
    pub(crate) fn new(alloc: Global) -> Window
        ensures settled { result.settled ≡ 0 }
        ensures noted { (member index : ℕ) → is_noted result member index ≡ false }
    {
        Window {
            settled: 0,
            masks: VecDeque::new(alloc),
        }
    }

    /// The index up to which it tells nothing.
    pub(crate) fn settled(&self) -> u64
        ensures { result ≡ self.now.settled }
    {
        self.settled
    }

    /// Whether the member is known to hold the entry at that index whole.
    pub(crate) fn is_noted(&self, member: MemberId, index: u64) -> bool
        requires { self.now.settled < index }
        ensures { result ≡ is_noted self.now member index }
    {
        let offset = (index - self.settled - 1) as usize;
        if offset >= self.masks.len() {
            return false;
        }
        has_member(self.masks[offset], member)
    }

    /// Forgets what is noted up to `commit`, in a time linear in what it forgets.
    pub(crate) fn settle(&mut self, commit: u64)
        ensures settled { self.new.settled ≡ max self.old.settled commit }
        ensures noted { (member index : ℕ) → self.new.settled < index → is_noted self.new member index ≡ is_noted self.old member index }
    {
        if commit <= self.settled {
            return;
        }
        let known = self.masks.len();
        let passed = known.min((commit - self.settled) as usize);
        for _ in 0..passed {
            self.masks.pop_front();
        }
        self.settled = commit;
    }

    /// Notes that the member holds the entry at that index whole.
    fn note(&mut self, member: MemberId, index: u64) -> Result<(), OutOfMemory>
        requires { self.old.settled < index }
        ensures settled { self.new.settled ≡ self.old.settled }
        ensures noted { OnOk result ((other at : ℕ) → self.new.settled < at → is_noted self.new other at ≡ (((member == other) && (at == index)) || is_noted self.old other at)) }
    {
        let offset = (index - self.settled - 1) as usize;
        self.reach(offset)?;
        self.masks[offset] = with_member(self.masks[offset], member);
        Ok(())
    }

    /// Has a mask at that place.
    fn reach(&mut self, offset: usize) -> Result<(), OutOfMemory>
        requires { offset < 2 ^ 64 - 1 }
        ensures settled { self.new.settled ≡ self.old.settled }
        ensures reached { OnOk result (offset < deque_len self.new.masks) }
        ensures same { OnOk result ((place : ℕ) → slice_index self.new.masks.items place ≡ slice_index self.old.masks.items place) }
    {
        if self.masks.len() <= offset {
            self.masks.resize(offset + 1, 0)?;
        }
        Ok(())
    }

    /// Notes what one bit of a mask tells of the entry at `prev + 1 + bit`; below the masks nothing is noted.
    fn note_bit(
        &mut self,
        member: MemberId,
        prev: u64,
        mask: u8,
        bit: u64,
    ) -> Result<(), OutOfMemory>
        requires prev { prev ≤ 1000000 }
        requires bit { bit < 8 }
        ensures settled { self.new.settled ≡ self.old.settled }
        ensures noted { OnOk result ((other at : ℕ) → self.new.settled < at → is_noted self.new other at ≡ (((member == other) && ((at == prev + 1 + bit) && (bit_at mask bit == 1))) || is_noted self.old other at)) }
    {
        let index = prev + 1 + bit;
        if index > self.settled && has_entry(mask, bit) {
            self.note(member, index)?;
        }
        Ok(())
    }

    /// Notes what a mask tells of the entries from `prev + 1` on.
    pub(crate) fn note_mask(
        &mut self,
        member: MemberId,
        prev: u64,
        mask: u8,
    ) -> Result<(), OutOfMemory>
        requires { prev ≤ 1000000 }
        ensures settled { self.new.settled ≡ self.old.settled }
        ensures noted { OnOk result ((other at : ℕ) → self.new.settled < at → is_noted self.new other at ≡ (((member == other) && (nat_lt prev at && (bit_at mask (at - (prev + 1)) == 1))) || is_noted self.old other at)) }
    {
        for bit in 0..8 {
            self.note_bit(member, prev, mask, bit)?;
        }
        Ok(())
    }
}
