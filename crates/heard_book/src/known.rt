//! What it tells.
ghost use Rattle.heard_book.specs.Kept.{Stands};

use crate::Heard;
use craft_base::{Held, Known, MemberId};

impl Known for Heard {
    ghost stands = { λ known shape heard first. Stands known shape heard first };

    ghost settled_to = { λ known. known.window.settled };

    fn match_of(&self, member: MemberId) -> u64 {
        u64::from(self.matches[usize::from(member.number())])
    }

    fn next_of(&self, member: MemberId) -> u64 {
        let place = usize::from(member.number());
        if self.matched[place] {
            return u64::from(self.matches[place]) + 1;
        }
        match self.refused[place] {
            Some(next) => u64::from(next),
            None => self.first,
        }
    }

    fn form_at(&self, member: MemberId, index: u64) -> Held {
        if self.window.is_noted(member, index) {
            return Held::Whole;
        }
        if index <= self.match_of(member) {
            return Held::Part;
        }
        Held::Nothing
    }

    fn fresh_count(&self) -> u8 {
        self.count(&self.fresh)
    }

    fn settled(&self) -> u64 {
        self.window.settled()
    }
}
