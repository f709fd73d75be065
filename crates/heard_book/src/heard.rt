//! What was heard.
ghost use Rattle.std.specs.Prelude.{◌≡◌, ◌≤◌, ◌+◌, ℕ, List, [], if◌then◌else◌, nat_le, false, Some, None, Option, max, replicate, take, IfOk, IsOk};
ghost use Rattle.std.specs.List.{count_by};
ghost use Rattle.craft_base.specs.Shape.{Shape, members_of};
ghost use Rattle.craft_base.specs.Knowledge as knowledge;
ghost use Rattle.craft_base.specs.Knowledge.{Beat, From, Voted, Matched, Refused, Answered, least_of, votes};
ghost use Rattle.heard_book.specs.Kept.{Hears, Stands};

use crate::window::Window;
use craft_base::{MemberId, OutOfMemory, Shape};
use std::alloc::Global;
use std::marker::Model;

/// The most members that a cluster can have.
pub(crate) const MAX_MEMBERS: usize = 15;

/// What a candidate or a leader knows in its term of the other members: of all that it heard, what is still asked for. It grows
/// with the entries above the settled index alone.
#[derive(Drop)]
pub struct Heard {
    shape: Shape,
    pub(crate) first: u64,
    /// Up to which index each member's log was heard to match, and whether it was.
    pub(crate) matches: [u32; MAX_MEMBERS],
    pub(crate) matched: [bool; MAX_MEMBERS],
    /// The least index that each named in a refusal.
    pub(crate) refused: [Option<u32>; MAX_MEMBERS],
    /// Who granted its vote.
    granted: [bool; MAX_MEMBERS],
    /// Who was heard since the last beat, and since the second last.
    since: [bool; MAX_MEMBERS],
    pub(crate) fresh: [bool; MAX_MEMBERS],
    pub(crate) window: Window,
}

impl Model for Heard {
    ghost use Rattle.heard_book.specs.Kept.{Kept};

    ghost Value = { Kept };

    ghost view = { λ heard. record {
      shape = heard.shape;
      first = heard.first;
      matches = heard.matches;
      matched = heard.matched;
      refused = heard.refused;
      granted = heard.granted;
      since = heard.since;
      fresh = heard.fresh;
      window = heard.window;
    } };
}

impl Heard {
    /// Nothing was heard yet, in a cluster of that shape.
    pub fn new(alloc: Global, shape: &Shape, me: MemberId) -> Result<Heard, OutOfMemory>
        ensures settled { IfOk result (λ new. new.window.settled ≡ 0) }
        ensures nothing { IfOk result (λ new. Stands new shape.now [] 0) }
        ensures succeeds { IsOk result }
    {
        let _ = me;
        Ok(Heard {
            shape: *shape,
            first: 0,
            matches: [0; MAX_MEMBERS],
            matched: [false; MAX_MEMBERS],
            refused: [None; MAX_MEMBERS],
            granted: [false; MAX_MEMBERS],
            since: [false; MAX_MEMBERS],
            fresh: [false; MAX_MEMBERS],
            window: Window::new(alloc),
        })
    }

    /// A leader's tick: who answers from now on is told from who did before.
    pub fn beat(&mut self)
        ensures settled { self.new.window.settled ≡ self.old.window.settled }
        ensures heard { Hears Beat self.old self.new }
    {
        self.fresh = self.since;
        self.since = [false; MAX_MEMBERS];
    }

    /// A member's reply to a candidate.
    pub fn vote(&mut self, from: MemberId, granted: bool)
        ensures settled { self.new.window.settled ≡ self.old.window.settled }
        ensures heard { (last : ℕ) → Hears (From from last (Voted granted)) self.old self.new }
    {
        let place = usize::from(from.number());
        self.granted[place] |= granted;
        self.since[place] = true;
        self.fresh[place] = true;
    }

    /// It begins to lead: from `first` on it sends to those of whose logs nothing is known.
    pub fn lead(&mut self, first: u64, commit: u64)
        ensures settled { self.new.window.settled ≡ max self.old.window.settled commit }
        ensures heard { (shape : Shape) (heard : List knowledge.Heard) (before : ℕ) → Stands self.old shape heard before → Stands self.new shape heard first }
    {
        self.first = first;
        self.window.settle(commit);
    }

    /// A member's log is the node's up to `prev + count`, and it holds whole the entries that the mask names, where the node's
    /// log was as long as that.
    pub fn matched(
        mut self,
        from: MemberId,
        prev: u64,
        count: u8,
        mask: u8,
        last: u64,
    ) -> Result<Heard, OutOfMemory>
        requires { last ≤ 1000000 }
        ensures settled { IfOk result (λ new. new.window.settled ≡ self.window.settled) }
        ensures heard { IfOk result (λ new. Hears (From from last (Matched prev count mask)) self new) }
        ensures in_place { nat_le (prev + count) last ≡ false → IsOk result }
    {
        let place = usize::from(from.number());
        self.since[place] = true;
        self.fresh[place] = true;
        match admitted_end(prev, count, last) {
            None => Ok(self),
            Some(end) => {
                self.matches[place] = self.matches[place].max(end);
                self.matched[place] = true;
                self.window.note_mask(from, prev, mask)?;
                Ok(self)
            }
        }
    }

    /// A member's log isn't the node's; the node may go on from `next`, where its log was as long as that.
    pub fn refused(&mut self, from: MemberId, next: u64, last: u64)
        requires { last ≤ 1000000 }
        ensures settled { self.new.window.settled ≡ self.old.window.settled }
        ensures heard { Hears (From from last (Refused next)) self.old self.new }
    {
        let place = usize::from(from.number());
        self.refused[place] = least_with(self.refused[place], next, last);
        self.since[place] = true;
        self.fresh[place] = true;
    }

    /// A member showed a stretch of its log.
    pub fn answered(&mut self, from: MemberId)
        ensures settled { self.new.window.settled ≡ self.old.window.settled }
        ensures heard { (last : ℕ) → Hears (From from last Answered) self.old self.new }
    {
        let place = usize::from(from.number());
        self.since[place] = true;
        self.fresh[place] = true;
    }

    /// Up to `commit` nobody asks any more who holds which form.
    pub fn settle(&mut self, commit: u64)
        ensures settled { self.new.window.settled ≡ max self.old.window.settled commit }
        ensures heard { (shape : Shape) (heard : List knowledge.Heard) (first : ℕ) → Stands self.old shape heard first → Stands self.new shape heard first }
    {
        self.window.settle(commit);
    }

    /// A candidate's votes, its own among them.
    pub fn votes(&self) -> u8
        ensures { (shape : Shape) (heard : List knowledge.Heard) (first : ℕ) → Stands self.now shape heard first → result ≡ votes shape heard }
    {
        self.count(&self.granted) + 1
    }

    /// How many members of the cluster the flags name.
    pub(crate) fn count(&self, flags: &[bool; MAX_MEMBERS]) -> u8
        ensures value { result ≡ count_by (λ flag. flag) (take (members_of self.now.shape) flags.now) }
        ensures range { result ≤ members_of self.now.shape }
        ensures few { members_of self.now.shape ≤ 15 }
    {
        let members = usize::from(self.shape.members());
        flags[..members].iter().filter(|flag| **flag).count() as u8
    }
}

/// Up to which index a log matches, where the node's own log is that long.
fn admitted_end(prev: u64, count: u8, last: u64) -> Option<u32>
    requires { last ≤ 1000000 }
    ensures { result ≡ (if nat_le (prev + count) last then Some (prev + count) else None) }
{
    if prev > last || u64::from(count) > last - prev {
        return None;
    }
    Some((prev + u64::from(count)) as u32)
}

/// The lesser of what was named in refusals before and `next`, where the node's own log reaches up to it.
fn least_with(known: Option<u32>, next: u64, last: u64) -> Option<u32>
    requires { last ≤ 1000000 }
    ensures { result ≡ least_of (if nat_le next (last + 1) then Some next else None) known }
{
    if next > last + 1 {
        return known;
    }
    let next = next as u32;
    match known {
        None => Some(next),
        Some(least) => Some(next.min(least)),
    }
}
