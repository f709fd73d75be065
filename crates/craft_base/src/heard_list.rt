//! A knowledge that keeps all that it heard: small, and for tests alone.
ghost use Rattle.std.specs.Prelude.{◌≡◌, ◌==◌, ◌<◌, ◌^◌};
ghost use Rattle.std.specs.Int.{bit_at};
ghost use Rattle.craft_base.specs.Shape.{members_of};
ghost use Rattle.craft_base.specs.Knowledge.{least_of, least_refused, has_matched, fresh, is_fresh, is_held_whole, match_index, since_beat, before_beat, was_heard};

use crate::{Held, Known, MemberId, Shape};
use std::marker::Model;

/// What was heard; the number after the sender is the last index of the node's log.
#[derive(Clone, Copy, Debug)]
pub enum What {
    Beat,
    Voted(MemberId, u32, bool),
    Matched(MemberId, u32, u32, u8, u8),
    Refused(MemberId, u32, u32),
    Answered(MemberId, u32),
}

/// One thing heard.
#[derive(Debug, Drop)]
pub struct Item {
    what: What,
}

impl Model for Item {
    ghost use Rattle.craft_base.specs.Knowledge.{Heard, Beat, From, Voted, Matched, Refused, Answered};
    ghost use Rattle.craft_base.specs.declared.heard_list.What.TheVariants as whats;

    ghost Value = { Heard };

    ghost view = { λ item. elim item.what as (λ _. Heard) [
      | whats.Beat ↦ Beat
      | whats.Voted sender last granted ↦ From sender last (Voted granted)
      | whats.Matched sender last prev count mask ↦ From sender last (Matched prev count mask)
      | whats.Refused sender last next ↦ From sender last (Refused next)
      | whats.Answered sender last ↦ From sender last Answered
    ] };
}

impl Item {
    ghost use Rattle.std.specs.Prelude.{◌<◌, ◌^◌};
    ghost use Rattle.craft_base.specs.Knowledge.{told_by, is_beat, is_from, is_matched, is_whole_in, matched_to, refused_next};

    pub fn new(what: What) -> Item {
        Item { what }
    }

    fn is_beat(&self) -> bool
        ensures { result ≡ is_beat self.now }
    {
        matches!(&self.what, What::Beat)
    }

    fn is_from(&self, member: MemberId) -> bool
        ensures { result ≡ is_from member self.now }
    {
        match self.what {
            What::Beat => false,
            What::Voted(sender, _, _) => sender == member,
            What::Matched(sender, _, _, _, _) => sender == member,
            What::Refused(sender, _, _) => sender == member,
            What::Answered(sender, _) => sender == member,
        }
    }

    fn is_matched(&self, member: MemberId) -> bool
        ensures { result ≡ is_matched (told_by member self.now) }
    {
        match self.what {
            What::Matched(sender, last, prev, count, _) => {
                sender == member && u64::from(prev) + u64::from(count) <= u64::from(last)
            }
            _ => false,
        }
    }

    fn matched_to(&self, member: MemberId) -> u64
        ensures value { result ≡ matched_to (told_by member self.now) }
        ensures small { result < 2 ^ 33 }
    {
        match self.what {
            What::Matched(sender, last, prev, count, _) => {
                let end = u64::from(prev) + u64::from(count);
                if sender == member && end <= u64::from(last) {
                    end
                } else {
                    0
                }
            }
            _ => 0,
        }
    }

    fn refused_next(&self, member: MemberId) -> Option<u64>
        ensures { result ≡ refused_next (told_by member self.now) }
    {
        match self.what {
            What::Refused(sender, last, next) => {
                if sender == member && u64::from(next) <= u64::from(last) + 1 {
                    Some(u64::from(next))
                } else {
                    None
                }
            }
            _ => None,
        }
    }

    fn is_whole_in(&self, member: MemberId, index: u64) -> bool
        ensures { result ≡ is_whole_in index (told_by member self.now) }
    {
        match self.what {
            What::Matched(sender, last, prev, count, mask) => {
                if sender != member || u64::from(prev) + u64::from(count) > u64::from(last) {
                    return false;
                }
                if index <= u64::from(prev) {
                    return false;
                }
                has_bit(mask, index - (u64::from(prev) + 1))
            }
            _ => false,
        }
    }
}

/// Whether a bit of a mask is set.
fn has_bit(mask: u8, bit: u64) -> bool
    ensures { result ≡ (bit_at mask bit == 1) }
{
    bit < 8 && (mask >> bit) % 2 == 1
}

fn was_heard(items: &[Item], member: MemberId) -> bool
    ensures { result ≡ was_heard member items.now }
{
    match items {
        [] => false,
        [item, rest @ ..] => item.is_from(member) || was_heard(rest, member),
    }
}

fn has_matched(items: &[Item], member: MemberId) -> bool
    ensures { result ≡ has_matched member items.now }
{
    match items {
        [] => false,
        [item, rest @ ..] => item.is_matched(member) || has_matched(rest, member),
    }
}

fn match_index(items: &[Item], member: MemberId) -> u64
    ensures value { result ≡ match_index member items.now }
    ensures small { result < 2 ^ 33 }
{
    match items {
        [] => 0,
        [item, rest @ ..] => item.matched_to(member).max(match_index(rest, member)),
    }
}

fn is_held_whole(items: &[Item], member: MemberId, index: u64) -> bool
    ensures { result ≡ is_held_whole member index items.now }
{
    match items {
        [] => false,
        [item, rest @ ..] => item.is_whole_in(member, index) || is_held_whole(rest, member, index),
    }
}

fn heard_since_beat(items: &[Item], member: MemberId) -> bool
    ensures { result ≡ was_heard member (since_beat items.now) }
{
    match items {
        [] => false,
        [item, rest @ ..] => {
            if item.is_beat() {
                return false;
            }
            item.is_from(member) || heard_since_beat(rest, member)
        }
    }
}

fn heard_before_beat(items: &[Item], member: MemberId) -> bool
    ensures { result ≡ was_heard member (since_beat (before_beat items.now)) }
{
    match items {
        [] => false,
        [item, rest @ ..] => {
            if item.is_beat() {
                return heard_since_beat(rest, member);
            }
            heard_before_beat(rest, member)
        }
    }
}

fn least_refused(items: &[Item], member: MemberId) -> Option<u64>
    ensures { result ≡ least_refused member items.now }
{
    match items {
        [] => None,
        [item, rest @ ..] => least_of(item.refused_next(member), least_refused(rest, member)),
    }
}

fn least_of(first: Option<u64>, second: Option<u64>) -> Option<u64>
    ensures { result ≡ least_of first second }
{
    match (first, second) {
        (None, other) => other,
        (Some(n), None) => Some(n),
        (Some(n), Some(m)) => Some(n.min(m)),
    }
}

fn is_fresh(items: &[Item], member: MemberId) -> bool
    ensures { result ≡ is_fresh member items.now }
{
    heard_since_beat(items, member) || heard_before_beat(items, member)
}

/// How many members are fresh.
fn fresh_of(shape: &Shape, items: &[Item]) -> u8
    ensures { result ≡ fresh shape.now items.now }
{
    let mut fresh = 0;
    for number in 0..shape.members() {
        if is_member_fresh(shape, items, number) {
            fresh += 1;
        }
    }
    fresh
}

fn is_member_fresh(shape: &Shape, items: &[Item], number: u8) -> bool
    requires { number < members_of shape.now }
    ensures { result ≡ is_fresh number items.now }
{
    match MemberId::new(shape, number) {
        Some(member) => is_fresh(items, member),
        None => false,
    }
}

/// All that was heard, the latest first, and the index with which the member began to lead.
#[derive(Debug, Drop)]
pub struct HeardList {
    pub shape: Shape,
    pub items: Vec<Item>,
    pub first: u64,
}

impl Known for HeardList {
    ghost stands = { λ known shape heard first. (shape ≡ known.shape) × (heard ≡ known.items.items) × (first ≡ known.first) };

    ghost settled_to = { λ known. 0 };

    fn match_of(&self, member: MemberId) -> u64 {
        match_index(&self.items, member)
    }

    fn next_of(&self, member: MemberId) -> u64 {
        if has_matched(&self.items, member) {
            return match_index(&self.items, member) + 1;
        }
        least_refused(&self.items, member).unwrap_or(self.first)
    }

    fn form_at(&self, member: MemberId, index: u64) -> Held {
        if is_held_whole(&self.items, member, index) {
            return Held::Whole;
        }
        if index <= match_index(&self.items, member) {
            return Held::Part;
        }
        Held::Nothing
    }

    fn fresh_count(&self) -> u8 {
        fresh_of(&self.shape, &self.items)
    }

    fn settled(&self) -> u64 {
        0
    }
}
