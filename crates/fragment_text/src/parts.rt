//! The parts of a value, as their lines are read.
ghost use Rattle.std.specs.Prelude.{◌≡◌, ◌≤◌, length};
ghost use Rattle.craft_base.specs.Parts.{part_length};

use crate::digits::decode;
use crate::join_end::JoinEnd;
use craft_base::{OutOfMemory, Shape, part_len};
use line_input::number;
use rs_code::Rebuilder;
use std::alloc::Global;

/// The parts that were read so far. As many of the first as are needed stay, as the registers of a rebuilder; the others
/// are only counted.
#[derive(Drop)]
pub struct Parts {
    rebuilder: Rebuilder,
    need: u8,
    members: u8,
    value_length: usize,
    count: u8,
    /// The least member whose part may come next.
    next: u8,
    /// Room for the bytes of one part.
    bytes: Vec<u8>,
    ghost same_need: { rebuilder.need ≡ need },
    ghost same_length: { rebuilder.value_length ≡ value_length },
    ghost room: { length bytes.items ≡ part_length value_length need },
    ghost few: { count ≤ next },
    ghost within: { next ≤ members },
    ghost most: { members ≤ 15 },
}

impl Parts {
    ghost use Rattle.std.specs.Prelude.{◌≡◌, ◌≤◌, ◌<◌, ◌+◌, map, IfOk, IfErr, IsTrue};
    ghost use Rattle.craft_base.specs.Shape.{Shape};
    ghost use Rattle.entry_frames.specs.Limits.{longest_value};
    ghost use Rattle.world_model.specs.Numbers.{number_of};
    ghost use Rattle.fragment_text.specs.Said.{Said, only_length, part_of_words, part_line_of, rising_member, with_part};
    ghost use Rattle.fragment_text.specs.Kept.{StandsFor, Takes, Rebuilds, RebuildsNone};

    /// No parts of a value of that many bytes.
    pub fn new(alloc: Global, shape: &Shape, value_length: usize) -> Result<Parts, OutOfMemory>
        requires { value_length ≤ longest_value }
        ensures { IfOk result (λ parts. StandsFor shape.now parts (only_length value_length)) }
    {
        let need = shape.need();
        let members = shape.members();
        let rebuilder = Rebuilder::new(alloc, need, value_length)?;
        let bytes = vec![in alloc; 0; part_len(value_length, need)]?;
        Ok(Parts {
            rebuilder,
            need,
            members,
            value_length,
            count: 0,
            next: 0,
            bytes,
        })
    }

    /// How many parts were read.
    pub fn count(&self) -> u8
        ensures { result ≡ self.now.count }
    {
        self.count
    }

    /// Takes the part of a line, by its words. Answers whether they are those of a part that may come next.
    pub fn take(&mut self, words: &[&[u8]]) -> bool
        ensures taken { (shape : Shape) (said : Said) → StandsFor shape self.old said → Takes shape self.new (part_of_words shape said (map (λ word. word.now) words.now)) result }
        ensures rising { IsTrue result → self.old.next < self.new.next }
        ensures limit { self.new.next ≤ 15 }
    {
        match words {
            [name, member, digits] => self.take_part(name, member, digits),
            _ => false,
        }
    }

    /// `part j hex`
    fn take_part(&mut self, name: &[u8], member: &[u8], digits: &[u8]) -> bool
        ensures taken { (shape : Shape) (said : Said) → StandsFor shape self.old said → Takes shape self.new (part_line_of shape said name.now member.now digits.now) result }
        ensures rising { IsTrue result → self.old.next < self.new.next }
        ensures limit { self.new.next ≤ 15 }
    {
        if name != b"part".as_slice() {
            return false;
        }
        let Some(member) = self.member_of(member) else {
            return false;
        };
        if !decode(digits, &mut self.bytes) {
            return false;
        }
        self.keep(member);
        true
    }

    /// The member that a word tells, where its part may come next.
    fn member_of(&self, word: &[u8]) -> Option<u8>
        ensures { result ≡ rising_member self.now.next self.now.members (number_of word.now) }
    {
        let member = number(word)?;
        if member < u64::from(self.next) || member >= u64::from(self.members) {
            return None;
        }
        Some(member as u8)
    }

    /// Counts a member's part, whose bytes stand decoded; the rebuilder takes it while it needs one.
    fn keep(&mut self, member: u8)
        requires later { self.old.next ≤ member }
        requires in_shape { member < self.old.members }
        ensures kept { (shape : Shape) (said : Said) → StandsFor shape self.old said → StandsFor shape self.new (with_part said member self.old.bytes.items) }
        ensures next { self.new.next ≡ member + 1 }
        ensures limit { self.new.next ≤ 15 }
    {
        self.rebuilder.add(member, &self.bytes);
        self.count += 1;
        self.next = member + 1;
    }

    /// The value that the first parts give, where they are enough.
    pub fn value(&self, alloc: Global) -> Result<Vec<u8>, JoinEnd>
        ensures joined { IfOk result (λ value. (shape : Shape) (said : Said) → StandsFor shape self.now said → Rebuilds shape said value.items) }
        ensures failed { IfErr result (λ end. (shape : Shape) (said : Said) → StandsFor shape self.now said → RebuildsNone shape said end) }
    {
        if self.rebuilder.count() < self.need {
            return Err(JoinEnd::TooFew {
                index: u64::from(self.count),
            });
        }
        let mut value = vec![in alloc; 0; self.value_length]?;
        self.rebuilder.write(&mut value);
        Ok(value)
    }
}
