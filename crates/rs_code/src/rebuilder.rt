use crate::newton::{Roots, interpolate, with_root};
use craft_base::{OutOfMemory, part_len};
use std::alloc::Global;
use std::marker::Model;

/// What was done with a part.
#[derive(Clone, Copy, Debug, PartialEq, Eq)]
pub enum Added {
    /// It is one of those that rebuild the value.
    Taken,
    /// That member's part was taken before.
    Known,
    /// Enough parts of other members were taken before.
    Enough,
}

/// A value that is rebuilt from k fragments of different members. It borrows each part once, and keeps k registers of a
/// part's length: the coefficients of the polynomials through the parts taken, in Newton's form.
#[derive(Drop)]
pub struct Rebuilder {
    need: u8,
    value_length: usize,
    count: u8,
    members: [u8; 8],
    roots: Roots,
    registers: Vec<u8>,
}

impl Model for Rebuilder {
    ghost use Rattle.rs_code.specs.Rebuilding.{Rebuilding};

    ghost Value = { Rebuilding };

    ghost use Rattle.rs_code.specs.Registers.{rebuilding_of, KeepsParts};

    ghost view = { rebuilding_of };

    ghost invariant = { KeepsParts };
}

impl Rebuilder {
    ghost use Rattle.std.specs.Prelude.{◌≡◌, ◌≤◌, ◌<◌, ℕ, List, [], length, IfOk, All};
    ghost use Rattle.craft_base.specs.Parts.{part_length};
    ghost use Rattle.rs_code.specs.Rebuilding.{Solves, AreFragments};
    ghost use Rattle.rs_code.specs.Answers.{answer_to, kept_after};

    /// No part of a value of `vlen` bytes that `k` fragments rebuild. The only error is want of memory.
    pub fn new(alloc: Global, k: u8, vlen: usize) -> Result<Rebuilder, OutOfMemory>
        requires some_need { 1 ≤ k }
        requires most_need { k ≤ 8 }
        requires small { vlen ≤ 32768 }
        ensures { IfOk result (λ rebuilder.
            rebuilder ≡ record { need = k; value_length = vlen; parts = [] }) }
    {
        let registers = vec![in alloc; 0; part_len(vlen, k) * usize::from(k)]?;
        let mut roots = [0; 9];
        roots[0] = 1;
        Ok(Rebuilder {
            need: k,
            value_length: vlen,
            count: 0,
            members: [0; 8],
            roots,
            registers,
        })
    }

    /// How many parts were taken: at most k.
    pub fn count(&self) -> u8
        ensures value { result ≡ length self.now.parts }
        ensures range { result ≤ self.now.need }
    {
        self.count
    }

    /// Takes a member's part, unless that member's part was taken before, or k parts were.
    pub fn add(&mut self, member: u8, part: &[u8]) -> Added
        requires in_group { member ≤ 14 }
        requires whole { length part.now ≡ part_length self.old.value_length self.old.need }
        ensures answer { result ≡ answer_to self.old member }
        ensures kept { self.new ≡ kept_after result self.old member part.now }
        ensures same_need { self.new.need ≡ self.old.need }
        ensures same_length { self.new.value_length ≡ self.old.value_length }
    {
        let count = usize::from(self.count);
        if self.members[..count].contains(&member) {
            return Added::Known;
        }
        if self.count == self.need {
            return Added::Enough;
        }
        interpolate(&mut self.registers, count, &self.roots, member + 1, part);
        self.roots = with_root(&self.roots, member + 1);
        self.members[count] = member;
        self.count += 1;
        Added::Taken
    }

    /// Writes the one value of that length whose fragments at the members taken are their parts, where there is one.
    pub fn write(&self, out: &mut [u8])
        requires enough { length self.now.parts ≡ self.now.need }
        requires room { length out.old ≡ self.now.value_length }
        ensures solution { Solves self.now out.new }
        ensures only { (other : List ℕ) → Solves self.now other → other ≡ out.new }
        ensures value { (value : List ℕ) → All (λ b. b < 256) value → length value ≡ self.now.value_length →
            AreFragments self.now value → out.new ≡ value }
    {
        out.copy_from_slice(&self.registers[..self.value_length]);
    }
}
