ghost use Rattle.std.specs.Prelude.{◌≡◌, ◌<◌, ◌≤◌, ◌%◌, IfOk, OnErr, OnOk};
ghost use Rattle.craft_base.specs.Shape.{members_of};
ghost use Rattle.storm_gen.specs.Storm.{TakesOneOfNewest, after_line, next_line};
ghost use Rattle.world_model.specs.Spelling.{IsLineOf};

use crate::making::line_by;
use craft_base::{MemberId, OutOfMemory, Shape};
use rand_xoshiro::SplitMix64;
use rand_xoshiro::rand_core::SeedableRng;
use rand_xoshiro::rand_core::utils::NextWord;
use std::alloc::Global;
use std::marker::Model;
use world_model::Line;

/// The most lines of a storm.
pub const MOST_EVENTS: u64 = 100_000;

/// A schedule that a number makes, line by line. The same number makes the same lines, where as many frames were sent.
#[derive(Debug, Drop)]
pub struct Storm {
    shape: Shape,
    words: SplitMix64,
}

impl Model for Storm {
    ghost use Rattle.storm_gen.specs.Storm.{Storm};

    ghost Value = { Storm };

    ghost view = { λ storm. record { shape = storm.shape; state = storm.words } };
}

impl Storm {
    /// The storm of that seed, for a cluster of that shape.
    pub fn new(shape: &Shape, seed: u64) -> Storm
        ensures { result ≡ record { shape = shape.now; state = seed } }
    {
        Storm {
            shape: *shape,
            words: SplitMix64::seed_from_u64(seed),
        }
    }

    /// The next line, the storm's `n`-th, before which that many frames were sent. It is one that a schedule of the cluster can
    /// have. The only error is want of memory, and after it the same words are still to come.
    pub fn next(&mut self, alloc: Global, n: u64, sent: u64) -> Result<Line, OutOfMemory>
        requires { (1 ≤ n) × (n ≤ MOST_EVENTS) }
        ensures line { IfOk result (λ line. line ≡ next_line self.old n sent) }
        ensures range { IfOk result (λ line. IsLineOf self.old.shape line) }
        ensures newest { IfOk result (λ line. TakesOneOfNewest sent line) }
        ensures after { OnOk result (self.new ≡ after_line self.old) }
        ensures kept { OnErr result (self.new ≡ self.old) }
    {
        let mut words = self.words.clone()?;
        let choice = words.next_word() % 100;
        let member = member_by(&self.shape, words.next_word());
        let word = words.next_word();
        let line = line_by(alloc, choice, member, n, sent, word)?;
        self.words = words;
        Ok(line)
    }
}

/// The member that a word chooses.
fn member_by(shape: &Shape, word: u64) -> MemberId
    ensures value { result ≡ word % members_of shape.now }
    ensures range { result < members_of shape.now }
{
    let number = (word % u64::from(shape.members())) as u8;
    let Some(member) = MemberId::new(shape, number) else {
        unreachable!()
    };
    member
}
