//! The map and what is kept of its clients.
ghost use Rattle.std.specs.Prelude.{◌≡◌, ◌+◌, List, [], ◌∷◌, IfOk, IsOk, true, false};
ghost use Rattle.craft_base.specs.declared.command.Head.{Head};
ghost use Rattle.kv_apply.specs.Commands.{answer, is_effective, kept_of, outcome};
ghost use Rattle.kv_apply.specs.Services.{Stands, count_of};

use crate::outcome::{Kept, Last, Outcome, kept_by, outcome_of};
use crate::versions::Versions;
use craft_base::OutOfMemory;
use entry_frames::{EntryView, OpKind};
use std::alloc::Global;
use std::collections::BTreeMap;

/// The map from keys to versions after the commands of a log, and of each client its greatest number and what that came to. It
/// stands for the list of these commands, and keeps how many they are.
#[derive(Drop)]
pub struct Service {
    alloc: Global,
    count: u64,
    versions: Versions,
    clients: BTreeMap<u64, Last>,
}

impl Service {
    /// No command was applied.
    pub fn new(alloc: Global) -> Service
        ensures count { count_of result ≡ 0 }
        ensures stands { Stands result [] }
    {
        Service {
            alloc,
            count: 0,
            versions: Versions::new(alloc),
            clients: BTreeMap::new(alloc),
        }
    }

    /// Applies the next entry of the log, the one at `index`, and answers what it comes to. The only error is want of memory.
    pub fn apply(
        mut self,
        index: u64,
        entry: &EntryView<'_>,
    ) -> Result<(Service, Outcome), OutOfMemory>
        requires { index ≡ count_of self + 1 }
        ensures count { IfOk result (λ r. count_of r.0 ≡ count_of self + 1) }
        ensures outcome { IfOk result (λ r. (heads : List Head) → Stands self heads → r.1 ≡ answer entry.now.entry.head heads) }
        ensures stands { IfOk result (λ r. (heads : List Head) → Stands self heads → Stands r.0 (entry.now.entry.head ∷ heads)) }

        // What takes no effect takes no memory.
        ensures in_place { (heads : List Head) → Stands self heads → is_effective entry.now.entry.head heads ≡ false → IsOk result }
    {
        if !OpKind::of(entry.op()).is_asked() {
            self.count = index;
            return Ok((self, Outcome::Nothing));
        }
        match self.kept(entry.client(), entry.seq()) {
            Kept::New => self.carry_out(index, entry),
            Kept::Same(outcome) => {
                self.count = index;
                Ok((self, outcome))
            }
            Kept::Old => {
                self.count = index;
                Ok((self, Outcome::Old))
            }
        }
    }

    /// What is kept for the request of that client with that number. It takes no memory.
    pub fn kept(&self, client: u64, seq: u64) -> Kept
        ensures { (heads : List Head) → Stands self.now heads → result ≡ kept_of client seq heads }
    {
        kept_by(seq, self.clients.get(&client).copied())
    }
}

impl Service {
    /// Carries out a command that takes effect.
    fn carry_out(
        mut self,
        index: u64,
        entry: &EntryView<'_>,
    ) -> Result<(Service, Outcome), OutOfMemory>
        requires { index ≡ count_of self + 1 }
        ensures count { IfOk result (λ r. count_of r.0 ≡ count_of self + 1) }
        ensures outcome { IfOk result (λ r. (heads : List Head) → Stands self heads → r.1 ≡ outcome entry.now.entry.head heads) }
        ensures stands { IfOk result (λ r. (heads : List Head) → Stands self heads → is_effective entry.now.entry.head heads ≡ true
            → Stands r.0 (entry.now.entry.head ∷ heads)) }
    {
        let version = self.versions.at(entry.key());
        let outcome = outcome_of(entry.op(), index, version);
        self.versions.follow(self.alloc, entry.key(), outcome)?;
        let last = Last {
            number: entry.seq(),
            outcome,
        };
        self.clients.insert(entry.client(), last)?;
        self.count = index;
        Ok((self, outcome))
    }
}
