//! Want: a leader that holds an entry in part alone, and needs its value, asks the others what they hold of it.
ghost use Rattle.std.specs.Prelude.{◌≡◌, ◌∷◌, ℕ, [], map, None, Some, Option, IfOk};
ghost use Rattle.craft_base.specs.Knowledge.{least_of};
ghost use Rattle.entry_frames.specs.declared.role.Role.TheVariants.{Leader};
ghost use Rattle.node_core.specs.Acting.{IsNode, MaySay};
ghost use Rattle.node_core.specs.Stands.{IsGathering, IsWanted};
ghost use Rattle.node_core.specs.Wanting.{IsWant, wanted_among};
ghost use Rattle.world_model.specs.Nodes.{Node};
ghost use Rattle.world_model.specs.Rules.Acts.{others};
ghost use Rattle.world_model.specs.Rules.Prepare.{act_of_asking_again};
ghost use Rattle.world_model.specs.Rules.Say.{start_of};
ghost use Rattle.world_model.specs.Rules.Want as rule;

use crate::act::Act;
use crate::member::Member;
use craft_base::OutOfMemory;
use entry_frames::LogView;
use gather_read::Gather;
use peer_frames::Role;
use world_model::Called;

impl Act {
    ghost use Rattle.node_core.specs.Acting.{Acts, IsRangedMember};

    /// Asks all others for the value that a leader wants, where it wants another one than before.
    pub(crate) fn want(self) -> Result<Act, OutOfMemory>
        requires { IsRangedMember self.member }
        ensures { IfOk result (Acts rule.act_of_want self) }
    {
        match self.member.role {
            Role::Leader => self.want_if_new(),
            Role::Follower | Role::Candidate | Role::Preparing => Ok(self),
        }
    }

    /// Asks all others for the value that it wants, where that is another one than before.
    fn want_if_new(self) -> Result<Act, OutOfMemory>
        requires say { MaySay self.member }
        requires leads { self.member.role ≡ Leader }
        ensures { IfOk result (Acts (rule.act_of_want_as Leader) self) }
    {
        let want = self.member.wanted();
        if is_same_want(self.member.gathered(), want) {
            return Ok(self);
        }
        self.want_anew(want)
    }

    /// Asks all others for the value that it wants, if it wants one.
    pub(crate) fn gather(self) -> Result<Act, OutOfMemory>
        requires say { MaySay self.member }
        requires leads { self.member.role ≡ Leader }
        ensures { IfOk result (Acts rule.act_of_gathering self) }
    {
        let want = self.member.wanted();
        if is_same_want(self.member.gathered(), want) {
            return self.ask_if_any(want);
        }
        self.want_anew(want)
    }

    /// Wants that from now on, of which nothing was shown yet, and asks all others for it.
    fn want_anew(self, want: Option<u64>) -> Result<Act, OutOfMemory>
        requires say { MaySay self.member }
        requires leads { self.member.role ≡ Leader }
        requires want { IsWant self.member want }
        ensures { IfOk result (Acts (λ n. rule.act_of_new_want (rule.want_of n) n) self) }
    {
        let gather = self.member.gathering_of(want)?;
        let mut act = self;
        act.member.gather = gather;
        act.ask_if_any(want)
    }

    /// Asks all others, in order, what they hold from an index on, if there is one.
    fn ask_if_any(self, want: Option<u64>) -> Result<Act, OutOfMemory>
        ensures { IfOk result (Acts (act_of_asking_again want) self) }
    {
        match want {
            Some(index) => self.ask_all(index),
            None => Ok(self),
        }
    }
}

impl Member {
    /// The index that it wants so far, if it wants one.
    fn gathered(&self) -> Option<u64>
        requires { self.now.role ≡ Leader }
        ensures { (n : Node) → IsNode self.now n → result ≡ n.volatile.want }
    {
        match &self.gather {
            Some(gather) => Some(gather.index()),
            None => None,
        }
    }

    /// The index that it wants now, if it wants one: the least that it holds as a part and somebody waits for.
    fn wanted(&self) -> Option<u64>
        requires { MaySay self.now }
        ensures { IsWant self.now result }
    {
        let first = self.wanted_by_readers(&self.reads);
        self.wanted_by_others(first)
    }

    /// The least version of these reads that it holds as a part, if there is one.
    fn wanted_by_readers(&self, reads: &[Called]) -> Option<u64>
        ensures { result ≡ wanted_among self.now.store.kept.log (map (λ r. r.index) reads.now) }
    {
        let mut want = None;
        for read in reads {
            want = least_of(want, self.if_part(read.index));
        }
        want
    }

    /// The least of that index and of those from which on other members are sent entries and which it holds as a part.
    fn wanted_by_others(&self, first: Option<u64>) -> Option<u64>
        requires { MaySay self.now }
        ensures { (n : Node) → IsNode self.now n → result ≡ least_of first (wanted_among n.durable.log (map (start_of n) (others n))) }
    {
        let mut want = first;
        for number in 0..self.shape.members() {
            if let Some(receiver) = self.other(number) {
                want = least_of(want, self.if_part(self.start_for(receiver)));
            }
        }
        want
    }

    /// The index, where it holds the entry there as a part.
    fn if_part(&self, index: u64) -> Option<u64>
        ensures { result ≡ wanted_among self.now.store.kept.log (index ∷ []) }
    {
        match self.store.at(index) {
            Some(entry) if !entry.is_whole() => Some(index),
            _ => None,
        }
    }

    /// What it knows of what it wants, if it wants something, before it was shown anything. The only error is want of memory.
    fn gathering_of(&self, want: Option<u64>) -> Result<Option<Gather>, OutOfMemory>
        requires say { MaySay self.now }
        requires want { IsWant self.now want }
        ensures { IfOk result (λ gather. (n : Node) → IsNode self.now n → IsGathering Leader gather n.shape n.me n.durable.log [] want) }
    {
        match want {
            Some(index) => Ok(Some(self.gather_for(index)?)),
            None => Ok(None),
        }
    }

    /// What it knows of the value at an index before it was shown anything. The only error is want of memory.
    fn gather_for(&self, index: u64) -> Result<Gather, OutOfMemory>
        requires say { MaySay self.now }
        requires want { IsWant self.now (Some index) }
        ensures { IfOk result (λ gather. (n : Node) → IsNode self.now n → IsWanted gather n.shape n.me n.durable.log [] (Some index)) }
    {
        let Some(own) = self.store.at(index) else {
            unreachable!()
        };
        Gather::want(self.alloc, &self.shape, self.me, index, &own)
    }
}

/// The lesser of two indexes, or the only one.
fn least_of(one: Option<u64>, other: Option<u64>) -> Option<u64>
    ensures { result ≡ least_of one other }
{
    match (one, other) {
        (Some(one), Some(other)) => Some(one.min(other)),
        (Some(index), None) | (None, Some(index)) => Some(index),
        (None, None) => None,
    }
}

/// Whether two wants are one.
fn is_same_want(one: Option<u64>, other: Option<u64>) -> bool
    ensures { result ≡ rule.is_same_want one other }
{
    match (one, other) {
        (Some(one), Some(other)) => one == other,
        (None, None) => true,
        _ => false,
    }
}
