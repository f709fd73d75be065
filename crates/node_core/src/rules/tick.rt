//! Tick: a member that has heard nothing for long enough stands for election; a leader sends to all others, and asks them for the
//! value that it wants.
ghost use Rattle.std.specs.Prelude.{◌≡◌, ◌<◌, [], None, IfOk, OnOk};
ghost use Rattle.craft_base.specs.Knowledge.{Beat};
ghost use Rattle.entry_frames.specs.Limits.{greatest};
ghost use Rattle.entry_frames.specs.declared.role.Role.TheVariants.{Candidate, Leader, Preparing};

use crate::act::Act;
use crate::member::Member;
use craft_base::OutOfMemory;
use entry_frames::RecordView;
use peer_frames::Role;

/// Quiet ticks are counted up to here.
const MOST_QUIET: u64 = 100;

impl Act {
    ghost use Rattle.node_core.specs.Acting.{Acts, IsRangedMember, MaySay};
    ghost use Rattle.world_model.specs.Nodes.{node_hearing};
    ghost use Rattle.world_model.specs.Rules.Acts.{stays};
    ghost use Rattle.world_model.specs.Rules.Prepare.{act_of_asking_again, cursor_at};
    ghost use Rattle.world_model.specs.Rules.Tick.{act_of_beat, act_of_candidacy, act_of_tick, act_of_waiting, waiting_node};

    /// Time passes. `word` chooses how many quiet ticks are enough.
    pub(crate) fn tick(self, word: u64) -> Result<Act, OutOfMemory>
        requires { IsRangedMember self.member }
        ensures { IfOk result (Acts (act_of_tick word) self) }
    {
        match self.member.role {
            Role::Follower | Role::Candidate => self.wait(word),
            Role::Preparing => self.beat().ask_again(),
            Role::Leader => self.beat().append_and_gather(),
        }
    }

    /// Counts a beat, by which it tells who answered since the one before.
    fn beat(self) -> Act
        ensures acts { Acts (λ n. stays (node_hearing Beat n)) self result }
        ensures rest { result.member ≡ record self.member { heard = result.member.heard } }
    {
        let mut act = self;
        act.member.heard.beat();
        act
    }

    /// Sends to all others what each of them lacks, and then asks them for the value that it wants, if it wants one.
    fn append_and_gather(self) -> Result<Act, OutOfMemory>
        requires say { MaySay self.member }
        requires leads { self.member.role ≡ Leader }
        ensures { IfOk result (Acts act_of_beat self) }
    {
        let act = self.append_to_others()?;
        act.gather()
    }

    /// Asks all others again what they hold, from the index on that is to be decided next.
    fn ask_again(self) -> Result<Act, OutOfMemory>
        requires { self.member.role ≡ Preparing }
        ensures { IfOk result (Acts (λ n. act_of_asking_again (cursor_at n) n) self) }
    {
        match self.member.cursor() {
            Some(cursor) => self.ask_all(cursor),
            None => Ok(self),
        }
    }

    /// Counts one more quiet tick, and stands for election where it has waited long enough and a higher term is left.
    fn wait(self, word: u64) -> Result<Act, OutOfMemory>
        ensures { IfOk result (Acts (λ n. act_of_waiting word (waiting_node n)) self) }
    {
        let mut act = self;
        act.member.count_quiet();
        if !election::starts(act.member.quiet, word, act.member.store.term()) {
            return Ok(act);
        }
        let act = act.become_candidate()?;
        act.ask_for_votes()
    }

    /// Becomes a candidate in the next term, with its own vote.
    fn become_candidate(self) -> Result<Act, OutOfMemory>
        requires { self.member.store.kept.term < greatest }
        ensures { IfOk result (Acts act_of_candidacy self) }
    {
        let next = self.member.store.term() + 1;
        let me = self.member.me.number();
        let mut act = self.record(&RecordView::Term(next, Some(me)))?;
        act.member.enter_as_candidate()?;
        Ok(act)
    }
}

impl Member {
    ghost use Rattle.node_core.specs.Acting.{Becomes};
    ghost use Rattle.world_model.specs.Rules.Tick.{waiting_node};

    /// Counts one more quiet tick.
    fn count_quiet(&mut self)
        ensures { Becomes waiting_node self.old self.new }
    {
        self.quiet = self.quiet.saturating_add(1).min(MOST_QUIET);
    }

    /// A candidate in a new term: nobody is known to lead it, and nothing was heard.
    fn enter_as_candidate(&mut self) -> Result<(), OutOfMemory>
        ensures { OnOk result (Becomes (λ n. record n { volatile = record n.volatile { role = Candidate; quiet = 0; hint = None; heard = []; first = 0 } }) self.old self.new) }
    {
        self.role = Role::Candidate;
        self.quiet = 0;
        self.hint = None;
        self.forget()
    }
}
