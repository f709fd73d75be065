//! Prepare: a candidate that has won its term makes whole what it holds as parts, or removes it, by what the others hold. Then it
//! leads the term, and adds an empty entry of it.
ghost use Rattle.std.specs.Prelude.{◌≡◌, ◌≤◌, ◌++◌, ◌∷◌, [], List, map, not, if◌then◌else◌, None, Some, IfOk, OnOk};
ghost use Rattle.entry_frames.specs.declared.peer.Peer.TheVariants.{Ask};
ghost use Rattle.entry_frames.specs.declared.role.Role.TheVariants.{Candidate, Leader, Preparing};
ghost use Rattle.leader_prep.specs.Pages.{Page, covers};
ghost use Rattle.leader_prep.specs.Standing as preparation;
ghost use Rattle.node_core.specs.Preparing.{has_moved, preparing_with};
ghost use Rattle.world_model.specs.Nodes.{Node};
ghost use Rattle.world_model.specs.Rules.Acts.{message_of, messages_to_others};
ghost use Rattle.world_model.specs.Rules.Prepare as rule;

use crate::act::Act;
use crate::member::Member;
use craft_base::{Blob, Entry, Form, Head, MemberId, Op, OutOfMemory};
use entry_frames::{EntryView, LAST_PLACE, LogView, RecordView};
use leader_prep::Prep;
use peer_frames::{Message, Peer, Role};
use std::alloc::Global;

impl Act {
    ghost use Rattle.node_core.specs.Acting.{Acts, IsActed, IsFree, IsNode, IsRangedMember};

    /// Prepares to lead the term that it has won. Where it holds nothing as a part above the commit index it leads at once.
    pub(crate) fn prepare(self) -> Result<Act, OutOfMemory>
        requires ranged { IsRangedMember self.member }
        requires candidate { self.member.role ≡ Candidate }
        requires begun { 1 ≤ self.member.store.kept.term }
        ensures { IfOk result (Acts rule.act_of_winning self) }
    {
        self.member.shape.law();
        let prep = self.member.nothing_shown()?;
        match prep.cursor() {
            Some(cursor) => self.prepare_with(prep).ask_all(cursor),
            None => self.lead(),
        }
    }

    /// Goes on with a preparation that had that cursor before: leads where nothing is left to decide, and else asks on where the
    /// cursor moved.
    pub(crate) fn go_on(self, prep: Prep, before: Option<u64>) -> Result<Act, OutOfMemory>
        requires ranged { IsRangedMember self.member }
        requires candidate { self.member.role ≡ Candidate }
        requires begun { 1 ≤ self.member.store.kept.term }
        ensures { IfOk result (λ after. (n : Node) (pages : List Page) → IsNode self.member n →
            preparation.Stands prep n.shape n.me pages (rule.cursor_at n) →
            IsActed (rule.act_of_later before (rule.cursor_at n) (preparing_with pages n)) self after) }
    {
        let Some(cursor) = prep.cursor() else {
            return self.lead();
        };
        let act = self.prepare_with(prep);
        if has_moved(before, cursor) {
            act.ask_on(cursor)
        } else {
            Ok(act)
        }
    }

    /// Prepares with all that it was shown so far.
    fn prepare_with(self, prep: Prep) -> Act
        ensures only { result ≡ record self { member = result.member } }
        ensures store { result.member.store ≡ self.member.store }
        ensures role { result.member.role ≡ Preparing }
        ensures node { (n : Node) (pages : List Page) → IsNode self.member n → preparation.Stands prep n.shape n.me pages (rule.cursor_at n) →
            IsNode result.member (preparing_with pages n) }
    {
        let mut act = self;
        act.member.role = Role::Preparing;
        act.member.prep = Some(prep);
        act
    }

    /// Asks all others, in order, what they hold from an index on.
    pub(crate) fn ask_all(self, start: u64) -> Result<Act, OutOfMemory>
        ensures { IfOk result (Acts (rule.act_of_asking_all start) self) }
    {
        let mut act = self;
        act.member.ask_all(start, &mut act.sends)?;
        Ok(act)
    }

    /// Asks each other member, in order, that hasn't shown what it holds at the cursor.
    fn ask_on(self, cursor: u64) -> Result<Act, OutOfMemory>
        requires { self.member.role ≡ Preparing }
        ensures { IfOk result (λ after. (n : Node) → IsNode self.member n → rule.cursor_at n ≡ Some cursor →
            IsActed (rule.act_of_asking_on cursor n) self after) }
    {
        let mut act = self;
        act.member.ask_on(cursor, &mut act.sends)?;
        Ok(act)
    }

    /// Leads its term.
    fn lead(self) -> Result<Act, OutOfMemory>
        requires ranged { IsRangedMember self.member }
        requires candidate { self.member.role ≡ Candidate }
        requires begun { 1 ≤ self.member.store.kept.term }
        ensures { IfOk result (Acts rule.act_of_leading self) }
    {
        let first = self.member.store.last() + 1;
        let mut act = self.add_noop()?;
        act.member.begin_to_lead(first);
        act.append_to_others()
    }

    /// Adds the empty entry of the term, where the log has room for one.
    fn add_noop(self) -> Result<Act, OutOfMemory>
        requires ranged { IsRangedMember self.member }
        requires begun { 1 ≤ self.member.store.kept.term }
        requires free { IsFree self.member }
        ensures { IfOk result (Acts rule.act_of_noop self) }
    {
        if self.member.store.last() >= LAST_PLACE {
            return Ok(self);
        }
        let noop = noop(self.member.alloc, self.member.store.term());
        let need = self.member.shape.need();
        self.record(&RecordView::Add(EntryView::of(need, &noop)))
    }
}

impl Member {
    ghost use Rattle.node_core.specs.Acting.{Becomes, IsNode};

    /// Its preparation, before it was shown anything. The only error is want of memory.
    fn nothing_shown(&self) -> Result<Prep, OutOfMemory>
        ensures { IfOk result (λ prep. (n : Node) → IsNode self.now n → preparation.Stands prep n.shape n.me [] (rule.cursor_at n)) }
    {
        Prep::begin(self.alloc, &self.store, &self.shape, self.me)
    }

    /// The index that is to be decided next, if there is one.
    pub(crate) fn cursor(&self) -> Option<u64>
        requires { self.now.role ≡ Preparing }
        ensures { (n : Node) → IsNode self.now n → result ≡ rule.cursor_at n }
    {
        match &self.prep {
            Some(prep) => prep.cursor(),
            None => None,
        }
    }

    /// Whether a member has shown what it holds at the cursor.
    fn covers(&self, member: MemberId) -> bool
        requires { self.now.role ≡ Preparing }
        ensures { (n : Node) → IsNode self.now n → result ≡ preparation.covers_cursor n.me n.volatile.pages (rule.cursor_at n) member }
    {
        match &self.prep {
            Some(prep) => prep.covers(member),
            None => true,
        }
    }

    /// Asks all others, in order, what they hold from an index on.
    fn ask_all(&self, start: u64, sends: &mut Vec<Message>) -> Result<(), OutOfMemory>
        ensures { OnOk result ((n : Node) → IsNode self.now n → sends.new.items ≡ sends.old.items ++ messages_to_others n (Ask start)) }
    {
        for number in 0..self.shape.members() {
            if let Some(receiver) = self.other(number) {
                sends.push(self.says(Peer::Ask { start }, receiver))?;
            }
        }
        Ok(())
    }

    /// Asks each other member, in order, that hasn't shown what it holds at the cursor.
    fn ask_on(&self, cursor: u64, sends: &mut Vec<Message>) -> Result<(), OutOfMemory>
        requires { self.now.role ≡ Preparing }
        ensures { OnOk result ((n : Node) → IsNode self.now n → rule.cursor_at n ≡ Some cursor →
            sends.new.items ≡ sends.old.items ++ map (message_of n (Ask cursor)) (rule.uncovering n cursor)) }
    {
        for number in 0..self.shape.members() {
            if let Some(receiver) = self.other(number) {
                self.ask_if_uncovered(cursor, receiver, sends)?;
            }
        }
        Ok(())
    }

    /// Asks a member where it hasn't shown what it holds at the cursor.
    fn ask_if_uncovered(
        &self,
        cursor: u64,
        receiver: MemberId,
        sends: &mut Vec<Message>,
    ) -> Result<(), OutOfMemory>
        requires { self.now.role ≡ Preparing }
        ensures { OnOk result ((n : Node) → IsNode self.now n → rule.cursor_at n ≡ Some cursor →
            sends.new.items ≡ sends.old.items ++ map (message_of n (Ask cursor)) (if not (covers n.me n.volatile.pages cursor receiver) then receiver ∷ [] else [])) }
    {
        if !self.covers(receiver) {
            sends.push(self.says(Peer::Ask { start: cursor }, receiver))?;
        }
        Ok(())
    }

    /// It leads: from `first` on it sends to those of whose logs nothing is known.
    fn begin_to_lead(&mut self, first: u64)
        ensures { Becomes (λ n. record n { volatile = record n.volatile { role = Leader; hint = Some n.me; first = first; pages = []; want = None } }) self.old self.new }
    {
        self.role = Role::Leader;
        self.hint = Some(self.me);
        self.prep = None;
        self.gather = None;
        self.heard.lead(first, self.store.commit());
    }
}

/// Whether the cursor is another than before, when there was one.
fn has_moved(before: Option<u64>, cursor: u64) -> bool
    ensures { result ≡ has_moved before cursor }
{
    match before {
        Some(before) => before != cursor,
        None => false,
    }
}

/// An entry of that term which asks for nothing.
fn noop(alloc: Global, term: u64) -> Entry
    ensures { result ≡ rule.noop term }
{
    Entry {
        term,
        head: Head {
            client: 0,
            seq: 0,
            op: Op::Noop,
            key: Blob::of(Vec::new(alloc)),
            vlen: 0,
        },
        form: Form::Whole(Blob::of(Vec::new(alloc))),
    }
}
