//! Call: a client asks. Who doesn't lead says who does, as far as it knows. A leader answers anew what it has answered before; else
//! it adds the request to its log, where there is room for it, and answers when it is applied.
ghost use Rattle.std.specs.Prelude.{◌≡◌, ◌≤◌, ◌<◌, ◌++◌, ◌∷◌, [], length, map, filter, IfOk, OnOk};
ghost use Rattle.craft_base.specs.declared.command.Reply.TheVariants.{Elsewhere};
ghost use Rattle.entry_frames.specs.Formats.{Fits};
ghost use Rattle.entry_frames.specs.Limits.{longest_value};
ghost use Rattle.entry_frames.specs.MessageFields.{request_fields};
ghost use Rattle.entry_frames.specs.declared.role.Role.TheVariants.{Leader};
ghost use Rattle.kv_apply.specs.declared.outcome.Kept.TheVariants as keeps;
ghost use Rattle.node_core.specs.Calling.{is_current, request_act};
ghost use Rattle.world_model.specs.Nodes.{Node};
ghost use Rattle.world_model.specs.Rules.Call as rule;
ghost use Rattle.world_model.specs.Rules.Say.{append_to};

use crate::act::Act;
use crate::member::Member;
use crate::rules::applying::{reply_of, version_awaited};
use craft_base::{Blob, Entry, Form, Head, Known, MemberId, OutOfMemory, Reply, Request};
use entry_frames::{EntryView, LogView, Message, RecordView, Role};
use kv_apply::{Kept, Outcome};
use std::alloc::Global;
use world_model::{Called, ClientReply};

/// A log of so many entries takes no more requests.
const FULL_ENTRIES: u64 = 900_000;

/// A log with so many bytes of values takes no more requests.
const FULL_BYTES: u64 = 500_000_000;

/// While so many entries aren't committed yet, no more are added.
const MOST_OPEN: u64 = 64;

impl Act {
    ghost use Rattle.node_core.specs.Acting.{Acts, IsRangedMember, MaySay};

    /// Takes what a client asks for, at that place.
    pub(crate) fn take_call(self, place: u64, request: &Request) -> Result<Act, OutOfMemory>
        requires fits { Fits request_fields request.now }
        requires ranged { IsRangedMember self.member }
        ensures { IfOk result (Acts (rule.act_of_call place request.now) self) }
    {
        match self.member.role {
            Role::Follower | Role::Candidate => self.refer(place, request),
            Role::Preparing => self.reply(place, request, Reply::Preparing),
            Role::Leader => self.take_request(place, request),
        }
    }

    /// Tells a client who leads, as far as it knows.
    fn refer(self, place: u64, request: &Request) -> Result<Act, OutOfMemory>
        ensures { IfOk result (Acts (λ n. rule.act_of_reply place request.now (Elsewhere n.volatile.hint) n) self) }
    {
        let reply = self.member.elsewhere();
        self.reply(place, request, reply)
    }

    /// Tells a client at once what its request comes to.
    fn reply(self, place: u64, request: &Request, reply: Reply) -> Result<Act, OutOfMemory>
        ensures { IfOk result (Acts (rule.act_of_reply place request.now reply) self) }
    {
        self.answer(reply_for(place, request, reply))
    }

    /// Takes a request as its leader, by what is kept for its number.
    fn take_request(self, place: u64, request: &Request) -> Result<Act, OutOfMemory>
        requires fits { Fits request_fields request.now }
        requires ranged { IsRangedMember self.member }
        requires leads { self.member.role ≡ Leader }
        ensures { IfOk result (Acts (request_act place request.now) self) }
    {
        match self.member.service.kept(request.client, request.seq) {
            Kept::New => self.take_new(place, request),
            Kept::Same(outcome) => self.answer_again(place, request, outcome),
            Kept::Old => self.reply(place, request, Reply::Old),
        }
    }

    /// Answers a request that came before, by what it came to. Where the value that it found is still to be had, it waits for it.
    fn answer_again(
        self,
        place: u64,
        request: &Request,
        outcome: Outcome,
    ) -> Result<Act, OutOfMemory>
        ensures { IfOk result (Acts (rule.act_of_request place request.now (keeps.Same outcome)) self) }
    {
        let reply = reply_of(self.member.alloc, &self.member.store, outcome)?;
        let version = version_awaited(&self.member.store, outcome);
        let mut act = self;
        act.member
            .wait_for_value(call_from(place, request), version)?;
        match reply {
            Some(reply) => act.reply(place, request, reply),
            None => Ok(act),
        }
    }

    /// Takes a request that wasn't answered before, where the log has room for it.
    fn take_new(self, place: u64, request: &Request) -> Result<Act, OutOfMemory>
        requires fits { Fits request_fields request.now }
        requires ranged { IsRangedMember self.member }
        requires leads { self.member.role ≡ Leader }
        ensures { IfOk result (Acts (rule.act_of_new_request place request.now) self) }
    {
        if self.member.is_full() {
            return self.reply(place, request, Reply::Full);
        }
        if self.member.is_busy() {
            return self.reply(place, request, Reply::Busy);
        }
        let act = self.add_request(place, request)?;
        act.append_to_current()
    }

    /// Adds a request to the log. It waits for its answer.
    fn add_request(self, place: u64, request: &Request) -> Result<Act, OutOfMemory>
        requires fits { Fits request_fields request.now }
        requires ranged { IsRangedMember self.member }
        requires leads { self.member.role ≡ Leader }
        requires room { length self.member.store.kept.log < rule.full_entries }
        ensures { IfOk result (Acts (rule.act_of_adding place request.now) self) }
    {
        let mut act = self.add_entry(request)?;
        act.member.wait_for(place, request)?;
        Ok(act)
    }

    /// Adds the entry of a request.
    fn add_entry(self, request: &Request) -> Result<Act, OutOfMemory>
        requires fits { Fits request_fields request.now }
        requires ranged { IsRangedMember self.member }
        requires leads { self.member.role ≡ Leader }
        requires room { length self.member.store.kept.log < rule.full_entries }
        ensures { IfOk result (Acts (rule.act_of_entry request.now) self) }
    {
        let entry = entry_for(self.member.alloc, self.member.store.term(), request)?;
        let need = self.member.shape.need();
        self.record(&RecordView::Add(EntryView::of(need, &entry)))
    }

    /// Sends the last entry to all other members, in order, that have all that was before it.
    fn append_to_current(self) -> Result<Act, OutOfMemory>
        requires { MaySay self.member }
        ensures { IfOk result (Acts rule.act_of_telling self) }
    {
        let mut act = self;
        act.member.append_to_current(&mut act.sends)?;
        Ok(act)
    }
}

impl Member {
    ghost use Rattle.node_core.specs.Acting.{Becomes, IsNode, MaySay};

    /// Who leads, as far as it knows.
    fn elsewhere(&self) -> Reply
        ensures { result ≡ Elsewhere self.now.hint }
    {
        Reply::Elsewhere(self.hint)
    }

    /// Whether the log takes no more requests.
    fn is_full(&self) -> bool
        ensures { result ≡ rule.is_full self.now.store.kept.log }
    {
        self.store.last() >= FULL_ENTRIES || self.store.bulk() >= FULL_BYTES
    }

    /// Whether so much isn't committed yet that no more is added.
    fn is_busy(&self) -> bool
        ensures { result ≡ rule.is_busy self.now.store.kept.commit self.now.store.kept.log }
    {
        self.store.last() - self.store.commit() >= MOST_OPEN
    }

    /// The request whose entry is the last one waits for its answer.
    fn wait_for(&mut self, place: u64, request: &Request) -> Result<(), OutOfMemory>
        ensures { OnOk result (Becomes (λ n. record n { volatile = rule.calling place request.now n }) self.old self.new) }
    {
        self.calls.push(Called {
            index: self.store.last(),
            place,
            client: request.client,
            seq: request.seq,
        })?;
        Ok(())
    }

    /// Sends the last entry to all other members, in order, that have all that was before it.
    fn append_to_current(&self, sends: &mut Vec<Message>) -> Result<(), OutOfMemory>
        requires { MaySay self.now }
        ensures { OnOk result ((n : Node) → IsNode self.now n → sends.new.items ≡ sends.old.items ++ map (append_to n) (rule.up_to_date n)) }
    {
        for number in 0..self.shape.members() {
            if let Some(receiver) = self.other(number) {
                self.append_if_current(receiver, sends)?;
            }
        }
        Ok(())
    }

    /// Sends it to a member that has all that was before it.
    fn append_if_current(
        &self,
        receiver: MemberId,
        sends: &mut Vec<Message>,
    ) -> Result<(), OutOfMemory>
        requires { MaySay self.now }
        ensures { OnOk result ((n : Node) → IsNode self.now n → sends.new.items ≡ sends.old.items ++ map (append_to n) (filter (is_current n) (receiver ∷ []))) }
    {
        if self.heard.next_of(receiver) == self.store.last() {
            sends.push(self.append_to(receiver)?)?;
        }
        Ok(())
    }
}

/// A request that came before, at the place from which it comes now.
fn call_from(place: u64, request: &Request) -> Called
    ensures { result ≡ rule.call_from place request.now }
{
    Called {
        index: 0,
        place,
        client: request.client,
        seq: request.seq,
    }
}

/// That reply to a request, at its place.
fn reply_for(place: u64, request: &Request, reply: Reply) -> ClientReply
    ensures { result ≡ rule.reply_for place request.now reply }
{
    ClientReply {
        place,
        client: request.client,
        seq: request.seq,
        reply,
    }
}

/// The entry of a request in a term, with the whole value. The only error is want of memory.
fn entry_for(alloc: Global, term: u64, request: &Request) -> Result<Entry, OutOfMemory>
    requires { length request.now.value ≤ longest_value }
    ensures { IfOk result (λ entry. entry ≡ rule.entry_for term request.now) }
{
    let value = request.value.as_bytes();
    Ok(Entry {
        term,
        head: Head {
            client: request.client,
            seq: request.seq,
            op: request.op,
            key: Blob::copy_of(alloc, request.key.as_bytes())?,
            vlen: value.len() as u32,
        },
        form: Form::Whole(Blob::copy_of(alloc, value)?),
    })
}
