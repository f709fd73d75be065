//! Applying: the commit index grows, and the map takes what is committed. A leader tells each client whose request is applied what
//! it came to, or keeps the request where the value that was found is still to be had from others.
ghost use Rattle.std.specs.Prelude.{◌≡◌, ◌+◌, ◌≤◌, ◌<◌, length, ℕ, List, ◌∷◌, ◌++◌, Some, IfOk, OnOk};
ghost use Rattle.std.specs.Option.{option_to_list};
ghost use Rattle.craft_base.specs.declared.command.Entry.{Entry};
ghost use Rattle.craft_base.specs.declared.command.Head.{Head};
ghost use Rattle.entry_frames.specs.Logs.{entry_at};
ghost use Rattle.kv_apply.specs.Commands.{answer};
ghost use Rattle.kv_apply.specs.Services as services;
ghost use Rattle.kv_apply.specs.Services.{count_of};
ghost use Rattle.node_core.specs.Serving.{IsServed, reads_told, reply_told};
ghost use Rattle.world_model.specs.Rules.Applying as rule;

use crate::act::Act;
use crate::member::Member;
use craft_base::{Blob, OutOfMemory, Reply};
use entry_frames::{LogView, RecordView};
use kv_apply::Outcome;
use log_store::LogStore;
use std::alloc::Global;
use world_model::{Called, ClientReply};

impl Act {
    ghost use Rattle.node_core.specs.Acting.{Acts, IsFree};
    ghost use Rattle.node_core.specs.Serving.{Serves};

    /// Commits the log up to an index, where that is above the commit index. The only error is want of memory.
    pub(crate) fn commit_to(self, index: u64) -> Result<Act, OutOfMemory>
        requires within { index ≤ length self.member.store.kept.log }
        requires served { IsServed self.member }
        requires free { IsFree self.member }
        ensures { IfOk result (Acts (rule.act_of_commit index) self) }
    {
        if index <= self.member.store.commit() {
            return Ok(self);
        }
        self.advance(index)
    }

    /// Commits the log up to an index above the commit index.
    fn advance(self, index: u64) -> Result<Act, OutOfMemory>
        requires above { self.member.store.kept.commit < index }
        requires within { index ≤ length self.member.store.kept.log }
        requires served { IsServed self.member }
        requires free { IsFree self.member }
        ensures { IfOk result (Acts (rule.act_of_applying index) self) }
    {
        let act = self.serve(index)?;
        let mut act = act.make(&RecordView::Commit(index))?;
        act.member.heard.settle(index);
        act.member.calls.retain(|call| index < call.index);
        Ok(act)
    }

    /// Applies the entries behind the commit index up to that one, and tells those who wait for them what they come to; who found a
    /// value that is still to be had waits for it.
    fn serve(self, index: u64) -> Result<Act, OutOfMemory>
        requires above { self.member.store.kept.commit < index }
        requires within { index ≤ length self.member.store.kept.log }
        requires served { IsServed self.member }
        ensures { IfOk result (Serves self.member.store.kept.commit index self) }
    {
        let mut act = self;
        for before in act.member.store.commit()..index {
            act = act.serve_one(before + 1)?;
        }
        Ok(act)
    }

    /// Applies the entry at an index.
    fn serve_one(self, index: u64) -> Result<Act, OutOfMemory>
        requires within { index ≤ length self.member.store.kept.log }
        requires next { index ≡ count_of self.member.service + 1 }
        ensures { IfOk result (Serves (count_of self.member.service) index self) }
    {
        let (member, outcome) = self.member.apply_entry(index)?;
        let told = member.reply_at(index, outcome)?;
        let mut act = Act {
            member,
            group: self.group,
            cuts: self.cuts,
            wholes: self.wholes,
            replies: self.replies,
            sends: self.sends,
        };
        act.answer_if_any(told)?;
        act.member.wait_at(index, outcome)?;
        Ok(act)
    }

    /// Tells a client that, behind the others, where there is something to tell.
    fn answer_if_any(&mut self, reply: Option<ClientReply>) -> Result<(), OutOfMemory>
        ensures replies { OnOk result (self.new.replies.items ≡ self.old.replies.items ++ option_to_list reply) }
        ensures rest { OnOk result (self.new ≡ record self.old { replies = self.new.replies }) }
    {
        if let Some(reply) = reply {
            self.replies.push(reply)?;
        }
        Ok(())
    }
}

impl Member {
    /// Applies the entry at an index, and answers what it comes to.
    fn apply_entry(self, index: u64) -> Result<(Member, Outcome), OutOfMemory>
        requires first { 1 ≤ index }
        requires within { index ≤ length self.store.kept.log }
        requires next { index ≡ count_of self.service + 1 }
        ensures rest { IfOk result (λ x. x.0 ≡ record self { service = x.0.service }) }
        ensures count { IfOk result (λ x. count_of x.0.service ≡ index) }
        ensures outcome { IfOk result (λ x. (e : Entry) (heads : List Head) → entry_at self.store.kept.log index ≡ Some e → services.Stands self.service heads → x.1 ≡ answer e.head heads) }
        ensures service { IfOk result (λ x. (e : Entry) (heads : List Head) → entry_at self.store.kept.log index ≡ Some e → services.Stands self.service heads → services.Stands x.0.service (e.head ∷ heads)) }
    {
        let service = self.service;
        let Some(entry) = self.store.at(index) else {
            unreachable!()
        };
        let (service, outcome) = service.apply(index, &entry)?;
        Ok((
            Member {
                alloc: self.alloc,
                shape: self.shape,
                me: self.me,
                store: self.store,
                role: self.role,
                quiet: self.quiet,
                hint: self.hint,
                heard: self.heard,
                prep: self.prep,
                gather: self.gather,
                service,
                calls: self.calls,
                reads: self.reads,
            },
            outcome,
        ))
    }

    /// Keeps the request whose entry has that index, and which came to that, where the value that it found is still to be had.
    fn wait_at(&mut self, index: u64, outcome: Outcome) -> Result<(), OutOfMemory>
        ensures reads { OnOk result (self.new.reads.items ≡ reads_told self.old.store.kept.log outcome (rule.call_at index self.old.calls.items) self.old.reads.items) }
        ensures rest { OnOk result (self.new ≡ record self.old { reads = self.new.reads }) }
    {
        let Some(call) = call_at(&self.calls, index) else {
            return Ok(());
        };
        let version = version_awaited(&self.store, outcome);
        self.wait_for_value(call, version)
    }

    /// Keeps a request that waits for the value of a version, if it waits for one.
    pub(crate) fn wait_for_value(
        &mut self,
        call: Called,
        version: Option<u64>,
    ) -> Result<(), OutOfMemory>
        ensures reads { OnOk result (self.new.reads.items ≡ rule.reads_with call version self.old.reads.items) }
        ensures rest { OnOk result (self.new ≡ record self.old { reads = self.new.reads }) }
    {
        let Some(index) = version else {
            return Ok(());
        };
        self.read(Called {
            index,
            place: call.place,
            client: call.client,
            seq: call.seq,
        })
    }

    /// Keeps a request that waits for a value, in order of clients. An earlier one of its client goes.
    fn read(&mut self, call: Called) -> Result<(), OutOfMemory>
        ensures reads { OnOk result (self.new.reads.items ≡ rule.reading call self.old.reads.items) }
        ensures rest { OnOk result (self.new ≡ record self.old { reads = self.new.reads }) }
    {
        let mut behind = Vec::new(self.alloc);
        behind.extend_from_slice(&self.reads)?;
        behind.retain(|read| call.client < read.client);
        self.reads.retain(|read| read.client < call.client);
        self.reads.push(call)?;
        self.reads.extend_from_slice(&behind)?;
        Ok(())
    }

    /// What is told of the entry at an index, which came to that: nothing where nobody waits for it.
    fn reply_at(&self, index: u64, outcome: Outcome) -> Result<Option<ClientReply>, OutOfMemory>
        ensures { IfOk result (λ reply. reply ≡ reply_told self.now.store.kept.log outcome (rule.call_at index self.now.calls.items)) }
    {
        let Some(call) = call_at(&self.calls, index) else {
            return Ok(None);
        };
        let reply = reply_of(self.alloc, &self.store, outcome)?;
        Ok(reply.map(|reply| reply_to(call, reply)))
    }
}

/// The version whose value an outcome waits for: that which was found, where the log doesn't hold its value whole.
pub(crate) fn version_awaited(store: &LogStore, outcome: Outcome) -> Option<u64>
    ensures { result ≡ rule.version_awaited store.now.kept.log outcome }
{
    match outcome {
        Outcome::Found(version) => if_awaited(store, version),
        Outcome::Done(_)
        | Outcome::Differs(_)
        | Outcome::Gone(_)
        | Outcome::Nothing
        | Outcome::Old => None,
    }
}

/// The version, where the log doesn't hold its value whole.
fn if_awaited(store: &LogStore, version: u64) -> Option<u64>
    ensures { result ≡ rule.awaited version (rule.value_of (entry_at store.now.kept.log version)) }
{
    match store.at(version) {
        Some(entry) if entry.is_whole() => None,
        _ => Some(version),
    }
}

/// The request whose entry has that index, if it isn't answered yet.
fn call_at(calls: &[Called], index: u64) -> Option<Called>
    ensures { result ≡ rule.call_at index calls.now }
{
    for call in calls {
        if call.index == index {
            return Some(*call);
        }
    }
    None
}

/// That reply to a request.
pub(crate) fn reply_to(call: Called, reply: Reply) -> ClientReply
    ensures { result ≡ rule.reply_to call reply }
{
    ClientReply {
        place: call.place,
        client: call.client,
        seq: call.seq,
        reply,
    }
}

/// What an outcome is told as: a value that the log doesn't hold whole can't be told yet. The only error is want of memory.
pub(crate) fn reply_of(
    alloc: Global,
    store: &LogStore,
    outcome: Outcome,
) -> Result<Option<Reply>, OutOfMemory>
    ensures { IfOk result (λ reply. reply ≡ rule.reply_of store.now.kept.log outcome) }
{
    Ok(match outcome {
        Outcome::Done(version) => Some(Reply::Done(version)),
        Outcome::Differs(version) => Some(Reply::Differs(version)),
        Outcome::Gone(was_there) => Some(Reply::Gone(was_there)),
        Outcome::Found(version) => return value_reply(alloc, store, version),
        Outcome::Nothing => Some(Reply::Nothing),
        Outcome::Old => Some(Reply::Old),
    })
}

/// The value of a version, where the log holds it whole.
fn value_reply(alloc: Global, store: &LogStore, version: u64) -> Result<Option<Reply>, OutOfMemory>
    ensures { IfOk result (λ reply. reply ≡ rule.value_reply version (rule.value_of (entry_at store.now.kept.log version))) }
{
    match store.at(version) {
        Some(entry) if entry.is_whole() => {
            let value = Blob::copy_of(alloc, entry.bytes())?;
            Ok(Some(Reply::Value(version, value)))
        }
        _ => Ok(None),
    }
}
