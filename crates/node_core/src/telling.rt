//! What a member tells of a turn.
ghost use Rattle.std.specs.Prelude.{◌≡◌, ◌++◌, ◌&&◌, ◌==◌, map, IfOk, OnOk};
ghost use Rattle.std.specs.Option.{option_to_list};
ghost use Rattle.entry_frames.specs.declared.output.Output.TheVariants as outputs;
ghost use Rattle.entry_frames.specs.declared.role.Role.TheVariants.{Preparing};
ghost use Rattle.node_core.specs.Telling.{told_of};
ghost use Rattle.node_core.specs.Turns.{change_of, growth_of};
ghost use Rattle.world_model.specs.Turn.{is_same_role, reply_output};

use crate::member::Member;
use craft_base::OutOfMemory;
use entry_frames::{LogView, Message, Output, Role};
use std::alloc::Global;
use world_model::ClientReply;

/// What a member was before a turn, as far as it is told where that changed.
#[derive(Clone, Copy)]
pub(crate) struct Before {
    pub role: Role,
    pub term: u64,
    pub commit: u64,
}

impl Before {
    /// What the member is.
    pub fn of(member: &Member) -> Before
        ensures { result ≡ record { role = member.now.role; term = member.now.store.kept.term; commit = member.now.store.kept.commit } }
    {
        Before {
            role: member.role,
            term: member.store.term(),
            commit: member.store.commit(),
        }
    }

    /// Its role and its term now, where one of them is another.
    pub fn role_change(&self, now: &Member) -> Option<Output>
        ensures { result ≡ change_of self.now.role self.now.term now.now.role now.now.store.kept.term }
    {
        let term = now.store.term();
        if self.role == now.role && self.term == term {
            return None;
        }
        Some(Output::Role {
            role: now.role,
            term,
        })
    }

    /// Whether what was removed was removed in a preparation: it prepared the term in which it still is.
    pub fn prepares(&self, now: &Member) -> bool
        ensures { result ≡ is_same_role self.now.role Preparing && (self.now.term == now.now.store.kept.term) }
    {
        self.role == Role::Preparing && self.term == now.store.term()
    }

    /// Its commit index now, where it grew.
    pub fn commit_change(&self, now: &Member) -> Option<Output>
        ensures { result ≡ growth_of self.now.commit now.now.store.kept.commit }
    {
        let index = now.store.commit();
        if self.commit < index {
            Some(Output::Commit { index })
        } else {
            None
        }
    }
}

/// What changed that is told before what is sent.
#[derive(Drop)]
pub(crate) struct Changes {
    pub role: Option<Output>,
    /// From which indexes on entries were removed, and whether in a preparation.
    pub cuts: Vec<u64>,
    pub prepares: bool,
    /// At which indexes a fragment became whole.
    pub wholes: Vec<u64>,
    pub commit: Option<Output>,
}

/// All that a member tells, in its order. The only error is want of memory.
pub(crate) fn tell(
    alloc: Global,
    changes: Changes,
    replies: Vec<ClientReply>,
    sends: Vec<Message>,
) -> Result<Vec<Output>, OutOfMemory>
    ensures { IfOk result (λ told. told.items ≡ told_of changes ++ (map reply_output replies.items ++ map outputs.Send sends.items)) }
{
    let mut told = Vec::new(alloc);
    tell_some(&mut told, changes.role)?;
    tell_cuts(&mut told, &changes.cuts, changes.prepares)?;
    tell_wholes(&mut told, &changes.wholes)?;
    tell_some(&mut told, changes.commit)?;
    tell_replies(&mut told, replies)?;
    tell_sends(&mut told, sends)?;
    Ok(told)
}

fn tell_some(told: &mut Vec<Output>, output: Option<Output>) -> Result<(), OutOfMemory>
    ensures { OnOk result (told.new.items ≡ told.old.items ++ option_to_list output) }
{
    if let Some(output) = output {
        told.push(output)?;
    }
    Ok(())
}

fn tell_cuts(told: &mut Vec<Output>, cuts: &[u64], prep: bool) -> Result<(), OutOfMemory>
    ensures { OnOk result (told.new.items ≡ told.old.items ++ map (λ index. outputs.Cut index prep) cuts.now) }
{
    for index in cuts {
        told.push(Output::Cut {
            index: *index,
            prep,
        })?;
    }
    Ok(())
}

/// Adds an output for each entry that became whole.
fn tell_wholes(told: &mut Vec<Output>, wholes: &[u64]) -> Result<(), OutOfMemory>
    ensures { OnOk result (told.new.items ≡ told.old.items ++ map outputs.Whole wholes.now) }
{
    for index in wholes {
        told.push(Output::Whole { index: *index })?;
    }
    Ok(())
}

/// Adds a reply for each that a rule makes.
fn tell_replies(told: &mut Vec<Output>, replies: Vec<ClientReply>) -> Result<(), OutOfMemory>
    ensures { OnOk result (told.new.items ≡ told.old.items ++ map reply_output replies.items) }
{
    for reply in replies {
        told.push(Output::Reply {
            place: reply.place,
            client: reply.client,
            seq: reply.seq,
            reply: reply.reply,
        })?;
    }
    Ok(())
}

fn tell_sends(told: &mut Vec<Output>, sends: Vec<Message>) -> Result<(), OutOfMemory>
    ensures { OnOk result (told.new.items ≡ told.old.items ++ map outputs.Send sends.items) }
{
    for message in sends {
        told.push(Output::Send { message })?;
    }
    Ok(())
}
