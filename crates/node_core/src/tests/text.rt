//! What a member tells, as text.
use crate::{Output, Turned};
use craft_base::{Form, Reply};
use entry_frames::Batch;
use peer_frames::{Message, Peer};
use std::alloc::Global;
use std::process::Abort;
use std::test::Fail;
use test_text::bytes_of;

/// A letter for each entry: w for a whole one, p for a part.
fn forms_text(alloc: Global, entries: &Batch) -> Result<String, Fail> {
    let mut text = String::new(alloc);
    for n in 0..entries.len() {
        let entry = entries.at(n).ok_or("no such entry")?;
        text.push_str(match entry.form {
            Form::Whole(_) => "w",
            Form::Part(_) => "p",
        })?;
    }
    Ok(text)
}

/// What a member says to another one.
fn said_text(alloc: Global, body: &Peer) -> Result<String, Fail> {
    Ok(match body {
        Peer::Vote { last_term, last } => format!(in alloc; "vote {last_term} {last}")?,
        Peer::VoteReply { granted } => format!(in alloc; "voted {granted}")?,
        Peer::Append {
            prev,
            prev_term,
            commit,
            entries,
        } => {
            let forms = forms_text(alloc, entries)?;
            format!(in alloc; "append {prev} {prev_term} {commit} {forms}")?
        }
        Peer::Matched { prev, count, mask } => format!(in alloc; "matched {prev} {count} {mask}")?,
        Peer::Refused { next } => format!(in alloc; "refused {next}")?,
        Peer::Answer { start, last, slots } => {
            let forms = forms_text(alloc, slots)?;
            format!(in alloc; "answer {start} {last} {forms}")?
        }
        Peer::Ask { start } => format!(in alloc; "ask {start}")?,
    })
}

/// What a client is told.
fn reply_text(alloc: Global, reply: &Reply) -> Result<String, Fail> {
    Ok(match reply {
        Reply::Done(version) => format!(in alloc; "done {version}")?,
        Reply::Differs(version) => format!(in alloc; "differs {version}")?,
        Reply::Gone(was_there) => format!(in alloc; "gone {was_there}")?,
        Reply::Value(version, bytes) => {
            format!(in alloc; "value {version} {:?}", bytes.as_bytes())?
        }
        Reply::Nothing => format!(in alloc; "nothing")?,
        Reply::Old => format!(in alloc; "old")?,
        Reply::Elsewhere(Some(leader)) => format!(in alloc; "elsewhere {}", leader.number())?,
        Reply::Elsewhere(None) => format!(in alloc; "elsewhere")?,
        Reply::Busy => format!(in alloc; "busy")?,
        Reply::Full => format!(in alloc; "full")?,
        Reply::Preparing => format!(in alloc; "preparing")?,
    })
}

/// What a member tells: `reply`, the place, the client and its number before what it is told; `send`, who sends, who receives and the term before what it says, or what changed.
pub(crate) fn told_text(alloc: Global, output: &Output) -> Result<String, Fail> {
    Ok(match output {
        Output::Role { role, term } => format!(in alloc; "role {role:?} {term}")?,
        Output::Cut { index, prep } => format!(in alloc; "cut {index} {prep}")?,
        Output::Whole { index } => format!(in alloc; "whole {index}")?,
        Output::Commit { index } => format!(in alloc; "commit {index}")?,
        Output::Reply {
            place,
            client,
            seq,
            reply,
        } => {
            let told = reply_text(alloc, reply)?;
            format!(in alloc; "reply {place} {client} {seq} {told}")?
        }
        Output::Send {
            message: Message::Peer {
                from,
                to,
                term,
                body,
            },
        } => {
            let said = said_text(alloc, body)?;
            format!(in alloc; "send {} {} {term} {said}", from.number(), to.number())?
        }
        _ => return Err("told by no turn here".into()),
    })
}

/// The turn leaves a group of these bytes, none where nothing is recorded, and tells this.
pub(crate) fn leaves(
    rt: &impl Abort,
    alloc: Global,
    turned: &Turned,
    group: &str,
    told: &[&str],
) -> Result<(), Fail> {
    if group.is_empty() {
        assert!(rt; turned.group.is_empty());
    } else {
        assert_eq!(rt; turned.group.as_bytes(), bytes_of(alloc, group)?.as_slice());
    }
    tells(rt, alloc, turned, told)
}

/// The turn tells this.
pub(crate) fn tells(
    rt: &impl Abort,
    alloc: Global,
    turned: &Turned,
    told: &[&str],
) -> Result<(), Fail> {
    assert_eq!(rt; turned.outputs.len(), told.len());
    for (output, want) in turned.outputs.iter().zip(told) {
        assert_eq!(rt; told_text(alloc, output)?.as_str(), *want);
    }
    Ok(())
}
