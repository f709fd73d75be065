//! The lines of a run's text, by their words.
use crate::message::is_message;
use crate::reply::is_reply;
use crate::words::{are_digits_of_bytes, is_member_or_none, is_op, number};
use entry_frames::Role;
use world_model::Verdict;

/// What a line of a run's text says.
#[derive(Clone, Copy, Debug, PartialEq, Eq)]
pub(crate) enum Said {
    /// An event, and what it came to.
    Event { number: u64, verdict: Verdict },
    /// A member's role or its term changed.
    Role { member: u64, role: Role, term: u64 },
    /// A member removed its entries from that index on.
    Cut { member: u64, index: u64 },
    /// What a member held as a fragment became whole.
    Whole { member: u64, index: u64 },
    /// A member committed up to that index.
    Commit { member: u64, index: u64 },
    /// A member tells a client something, by the words behind the fourth.
    Reply { member: u64, client: u64 },
    /// A member sends a frame, which says the words behind the fourth.
    Send { frame: u64, from: u64, to: u64 },
    /// What outlives a crash of a member.
    Node { member: u64 },
    /// An entry of its log.
    Entry,
}

/// What the words of a line say; nothing where no run has such a line.
pub(crate) fn said_by(words: &[&str]) -> Option<Said> {
    match words {
        [event, verdict] => said_of_event(event, verdict),
        ["role", member, role, term] => Some(Said::Role {
            member: number(member)?,
            role: role_named(role)?,
            term: number(term)?,
        }),
        ["cut", member, index, "prep" | "lead"] => Some(Said::Cut {
            member: number(member)?,
            index: number(index)?,
        }),
        ["whole", member, index] => Some(Said::Whole {
            member: number(member)?,
            index: number(index)?,
        }),
        ["commit", member, index] => Some(Said::Commit {
            member: number(member)?,
            index: number(index)?,
        }),
        ["reply", member, client, seq, reply @ ..] => said_of_reply(member, client, seq, reply),
        ["send", frame, from, to, message @ ..] => said_of_frame(frame, from, to, message),
        ["node", rest @ ..] => said_of_node(rest),
        ["entry", rest @ ..] => said_of_entry(rest),
        _ => None,
    }
}

/// `n verdict`.
fn said_of_event(event: &str, verdict: &str) -> Option<Said> {
    let verdict = match verdict {
        "done" => Verdict::Done,
        "none" => Verdict::NoFrame,
        "skip" => Verdict::Skip,
        "stop" => Verdict::Stop,
        _ => return None,
    };
    Some(Said::Event {
        number: number(event)?,
        verdict,
    })
}

/// The role of that name.
fn role_named(name: &str) -> Option<Role> {
    match name {
        "follower" => Some(Role::Follower),
        "candidate" => Some(Role::Candidate),
        "preparing" => Some(Role::Preparing),
        "leader" => Some(Role::Leader),
        _ => None,
    }
}

/// `reply i client seq` and the reply.
fn said_of_reply(member: &str, client: &str, seq: &str, reply: &[&str]) -> Option<Said> {
    let _ = number(seq)?;
    if !is_reply(reply) {
        return None;
    }
    Some(Said::Reply {
        member: number(member)?,
        client: number(client)?,
    })
}

/// `send m from to` and the message.
fn said_of_frame(frame: &str, from: &str, to: &str, message: &[&str]) -> Option<Said> {
    if !is_message(message) {
        return None;
    }
    Some(Said::Send {
        frame: number(frame)?,
        from: number(from)?,
        to: number(to)?,
    })
}

/// `node i term vote last commit`, by what stands behind `node`.
fn said_of_node(words: &[&str]) -> Option<Said> {
    let [member, term, vote, last, commit] = words else {
        return None;
    };
    let _ = (number(term)?, number(last)?, number(commit)?);
    if !is_member_or_none(vote) {
        return None;
    }
    Some(Said::Node {
        member: number(member)?,
    })
}

/// `entry index term form op client seq key vlen bytes`, by what stands behind `entry`.
fn said_of_entry(words: &[&str]) -> Option<Said> {
    let [index, term, "w" | "p", op, client, seq, key, length, bytes] = words else {
        return None;
    };
    let _ = (number(index)?, number(term)?, number(client)?);
    let _ = (number(seq)?, number(length)?);
    if !is_op(op) || !are_digits_of_bytes(key) || !are_digits_of_bytes(bytes) {
        return None;
    }
    Some(Said::Entry)
}
