//! What a line of a schedule is about.
use crate::run::Kind;
use world_model::{Inner, Line};

/// What a line of a schedule is about: the event, whose it is, the frame that is taken, and where the machine stops in it.
#[derive(Clone, Copy, Debug, PartialEq, Eq)]
pub(crate) struct Asked {
    pub(crate) kind: Kind,
    /// The member that the line names.
    pub(crate) member: Option<u8>,
    /// The frame that it takes, from 1 on.
    pub(crate) frame: Option<u64>,
    /// The device call at which the machine stops, 1 to 4.
    pub(crate) stop: Option<u8>,
}

/// What the line is about.
pub(crate) fn asked_by(line: &Line) -> Asked {
    match line {
        Line::Do(event) => asked_of(event, None),
        Line::Stop { call, event, .. } => asked_of(event, Some(*call)),
        Line::Down(member) => asked_alone(Kind::Down, member.number()),
        Line::Up(member) => asked_alone(Kind::Up, member.number()),
        Line::Show(member) => asked_alone(Kind::Show, member.number()),
    }
}

/// What a line of a member alone is about.
fn asked_alone(kind: Kind, member: u8) -> Asked {
    Asked {
        kind,
        member: Some(member),
        frame: None,
        stop: None,
    }
}

/// What an event is about in which the machine stops, or doesn't.
fn asked_of(event: &Inner, stop: Option<u8>) -> Asked {
    let (kind, member, frame) = match event {
        Inner::Tick { member, .. } => (Kind::Tick, Some(member.number()), None),
        Inner::Take { frame } => (Kind::Take, None, Some(*frame)),
        Inner::Call { member, .. } => (Kind::Call, Some(member.number()), None),
    };
    Asked {
        kind,
        member,
        frame,
        stop,
    }
}
