//! A run as far as it was read.
ghost use Rattle.std.specs.Prelude.{◌≡◌, ◌+◌, IfOk, IsTrue, vec_len};

use crate::asked::Asked;
use crate::message::{forms_of, name_of};
use crate::run::{Frame, Kind, Run, Step, Told};
use crate::said::Said;
use crate::short::{push_words, short};
use craft_base::OutOfMemory;
use std::alloc::Global;
use world_model::Verdict;

/// The most letters of a line that a pointer shows.
const BEHIND: usize = 160;

/// The most letters of a frame's name and of its forms.
const FACE: usize = 30;

/// The most letters of what a client is told.
const REPLY: usize = 16;

/// The most members of a cluster.
const MAX_MEMBERS: usize = 15;

/// A run as far as it was read, and which of its members run.
#[derive(Debug, Drop)]
pub(crate) struct Reader {
    run: Run,
    runs: [bool; MAX_MEMBERS],
}

impl Reader {
    /// A cluster of so many members that has never run.
    pub(crate) fn new(alloc: Global, members: u8) -> Reader
        ensures { vec_len result.run.steps ≡ 0 }
    {
        Reader {
            run: Run {
                members,
                steps: Vec::new(alloc),
                frames: Vec::new(alloc),
            },
            runs: [true; MAX_MEMBERS],
        }
    }

    /// How many events were read.
    pub(crate) fn events(&self) -> usize
        ensures { result ≡ vec_len self.now.run.steps }
    {
        self.run.steps.len()
    }

    /// The run that was read.
    pub(crate) fn into_run(self) -> Run {
        self.run
    }

    /// Takes an event of a schedule, and what its text says that it came to. Answers whether it can have come to that.
    pub(crate) fn take_event(
        &mut self,
        alloc: Global,
        line: &str,
        asked: &Asked,
        verdict: Verdict,
    ) -> Result<bool, OutOfMemory>
        ensures { IfOk result (λ good. IsTrue good → vec_len self.new.run.steps ≡ vec_len self.old.run.steps + 1) }
    {
        let frame = self.place_of_frame(asked);
        let member = self.member_of(asked, frame);
        if verdict != self.verdict_of(asked, member) {
            return Ok(false);
        }
        let sent = self.run.frames.len();
        self.run.steps.push(Step {
            line: short(alloc, &[line], BEHIND)?,
            kind: asked.kind,
            stop: asked.stop,
            member,
            frame,
            verdict,
            told: Vec::new(alloc),
            sent: (sent, sent),
            text: String::new(alloc),
        })?;
        self.carry_out(asked, member, frame, verdict);
        Ok(true)
    }

    /// The place of the frame that is taken, where it is sent.
    fn place_of_frame(&self, asked: &Asked) -> Option<usize> {
        let place = usize::try_from(asked.frame?.checked_sub(1)?).ok()?;
        if place < self.run.frames.len() {
            Some(place)
        } else {
            None
        }
    }

    /// Whose event it is.
    fn member_of(&self, asked: &Asked, frame: Option<usize>) -> Option<u8> {
        match frame {
            Some(place) => self.run.frames.get(place).map(|frame| frame.to),
            None => asked.member,
        }
    }

    /// Whether a member runs.
    fn has_running(&self, member: u8) -> bool {
        self.runs.get(usize::from(member)).copied().unwrap_or(false)
    }

    /// What an event of that member comes to.
    fn verdict_of(&self, asked: &Asked, member: Option<u8>) -> Verdict {
        let Some(member) = member else {
            return Verdict::NoFrame;
        };
        if self.has_running(member) == (asked.kind == Kind::Up) {
            Verdict::Skip
        } else if asked.stop.is_some() {
            Verdict::Stop
        } else {
            Verdict::Done
        }
    }

    /// What comes of an event: a frame is taken, a member goes down or starts.
    fn carry_out(
        &mut self,
        asked: &Asked,
        member: Option<u8>,
        frame: Option<usize>,
        verdict: Verdict,
    )
        ensures { vec_len self.new.run.steps ≡ vec_len self.old.run.steps }
    {
        if !matches!(verdict, Verdict::Done | Verdict::Stop) {
            return;
        }
        let event = self.run.steps.len().saturating_sub(1);
        if let Some(taken) = frame.and_then(|place| self.run.frames.get_mut(place)) {
            taken.taken = taken.taken.or(Some(event));
        }
        let ends = verdict == Verdict::Stop || asked.kind == Kind::Down;
        let starts = asked.kind == Kind::Up;
        if ends || starts {
            self.set_running(member, starts);
        }
    }

    /// A member goes down or starts.
    fn set_running(&mut self, member: Option<u8>, runs: bool)
        ensures { self.new.run ≡ self.old.run }
    {
        let place = usize::from(member.unwrap_or(0));
        if let Some(place) = self.runs.get_mut(place) {
            *place = runs;
        }
    }

    /// Takes a line that stands below its event. Answers whether the event can have caused it.
    pub(crate) fn take_line(
        &mut self,
        alloc: Global,
        words: &[&str],
        said: &Said,
    ) -> Result<bool, OutOfMemory>
        ensures { IfOk result (λ good. IsTrue good → vec_len self.new.run.steps ≡ vec_len self.old.run.steps) }
    {
        let event = self.run.steps.len().saturating_sub(1);
        let Some(step) = self.run.steps.last_mut() else {
            return Ok(false);
        };
        let sent = self.run.frames.len();
        if !may_cause(step, said) || !is_next(said, sent, self.run.members) {
            return Ok(false);
        }
        if let Some(frame) = sent_by(alloc, event, words, said)? {
            self.run.frames.push(frame)?;
            step.sent.1 = self.run.frames.len();
        }
        if let Some(told) = told_of(alloc, words, said)? {
            step.told.push(told)?;
        }
        push_words(&mut step.text, words, BEHIND)?;
        step.text.push('\n')?;
        Ok(true)
    }
}

/// Whether an event can cause such a line: it was carried out, the line is of its member, and only a `show` shows.
fn may_cause(step: &Step, said: &Said) -> bool {
    let shows = step.kind == Kind::Show;
    let member = step.member.map(u64::from);
    let fits = match said {
        Said::Event { .. } => false,
        Said::Role { member: of, .. }
        | Said::Cut { member: of, .. }
        | Said::Whole { member: of, .. }
        | Said::Commit { member: of, .. }
        | Said::Reply { member: of, .. }
        | Said::Send { from: of, .. } => !shows && member == Some(*of),
        Said::Node { member: of } => shows && step.text.is_empty() && member == Some(*of),
        Said::Entry => shows && !step.text.is_empty(),
    };
    fits && step.verdict == Verdict::Done
}

/// Whether a frame has the number behind those that were sent, and goes to another member. Any other line passes.
fn is_next(said: &Said, sent: usize, members: u8) -> bool {
    match said {
        Said::Send { frame, from, to } => {
            frame.checked_sub(1) == Some(sent as u64) && to < &u64::from(members) && from != to
        }
        _ => true,
    }
}

/// The frame that a line sends, if it sends one.
fn sent_by(
    alloc: Global,
    event: usize,
    words: &[&str],
    said: &Said,
) -> Result<Option<Frame>, OutOfMemory> {
    let Said::Send { from, to, .. } = said else {
        return Ok(None);
    };
    let message = words.get(4..).unwrap_or(&[]);
    Ok(Some(Frame {
        event,
        from: lane_of(*from),
        to: lane_of(*to),
        name: short(alloc, &[name_of(message)], FACE)?,
        forms: short(alloc, &[forms_of(message)], FACE)?,
        words: short(alloc, message, BEHIND)?,
        taken: None,
    }))
}

/// A member's number in a byte.
fn lane_of(member: u64) -> u8 {
    u8::try_from(member).unwrap_or(u8::MAX)
}

/// What a line tells but for what it sends, if it tells something that is drawn.
fn told_of(alloc: Global, words: &[&str], said: &Said) -> Result<Option<Told>, OutOfMemory> {
    match said {
        Said::Role { role, term, .. } => Ok(Some(Told::Role {
            role: *role,
            term: *term,
        })),
        Said::Cut { index, .. } => Ok(Some(Told::Cut { index: *index })),
        Said::Whole { index, .. } => Ok(Some(Told::Whole { index: *index })),
        Said::Commit { index, .. } => Ok(Some(Told::Commit { index: *index })),
        Said::Reply { client, .. } => Ok(Some(Told::Reply {
            client: *client,
            words: short(alloc, words.get(4..).unwrap_or(&[]), REPLY)?,
        })),
        Said::Event { .. } | Said::Send { .. } | Said::Node { .. } | Said::Entry => Ok(None),
    }
}
