//! What a run was, as its schedule and its text tell it.
use entry_frames::Role;
use world_model::Verdict;

/// What a line of a schedule is.
#[derive(Clone, Copy, Debug, PartialEq, Eq)]
pub(crate) enum Kind {
    Tick,
    Take,
    Call,
    Down,
    Up,
    Show,
}

/// A frame that was sent.
#[derive(Debug, Drop)]
pub(crate) struct Frame {
    /// The event that sent it, counted from 0.
    pub(crate) event: usize,
    pub(crate) from: u8,
    pub(crate) to: u8,
    /// What it says in a word or two: `append`, `voted yes`.
    pub(crate) name: String,
    /// The forms of the entries that it carries, a letter each.
    pub(crate) forms: String,
    /// All its words.
    pub(crate) words: String,
    /// The event that took it first, counted from 0.
    pub(crate) taken: Option<usize>,
}

/// What a member told, but for what it sent.
#[derive(Debug, Drop)]
pub(crate) enum Told {
    Role { role: Role, term: u64 },
    Cut { index: u64 },
    Whole { index: u64 },
    Commit { index: u64 },
    /// A client's number, and what it was told, in few letters.
    Reply { client: u64, words: String },
}

/// An event.
#[derive(Debug, Drop)]
pub(crate) struct Step {
    /// Its line of the schedule, in few letters.
    pub(crate) line: String,
    pub(crate) kind: Kind,
    /// The device call at which the machine stops.
    pub(crate) stop: Option<u8>,
    /// Whose event it is; nobody's where its frame isn't sent.
    pub(crate) member: Option<u8>,
    /// The frame that is taken, counted from 0.
    pub(crate) frame: Option<usize>,
    pub(crate) verdict: Verdict,
    pub(crate) told: Vec<Told>,
    /// The frames that it sent: the first, counted from 0, and behind the last.
    pub(crate) sent: (usize, usize),
    /// Its lines of the text, each in few letters and with its line feed.
    pub(crate) text: String,
}

/// A run, event by event.
#[derive(Debug, Drop)]
pub(crate) struct Run {
    pub(crate) members: u8,
    pub(crate) steps: Vec<Step>,
    pub(crate) frames: Vec<Frame>,
}

impl Run {
    /// The frame that an event takes, where it is carried out.
    pub(crate) fn taken_by(&self, step: &Step) -> Option<&Frame> {
        match step.verdict {
            Verdict::Done | Verdict::Stop => self.frames.get(step.frame?),
            Verdict::NoFrame | Verdict::Skip => None,
        }
    }
}
