//! How the program ends, and what it says of it.
ghost use Rattle.std.specs.Prelude.{◌≡◌, IfOk};
ghost use Rattle.craft.specs.Statuses.{code_of_status, text_of_status, bad_journal_line, bad_schedule_line, no_answer_line, status_of_asking, status_of_end, status_of_join, status_of_opening, status_of_serving, status_of_split, status_of_storm, too_few_line, wrong_owner_line};

use craft_base::{Blob, OutOfMemory};
use craft_client::ClientFault;
use fragment_text::{JoinEnd, SplitEnd};
use net_node::ServeEnd;
use schedule_replay::ReplayEnd;
use std::alloc::Global;
use storm_run::StormEnd;
use synced_log::{OpenFault, Owner};

/// How the program ends.
#[derive(Clone, Copy, Debug, PartialEq, Eq)]
pub enum Status {
    /// All was done.
    Done,
    /// The words are no command; nothing was read, written or sent.
    BadWords,
    /// The first bad line of the input. The text of the events before it has been written.
    BadSchedule { line: u64 },
    /// The file of the disk of that number is no journal: the offset of the gate at which that shows, or 0 for its header.
    BadJournal { disk: u64, offset: u64 },
    /// The journal is another member's.
    WrongOwner { found: Owner, wanted: Owner },
    /// The input failed.
    SourceFault,
    /// The output failed.
    SinkFault,
    /// The disk of a journal failed.
    DiskFault,
    /// The link failed.
    LinkFault,
    /// `ask`: so many requests were sent, and no reply was final.
    NoAnswer { sent: u64 },
    /// `join`: every line is good, and there are fewer part lines than are needed; their number.
    TooFew { index: u64 },
    /// No memory was left.
    NoMemory,
}

impl From<ReplayEnd> for Status {
    ghost from_gives = { λ end status. status ≡ status_of_end end };

    fn from(end: ReplayEnd) -> Self {
        match end {
            ReplayEnd::End => Status::Done,
            ReplayEnd::Bad { line } => Status::BadSchedule { line },
            ReplayEnd::SourceFault => Status::SourceFault,
            ReplayEnd::SinkFault => Status::SinkFault,
            ReplayEnd::NoMemory => Status::NoMemory,
        }
    }
}

impl From<SplitEnd> for Status {
    ghost from_gives = { λ end status. status ≡ status_of_split end };

    fn from(end: SplitEnd) -> Self {
        match end {
            SplitEnd::End => Status::Done,
            SplitEnd::TooLong => Status::BadSchedule { line: 1 },
            SplitEnd::SourceFault => Status::SourceFault,
            SplitEnd::SinkFault => Status::SinkFault,
            SplitEnd::NoMemory => Status::NoMemory,
        }
    }
}

impl From<JoinEnd> for Status {
    ghost from_gives = { λ end status. status ≡ status_of_join end };

    fn from(end: JoinEnd) -> Self {
        match end {
            JoinEnd::End => Status::Done,
            JoinEnd::Bad { line } => Status::BadSchedule { line },
            JoinEnd::TooFew { index } => Status::TooFew { index },
            JoinEnd::SourceFault => Status::SourceFault,
            JoinEnd::SinkFault => Status::SinkFault,
            JoinEnd::NoMemory => Status::NoMemory,
        }
    }
}

impl From<StormEnd> for Status {
    ghost from_gives = { λ end status. status ≡ status_of_storm end };

    fn from(end: StormEnd) -> Self {
        match end {
            StormEnd::End => Status::Done,
            StormEnd::SinkFault => Status::SinkFault,
            StormEnd::NoMemory => Status::NoMemory,
        }
    }
}

impl From<OpenFault> for Status {
    ghost from_gives = { λ fault status. status ≡ status_of_opening fault };

    fn from(fault: OpenFault) -> Self {
        match fault {
            OpenFault::DiskFault => Status::DiskFault,
            OpenFault::BadJournal(offset) => Status::BadJournal { disk: 0, offset },
            OpenFault::WrongOwner { found, wanted } => Status::WrongOwner { found, wanted },
            OpenFault::OutOfMemory => Status::NoMemory,
        }
    }
}

impl From<ServeEnd> for Status {
    ghost from_gives = { λ end status. status ≡ status_of_serving end };

    fn from(end: ServeEnd) -> Self {
        match end {
            ServeEnd::Turns => Status::Done,
            ServeEnd::SinkFault => Status::SinkFault,
            ServeEnd::DiskFault => Status::DiskFault,
            ServeEnd::LinkFault => Status::LinkFault,
            ServeEnd::NoMemory => Status::NoMemory,
        }
    }
}

impl From<ClientFault> for Status {
    ghost from_gives = { λ fault status. status ≡ status_of_asking fault };

    fn from(fault: ClientFault) -> Self {
        match fault {
            ClientFault::NoAnswer { sent } => Status::NoAnswer { sent },
            ClientFault::LinkFault => Status::LinkFault,
            ClientFault::OutOfMemory => Status::NoMemory,
        }
    }
}

/// The exit code: 0 for `Done`, and a code of its own for each other status.
pub fn code_of(status: &Status) -> u8
    ensures { result ≡ code_of_status status.now }
{
    match status {
        Status::Done => 0,
        Status::BadWords => 2,
        Status::BadSchedule { .. } => 3,
        Status::BadJournal { .. } => 4,
        Status::WrongOwner { .. } => 5,
        Status::SourceFault => 6,
        Status::SinkFault => 7,
        Status::DiskFault => 8,
        Status::LinkFault => 9,
        Status::NoAnswer { .. } => 10,
        Status::TooFew { .. } => 11,
        Status::NoMemory => 12,
    }
}

/// The text on standard error: nothing for `Done`, and one line for each other status. The only error is want of memory.
pub fn text_of(alloc: Global, status: &Status) -> Result<Blob, OutOfMemory>
    ensures { IfOk result (λ text. text ≡ text_of_status status.now) }
{
    match status {
        Status::Done => Blob::copy_of(alloc, b""),
        Status::BadWords => Blob::copy_of(alloc, b"craft: bad words\n"),
        Status::BadSchedule { line } => bad_schedule_text(alloc, *line),
        Status::BadJournal { disk, offset } => bad_journal_text(alloc, *disk, *offset),
        Status::WrongOwner { found, wanted } => wrong_owner_text(alloc, *found, *wanted),
        Status::SourceFault => Blob::copy_of(alloc, b"craft: source failed\n"),
        Status::SinkFault => Blob::copy_of(alloc, b"craft: sink failed\n"),
        Status::DiskFault => Blob::copy_of(alloc, b"craft: disk failed\n"),
        Status::LinkFault => Blob::copy_of(alloc, b"craft: link failed\n"),
        Status::NoAnswer { sent } => no_answer_text(alloc, *sent),
        Status::TooFew { index } => too_few_text(alloc, *index),
        Status::NoMemory => Blob::copy_of(alloc, b"craft: out of memory\n"),
    }
}

fn bad_schedule_text(alloc: Global, line: u64) -> Result<Blob, OutOfMemory>
    ensures { IfOk result (λ text. text ≡ bad_schedule_line line) }
{
    let text = format!(in alloc; "craft: bad schedule at line {line}\n")?;
    Blob::copy_of(alloc, text.as_bytes())
}

fn bad_journal_text(alloc: Global, disk: u64, offset: u64) -> Result<Blob, OutOfMemory>
    ensures { IfOk result (λ text. text ≡ bad_journal_line disk offset) }
{
    let text = format!(in alloc; "craft: bad journal {disk} at byte {offset}\n")?;
    Blob::copy_of(alloc, text.as_bytes())
}

fn wrong_owner_text(alloc: Global, found: Owner, wanted: Owner) -> Result<Blob, OutOfMemory>
    ensures { IfOk result (λ text. text ≡ wrong_owner_line found wanted) }
{
    let text = format!(in alloc; "craft: wrong owner {found}, wanted {wanted}\n")?;
    Blob::copy_of(alloc, text.as_bytes())
}

fn no_answer_text(alloc: Global, sent: u64) -> Result<Blob, OutOfMemory>
    ensures { IfOk result (λ text. text ≡ no_answer_line sent) }
{
    let text = format!(in alloc; "craft: no answer after {sent} sends\n")?;
    Blob::copy_of(alloc, text.as_bytes())
}

fn too_few_text(alloc: Global, index: u64) -> Result<Blob, OutOfMemory>
    ensures { IfOk result (λ text. text ≡ too_few_line index) }
{
    let text = format!(in alloc; "craft: too few at {index}\n")?;
    Blob::copy_of(alloc, text.as_bytes())
}
