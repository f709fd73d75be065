//! The two inputs are read line by line, one beside the other.
ghost use Rattle.std.specs.Prelude.{◌≡◌, ◌≤◌, ◌+◌, None, IfOk, IfErr, OnOk, IsTrue, vec_len};
ghost use Rattle.std.specs.Io.KnownBytes.{IsAtEnd};
ghost use Rattle.run_picture.specs.Pictures.{ReadsNoRun};
ghost use Rattle.run_picture.specs.Reading.{ReadsLine, ReadsNoEvent, ReadsNoLine, TakesEvents, TakesNoLine};

use crate::asked::asked_by;
use crate::fault::ReadFault;
use crate::reader::Reader;
use crate::run::Run;
use crate::said::{Said, said_by};
use craft_base::Shape;
use craft_edge::Source;
use line_input::{InputFault, LineEnd, read_line};
use schedule_text::LineFault;
use std::alloc::Global;
use std::str;
use world_model::Verdict;

/// Reads a run: its text to the end, and as many lines of its schedule as the text has events.
pub(crate) fn read_run<S: Source, T: Source>(
    alloc: Global,
    shape: &Shape,
    schedule: &mut S,
    text: &mut T,
) -> Result<Run, ReadFault>
    ensures ended { OnOk result (IsAtEnd (T.left text.new)) }
    ensures failed { IfErr result (ReadsNoRun
        (record { schedule = S.left schedule.old; text = T.left text.old; taken = None; schedule_faults = S.faults schedule.old; text_faults = T.faults text.old; sink_faults = 0 })
        (record { schedule = S.left schedule.new; text = T.left text.new; taken = None; schedule_faults = S.faults schedule.new; text_faults = T.faults text.new; sink_faults = 0 })) }
{
    let mut reader = Reader::new(alloc, shape.members());
    let mut line = Vec::new(alloc);
    let mut asked = Vec::new(alloc);
    for before in 0..u64::MAX {
        let number = before + 1;
        if !has_next_line(text, number, &mut line)? {
            return Ok(reader.into_run());
        }
        take_line(
            alloc,
            shape,
            number,
            &line,
            &mut asked,
            schedule,
            &mut reader,
        )?;
    }
    Err(ReadFault::BadText { line: u64::MAX })
}

/// Reads the next line of the text, which has that number. Answers whether there is one.
fn has_next_line<T: Source>(
    text: &mut T,
    number: u64,
    line: &mut Vec<u8>,
) -> Result<bool, ReadFault>
    ensures read { IfOk result (ReadsLine (T.left text.old) (T.left text.new)) }
    ensures failed { IfErr result (ReadsNoLine number (T.left text.old) (T.left text.new) (T.faults text.old) (T.faults text.new)) }
    ensures later { T.faults text.old ≤ T.faults text.new }
{
    match read_line(text, line) {
        Ok(LineEnd::LineFeed) => Ok(true),
        Ok(LineEnd::End) => Ok(false),
        Ok(LineEnd::Broken) => Err(ReadFault::BadText { line: number }),
        Err(InputFault::SourceFault) => Err(ReadFault::TextFault),
        Err(InputFault::NoMemory) => Err(ReadFault::NoMemory),
    }
}

/// Takes a line of the text, which has that number; where it begins an event, with the next line of the schedule.
fn take_line<S: Source>(
    alloc: Global,
    shape: &Shape,
    number: u64,
    line: &[u8],
    asked: &mut Vec<u8>,
    schedule: &mut S,
    reader: &mut Reader,
) -> Result<(), ReadFault>
    ensures taken { OnOk result (TakesEvents (vec_len reader.old.run.steps) (vec_len reader.new.run.steps) (S.left schedule.old) (S.left schedule.new)) }
    ensures failed { IfErr result (TakesNoLine number (1 + vec_len reader.old.run.steps) (S.left schedule.old) (S.left schedule.new) (S.faults schedule.old) (S.faults schedule.new)) }
    ensures later { S.faults schedule.old ≤ S.faults schedule.new }
{
    let line_text = str::from_utf8(line).unwrap_or("");
    let words: Vec<&str> = line_text.split(' ').collect(alloc)?;
    if take_words(alloc, shape, &words, asked, schedule, reader)? {
        Ok(())
    } else {
        Err(ReadFault::BadText { line: number })
    }
}

/// Takes the words of a line of the text. Answers whether the run can print it there.
fn take_words<S: Source>(
    alloc: Global,
    shape: &Shape,
    words: &[&str],
    asked: &mut Vec<u8>,
    schedule: &mut S,
    reader: &mut Reader,
) -> Result<bool, ReadFault>
    ensures taken { IfOk result (λ good. IsTrue good → TakesEvents (vec_len reader.old.run.steps) (vec_len reader.new.run.steps) (S.left schedule.old) (S.left schedule.new)) }
    ensures failed { IfErr result (ReadsNoEvent (1 + vec_len reader.old.run.steps) (S.left schedule.old) (S.left schedule.new) (S.faults schedule.old) (S.faults schedule.new)) }
    ensures later { S.faults schedule.old ≤ S.faults schedule.new }
{
    match said_by(words) {
        None => Ok(false),
        Some(Said::Event { number, verdict }) => {
            if number != reader.events() as u64 + 1 {
                return Ok(false);
            }
            take_event(alloc, shape, number, verdict, asked, schedule, reader)
        }
        Some(said) => Ok(reader.take_line(alloc, words, &said)?),
    }
}

/// Takes an event that came to that, with the next line of the schedule, which has its number. Answers whether there is such a line, and
/// it can have come to that.
fn take_event<S: Source>(
    alloc: Global,
    shape: &Shape,
    number: u64,
    verdict: Verdict,
    asked: &mut Vec<u8>,
    schedule: &mut S,
    reader: &mut Reader,
) -> Result<bool, ReadFault>
    ensures taken { IfOk result (λ good. IsTrue good → TakesEvents (vec_len reader.old.run.steps) (vec_len reader.new.run.steps) (S.left schedule.old) (S.left schedule.new)) }
    ensures failed { IfErr result (ReadsNoEvent number (S.left schedule.old) (S.left schedule.new) (S.faults schedule.old) (S.faults schedule.new)) }
    ensures later { S.faults schedule.old ≤ S.faults schedule.new }
{
    match read_line(schedule, asked) {
        Ok(LineEnd::LineFeed) => {}
        Ok(LineEnd::End) => return Ok(false),
        Ok(LineEnd::Broken) => return Err(ReadFault::BadSchedule { line: number }),
        Err(InputFault::SourceFault) => return Err(ReadFault::ScheduleFault),
        Err(InputFault::NoMemory) => return Err(ReadFault::NoMemory),
    }
    match schedule_text::read_line(alloc, shape, asked) {
        Ok(read) => {
            let line = str::from_utf8(asked).unwrap_or("");
            Ok(reader.take_event(alloc, line, &asked_by(&read), verdict)?)
        }
        Err(LineFault::Bad) => Err(ReadFault::BadSchedule { line: number }),
        Err(LineFault::OutOfMemory) => Err(ReadFault::NoMemory),
    }
}
