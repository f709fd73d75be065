//! The grammar of a schedule's lines.
ghost use Rattle.std.specs.Prelude.{◌≡◌, map, Some, None, IfOk, IfErr};
ghost use Rattle.world_model.specs.Schedule.{line_in, line_of_words, member_of_words, stop_of_words, inner_of_words, tick_line, take_line, call_of};
ghost use Rattle.world_model.specs.Schedule as schedule;
ghost use Rattle.schedule_text.specs.declared.line_fault.LineFault.TheVariants.{Bad};

use crate::line_fault::LineFault;
use craft_base::{MemberId, Request, Shape};
use line_input::{member_of, number, request_in, words};
use std::alloc::{AllocError, Global};
use world_model::{Inner, Line};

/// What a line of a cluster's schedule asks for. The line comes without its line feed.
pub fn read_line(alloc: Global, shape: &Shape, line: &[u8]) -> Result<Line, LineFault>
    // It is the line that the text spells.
    ensures good { IfOk result (λ read. Some read ≡ line_in shape.now line.now) }

    // It is bad only where the text spells no line in range; the only other error is want of memory.
    ensures bad { IfErr result (λ fault. fault ≡ Bad → line_in shape.now line.now ≡ None) }
{
    let words = words(alloc, line)?;
    match line_of(alloc, shape, &words)? {
        Some(read) => Ok(read),
        None => Err(LineFault::Bad),
    }
}

/// What the words of a line say, by the first of them.
fn line_of(alloc: Global, shape: &Shape, words: &[&[u8]]) -> Result<Option<Line>, AllocError>
    ensures { IfOk result (λ line. line ≡ line_of_words shape.now (map (λ word. word.now) words.now)) }
{
    match words {
        [] => Ok(None),
        [name, rest @ ..] => {
            if *name == b"down".as_slice() {
                Ok(member_alone(shape, rest).map(Line::Down))
            } else if *name == b"up".as_slice() {
                Ok(member_alone(shape, rest).map(Line::Up))
            } else if *name == b"show".as_slice() {
                Ok(member_alone(shape, rest).map(Line::Show))
            } else if *name == b"stop".as_slice() {
                stop_of(alloc, shape, rest)
            } else {
                Ok(inner_of(alloc, shape, words)?.map(Line::Do))
            }
        }
    }
}

/// The member that stands alone behind `down`, `up` or `show`.
fn member_alone(shape: &Shape, words: &[&[u8]]) -> Option<MemberId>
    ensures { result ≡ member_of_words shape.now (map (λ word. word.now) words.now) }
{
    match words {
        [member] => member_of(shape, number(member)?),
        _ => None,
    }
}

/// `stop c b e`, by what stands behind `stop`.
fn stop_of(alloc: Global, shape: &Shape, words: &[&[u8]]) -> Result<Option<Line>, AllocError>
    ensures { IfOk result (λ line. line ≡ stop_of_words shape.now (map (λ word. word.now) words.now)) }
{
    match words {
        [call, digit, event @ ..] => {
            let event = inner_of(alloc, shape, event)?;
            Ok(stop_with(number(call), number(digit), event))
        }
        _ => Ok(None),
    }
}

/// A stop in that call: it is 1 to 4, the digit 0 or 1.
fn stop_with(call: Option<u64>, digit: Option<u64>, event: Option<Inner>) -> Option<Line>
    ensures { result ≡ schedule.stop_of call digit event }
{
    let call = call?;
    let digit = digit?;
    let event = event?;
    if call < 1 || call > 4 || digit > 1 {
        return None;
    }
    Some(Line::Stop {
        call: call as u8,
        keep: digit == 1,
        event,
    })
}

/// What the words say that is to happen to a member.
fn inner_of(alloc: Global, shape: &Shape, words: &[&[u8]]) -> Result<Option<Inner>, AllocError>
    ensures { IfOk result (λ inner. inner ≡ inner_of_words shape.now (map (λ word. word.now) words.now)) }
{
    match words {
        [name, member, word] => Ok(tick_of(shape, name, member, word)),
        [name, frame] => Ok(take_of(name, frame)),
        [name, member, client, seq, op, key, value] => {
            if *name != b"call".as_slice() {
                return Ok(None);
            }
            let request = request_in(alloc, client, seq, op, key, value)?;
            Ok(call_with(shape, number(member), request))
        }
        _ => Ok(None),
    }
}

/// `tick i word`: the member is one of the cluster's.
fn tick_of(shape: &Shape, name: &[u8], member: &[u8], word: &[u8]) -> Option<Inner>
    ensures { result ≡ tick_line shape.now name.now member.now word.now }
{
    if name != b"tick".as_slice() {
        return None;
    }
    let member = number(member)?;
    let word = number(word)?;
    let member = member_of(shape, member)?;
    Some(Inner::Tick { member, word })
}

/// `take m`: frames are numbered from 1.
fn take_of(name: &[u8], frame: &[u8]) -> Option<Inner>
    ensures { result ≡ take_line name.now frame.now }
{
    if name != b"take".as_slice() {
        return None;
    }
    let frame = number(frame)?;
    if frame == 0 {
        return None;
    }
    Some(Inner::Take { frame })
}

/// `call i client seq op key value`, by its member and what the client asks for.
fn call_with(shape: &Shape, member: Option<u64>, request: Option<Request>) -> Option<Inner>
    ensures { result ≡ call_of (schedule.member_of shape.now member) request }
{
    let member = member_of(shape, member?)?;
    let request = request?;
    Some(Inner::Call { member, request })
}
