//! One line, made of what was chosen and a word.
ghost use Rattle.std.specs.Prelude.{◌≡◌, ◌<◌, ◌≤◌, IfOk};
ghost use Rattle.craft_base.specs.Shape.{Shape, members_of};
ghost use Rattle.storm_gen.specs.Storm as storm;
ghost use Rattle.storm_gen.specs.declared.storm.TheConstants.{MOST_EVENTS};
ghost use Rattle.world_model.specs.Calls.{IsRequest};
ghost use Rattle.world_model.specs.Spelling.{IsInnerOf, IsLineOf};

use craft_base::{Blob, MemberId, Op, OutOfMemory, Request};
use std::alloc::Global;
use world_model::{Inner, Line};

/// The line of a choice below 100.
pub fn line_by(
    alloc: Global,
    choice: u64,
    member: MemberId,
    n: u64,
    sent: u64,
    word: u64,
) -> Result<Line, OutOfMemory>
    requires { (1 ≤ n) × (n ≤ MOST_EVENTS) }
    ensures line { IfOk result (λ line. line ≡ storm.line_by choice member n sent word) }
    ensures range { IfOk result (λ line. (shape : Shape) → member < members_of shape → IsLineOf shape line) }
    ensures newest { IfOk result (λ line. storm.TakesOneOfNewest sent line) }
{
    if choice < 30 {
        Ok(Line::Do(tick_by(member, word)))
    } else if choice < 90 {
        Ok(Line::Do(take_by(member, sent, word)))
    } else if choice < 95 {
        let request = request_by(alloc, n, word)?;
        Ok(Line::Do(Inner::Call { member, request }))
    } else if choice == 95 {
        Ok(Line::Down(member))
    } else if choice < 99 {
        Ok(Line::Up(member))
    } else {
        Ok(stop_by(member, word))
    }
}

/// Time passes at the member, which is given one of 8 words.
fn tick_by(member: MemberId, word: u64) -> Inner
    ensures value { result ≡ storm.tick_by member word }
    ensures range { (shape : Shape) → member < members_of shape → IsInnerOf shape result }
{
    Inner::Tick {
        member,
        word: word % 8,
    }
}

/// One of the newest 64 frames, counted back from the last; a tick where none was sent.
fn take_by(member: MemberId, sent: u64, word: u64) -> Inner
    ensures value { result ≡ storm.take_by member sent word }
    ensures range { (shape : Shape) → member < members_of shape → IsInnerOf shape result }
    ensures newest { storm.IsOneOfNewest sent result }
{
    if sent == 0 {
        return tick_by(member, word);
    }
    Inner::Take {
        frame: sent - word % sent.min(64),
    }
}

/// What client 1 to 4 asks for on line n.
fn request_by(alloc: Global, n: u64, word: u64) -> Result<Request, OutOfMemory>
    requires { (1 ≤ n) × (n ≤ MOST_EVENTS) }
    ensures value { IfOk result (λ request. request ≡ storm.request_by n word) }
    ensures range { IfOk result IsRequest }
{
    let op = op_by(word / 4 % 4);
    let key = Blob::copy_of(alloc, &[b'a' + (word / 16 % 8) as u8])?;
    let value = value_by(alloc, op, (word / 128 % 64) as usize, (n % 256) as u8)?;
    Ok(Request {
        client: 1 + word % 4,
        seq: n,
        op,
        key,
        value,
    })
}

/// One of the four operations that a client can ask for.
fn op_by(choice: u64) -> Op
    ensures { result ≡ storm.op_by choice }
{
    if choice == 0 {
        Op::Put
    } else if choice == 1 {
        Op::PutIf(0)
    } else if choice == 2 {
        Op::Del
    } else {
        Op::Get
    }
}

/// The value that goes with an operation: where one is set, the byte that many times.
fn value_by(alloc: Global, op: Op, count: usize, byte: u8) -> Result<Blob, OutOfMemory>
    ensures { IfOk result (λ value. value ≡ storm.value_by op count byte) }
{
    let mut bytes = Vec::new(alloc);
    if matches!(op, Op::Put | Op::PutIf(_)) {
        bytes.resize(count, byte)?;
    }
    Ok(Blob::of(bytes))
}

/// The machine stops as time passes at the member, in one of the four device calls.
fn stop_by(member: MemberId, word: u64) -> Line
    ensures value { result ≡ storm.stop_by member word }
    ensures range { (shape : Shape) → member < members_of shape → IsLineOf shape result }
{
    Line::Stop {
        call: (1 + word % 4) as u8,
        keep: word / 4 % 2 == 1,
        event: tick_by(member, word / 8),
    }
}
