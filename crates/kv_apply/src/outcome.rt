//! What a command comes to.
ghost use Rattle.std.specs.Prelude.{◌≡◌};
ghost use Rattle.kv_apply.specs.Commands.{kept_by, outcome_of};

use craft_base::Op;

/// What a command comes to. A version is the log index of the key's last write; the value of a version is that of the entry
/// at this index.
#[derive(Clone, Copy, Debug, PartialEq, Eq)]
pub enum Outcome {
    /// The write was done, at this version.
    Done(u64),
    /// The condition failed: the key's version is this one, or 0 where it is absent.
    Differs(u64),
    /// The key is gone; whether it was there.
    Gone(bool),
    /// The key's version.
    Found(u64),
    /// The key is absent; or the command was a Noop, which is told to nobody.
    Nothing,
    /// A command of this client with a greater number was applied.
    Old,
}

/// What is kept of a client for a number that it gave to a request.
#[derive(Clone, Copy, Debug, PartialEq, Eq)]
pub enum Kept {
    /// No command of the client with this number or a greater one was applied.
    New,
    /// It is the client's greatest number, and came to this.
    Same(Outcome),
    /// A command of the client with a greater number was applied.
    Old,
}

/// The number of the last command that was carried out for a client, and what it came to.
#[derive(Clone, Copy, Debug)]
pub(crate) struct Last {
    pub number: u64,
    pub outcome: Outcome,
}

/// What an operation comes to at an index, on a key of that version; the version is 0 where the key is absent.
pub(crate) fn outcome_of(op: Op, index: u64, version: u64) -> Outcome
    ensures { result ≡ outcome_of op index version }
{
    match op {
        Op::Noop => Outcome::Nothing,
        Op::Put => Outcome::Done(index),
        Op::PutIf(expected) => {
            if version == expected {
                Outcome::Done(index)
            } else {
                Outcome::Differs(version)
            }
        }
        Op::Del => Outcome::Gone(version != 0),
        Op::Get => {
            if version == 0 {
                Outcome::Nothing
            } else {
                Outcome::Found(version)
            }
        }
    }
}

/// What is kept for a number, by the last command of the client that was carried out.
pub(crate) fn kept_by(seq: u64, last: Option<Last>) -> Kept
    ensures { result ≡ kept_by seq last }
{
    let Some(last) = last else {
        return Kept::New;
    };
    if last.number < seq {
        return Kept::New;
    }
    if seq < last.number {
        return Kept::Old;
    }
    Kept::Same(last.outcome)
}
