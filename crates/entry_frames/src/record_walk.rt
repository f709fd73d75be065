//! A walk over the records of a body.
ghost use Rattle.std.specs.Prelude.{◌≡◌, ◌≤◌, length, drop, IfOk, IfErr};
ghost use Rattle.entry_frames.specs.Bodies.{IsNext, IsFirst, NoneFirst};
ghost use Rattle.entry_frames.specs.RecordViews.{record_of, HasK};
ghost use Rattle.entry_frames.specs.Views.{IsK};

use crate::fault::FrameFault;
use crate::record_view::RecordView;
use std::marker::Model;

/// The records of a body that are left, seen where they lie.
#[derive(Drop)]
pub struct RecordWalk<'a> {
    k: u8,
    rest: &'a [u8],
}

impl<'a> Model for RecordWalk<'a> {
    ghost use Rattle.entry_frames.specs.Bodies.{BodyLeft};
    ghost use Rattle.entry_frames.specs.Views.{IsK};

    ghost Value = { BodyLeft };

    ghost view = { λ w. record { k = w.k; rest = w.rest.now } };

    ghost invariant = { λ w. IsK w.k };
}

impl<'a> RecordWalk<'a> {
    /// A walk over all records of a body, where k fragments rebuild a value.
    pub fn of(k: u8, body: &'a [u8]) -> RecordWalk<'a>
        requires { IsK k }
        ensures k { result.k ≡ k }
        ensures rest { result.rest ≡ body.now }
    {
        RecordWalk { k, rest: body }
    }

    /// Takes the next record off: `None` exactly at the end of the body, and a fault exactly where what is left doesn't begin
    /// with a record.
    pub fn next(&mut self) -> Option<Result<RecordView<'a>, FrameFault>>
        ensures k { self.new.k ≡ self.old.k }
        ensures next { IsNext self.old.k self.old.rest self.new.rest result }
    {
        if self.rest.is_empty() {
            return None;
        }
        match first_of(self.k, self.rest) {
            Err(fault) => Some(Err(fault)),
            Ok((view, len)) => {
                self.rest = &self.rest[len..];
                Some(Ok(view))
            }
        }
    }
}

/// The record with which the bytes begin, and how many bytes it takes.
fn first_of(k: u8, bytes: &[u8]) -> Result<(RecordView<'_>, usize), FrameFault>
    requires { IsK k }
    ensures none { IfErr result (λ _. NoneFirst k bytes.now) }
    ensures need { IfOk result (λ x. HasK k x.0) }
    ensures first { IfOk result (λ x. (x.1 ≤ length bytes.now) × IsFirst k bytes.now (record_of x.0) (drop x.1 bytes.now)) }
{
    RecordView::read(k, bytes)
}
