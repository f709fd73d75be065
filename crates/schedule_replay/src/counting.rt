//! What happened so far, in numbers.
ghost use Rattle.std.specs.Prelude.{◌≡◌, ◌+◌, max, List};
ghost use Rattle.std.specs.List.{count_by};
ghost use Rattle.craft_base.specs.Shape.{Shape};
ghost use Rattle.world_model.specs.Tallies.{counted, greatest_commit, is_cut, is_reply, tells_leader};
ghost use Rattle.world_model.specs.World.{Member};
ghost use Rattle.schedule_replay.specs.Seats.{AreSeats};

use crate::seat::Seat;
use peer_frames::{Output, Role};
use world_model::Tally;

/// Nothing has happened.
pub const NOTHING: Tally = Tally {
    events: 0,
    frames: 0,
    replies: 0,
    leaders: 0,
    commit: 0,
    cuts: 0,
};

/// The tally after one event more, at which this was told, and after which so many frames are sent and the greatest commit index
/// is that.
pub fn counted_on(tally: &Tally, outputs: &[Output], frames: u64, commit: u64) -> Tally
    ensures events { result.events ≡ counted (tally.now.events + 1) }
    ensures frames { result.frames ≡ frames }
    ensures replies { result.replies ≡ counted (tally.now.replies + count_by is_reply outputs.now) }
    ensures leaders { result.leaders ≡ counted (tally.now.leaders + count_by tells_leader outputs.now) }
    ensures commit { result.commit ≡ commit }
    ensures cuts { result.cuts ≡ counted (tally.now.cuts + count_by is_cut outputs.now) }
{
    Tally {
        events: tally.events.saturating_add(1),
        frames,
        replies: tally.replies.saturating_add(replies_among(outputs)),
        leaders: tally.leaders.saturating_add(leaders_among(outputs)),
        commit,
        cuts: tally.cuts.saturating_add(cuts_among(outputs)),
    }
}

/// How many replies to clients are told.
fn replies_among(outputs: &[Output]) -> u64
    ensures { result ≡ count_by is_reply outputs.now }
{
    let mut count = 0;
    for output in outputs {
        if is_reply(output) {
            count += 1;
        }
    }
    count
}

/// How often a member tells that it leads.
fn leaders_among(outputs: &[Output]) -> u64
    ensures { result ≡ count_by tells_leader outputs.now }
{
    let mut count = 0;
    for output in outputs {
        if tells_leader(output) {
            count += 1;
        }
    }
    count
}

/// How many cuts are told.
fn cuts_among(outputs: &[Output]) -> u64
    ensures { result ≡ count_by is_cut outputs.now }
{
    let mut count = 0;
    for output in outputs {
        if is_cut(output) {
            count += 1;
        }
    }
    count
}

fn is_reply(output: &Output) -> bool
    ensures { result ≡ is_reply output.now }
{
    matches!(output, Output::Reply { .. })
}

fn tells_leader(output: &Output) -> bool
    ensures { result ≡ tells_leader output.now }
{
    matches!(
        output,
        Output::Role {
            role: Role::Leader,
            ..
        }
    )
}

fn is_cut(output: &Output) -> bool
    ensures { result ≡ is_cut output.now }
{
    matches!(output, Output::Cut { .. })
}

/// The greatest commit index on any disk.
pub fn most_committed(seats: &[Seat]) -> u64
    ensures { (shape : Shape) (members : List Member) → AreSeats shape seats.now members → result ≡ greatest_commit members }
{
    let mut most = 0;
    for seat in seats {
        most = greater(most, seat.commit());
    }
    most
}

fn greater(one: u64, other: u64) -> u64
    ensures { result ≡ max one other }
{
    if one < other { other } else { one }
}
