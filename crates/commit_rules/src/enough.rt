//! Who holds an entry.
ghost use Rattle.std.specs.Prelude.{◌≡◌, ◌<◌, ℕ, List};
ghost use Rattle.craft_base.specs.Knowledge.{Heard};
ghost use Rattle.craft_base.specs.Shape.{members_of};
ghost use Rattle.entry_frames.specs.Logs.{entry_at};
ghost use Rattle.world_model.specs.Quorums as quorums;
ghost use Rattle.world_model.specs.Quorums.{form_of, known_form};

use craft_base::{Held, Known, MemberId, Shape};
use entry_frames::LogView;

/// Whether enough members hold the entry at an index for it to be committed, after the CRaft paper: at least F+1 hold it whole, or at
/// least F+k in some form, the node `me` among them where its own log does.
pub(crate) fn is_enough<K: Known, L: LogView>(
    known: &K,
    log: &L,
    shape: &Shape,
    me: MemberId,
    index: u64,
) -> bool
    requires { K.settled_to known.now < index }
    ensures { (heard : List Heard) (first : ℕ) → K.stands known.now shape.now heard first →
        result ≡ quorums.is_enough shape.now me (L.log log.now).entries heard index }
{
    let mut wholes = 0;
    let mut held = 0;
    for number in 0..shape.members() {
        let form = form_at(known, log, shape, me, index, number);
        if is_held_whole(form) {
            wholes += 1;
        }
        if is_held(form) {
            held += 1;
        }
    }
    wholes >= shape.majority() || held >= shape.coded_quorum()
}

/// Whether that is the whole value.
fn is_held_whole(form: Held) -> bool
    ensures { result ≡ quorums.is_held_whole form }
{
    form == Held::Whole
}

/// Whether that is some form of the entry.
fn is_held(form: Held) -> bool
    ensures { result ≡ quorums.is_held form }
{
    form != Held::Nothing
}

/// In which form a member is known to hold the entry at an index: what the others hold was heard, and what the node `me`
/// itself holds is in its log.
fn form_at<K: Known, L: LogView>(
    known: &K,
    log: &L,
    shape: &Shape,
    me: MemberId,
    index: u64,
    number: u8,
) -> Held
    requires settled { K.settled_to known.now < index }
    requires member { number < members_of shape.now }
    ensures { (heard : List Heard) (first : ℕ) → K.stands known.now shape.now heard first →
        result ≡ known_form me (L.log log.now).entries heard index number }
{
    if number == me.number() {
        return own_form(log, index);
    }
    match MemberId::new(shape, number) {
        Some(member) => known.form_at(member, index),
        None => Held::Nothing,
    }
}

/// In which form the log itself holds the entry at an index.
fn own_form<L: LogView>(log: &L, index: u64) -> Held
    ensures { result ≡ form_of (entry_at (L.log log.now).entries index) }
{
    match log.at(index) {
        Some(entry) => {
            if entry.is_whole() {
                Held::Whole
            } else {
                Held::Part
            }
        }
        None => Held::Nothing,
    }
}
