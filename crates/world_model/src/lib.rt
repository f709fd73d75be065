//! The definitions of CRaft: the turn of a node, the cluster and its network, a run of events and the text that it
//! prints. They stand in `specs/`, over plain lists and numbers, and over the types that are declared here. No program runs
//! anything of this crate: each function states a law of the definitions as its contract.
#![tactic(auto)]

mod call;
mod limits;
mod line;
mod tally;
mod verdict;

ghost use Rattle.std.specs.Prelude.{◌≡◌, ℕ, ◌<◌, ◌^◌, ◌↔◌, List};
ghost use Rattle.std.specs.Fmt.{decimal};
ghost use Rattle.craft_base.specs.Shape.{Shape};
ghost use Rattle.world_model.specs.Numbers.{number_of};
ghost use Rattle.world_model.specs.Ranges.{EveryReplyHasSpelling, EveryRunInRange, EveryTurnCanBeApplied};
ghost use Rattle.world_model.specs.Schedule.{line_in, reading};
ghost use Rattle.world_model.specs.Spelling.{IsAllGood, IsFirstBad, IsLineOf, IsNumber, SpellsLine};
ghost use Rattle.world_model.specs.Turn.{EveryTurnIsRecorded};
ghost use Rattle.world_model.specs.declared.line.Line.{Line};

pub use call::{Called, ClientReply};
pub use limits::{LONGEST_LINE, MOST_LINES};
pub use line::{Inner, Line};
pub use tally::Tally;
pub use verdict::Verdict;

/// A word is read as a number exactly where it spells that number. Each number below 2^64 has one spelling, the decimal
/// that is printed of it.
pub fn numbers_are_spelled_once()
    ensures read { (word : List ℕ) (n : ℕ) → (number_of word ≡ Some n) ↔ IsNumber word n }
    ensures once { (word : List ℕ) (n : ℕ) → IsNumber word n → word ≡ decimal n }
    ensures each { (n : ℕ) → n < 2 ^ 64 → IsNumber (decimal n) n }
{}

/// A text is read as a line of a schedule exactly where it spells that line and the line's numbers are in range, and so as none
/// where it is outside the grammar. Each line in range has one spelling.
pub fn lines_are_spelled_once()
    ensures read { (shape : Shape) (text : List ℕ) (line : Line) →
        (line_in shape text ≡ Some line) ↔ (SpellsLine text line × IsLineOf shape line) }
    ensures none { (shape : Shape) (text : List ℕ) →
        (line_in shape text ≡ None) ↔ ((line : Line) → SpellsLine text line → IsLineOf shape line → ⊥) }
    ensures once { (text other : List ℕ) (line : Line) → SpellsLine text line → SpellsLine other line → text ≡ other }
    ensures each { (shape : Shape) (line : Line) → IsLineOf shape line → (text : List ℕ) × SpellsLine text line }
{}

/// Which line of a schedule is the first bad one, if any, and what the lines before it say is told by the bytes alone: a
/// line is good where it has its line feed, is at most 70,000 bytes long with it, is among the first 1,000,000 lines and
/// spells an event in range.
pub fn bad_lines_are_told_by_their_bytes()
    ensures good { (shape : Shape) (bytes : List ℕ) (events : List Line) →
        (reading shape bytes ≡ record { events = events; bad = None }) ↔ IsAllGood shape bytes events }
    ensures bad { (shape : Shape) (bytes : List ℕ) (events : List Line) (n : ℕ) →
        (reading shape bytes ≡ record { events = events; bad = Some n }) ↔ IsFirstBad shape bytes events n }
{}

/// What outlives a crash changes by the records of a turn alone, whatever a node is told: applied in order, they leave what the
/// turn makes of its durable part. So whoever has the records has the node, but for what a crash loses.
pub fn every_turn_is_recorded()
    ensures { EveryTurnIsRecorded }
{}

/// Each record of a turn can be applied to what those before it leave, where the node's numbers are in range and a message that
/// comes has a spelling: it enters a later term, casts a vote for a member in a term that had none, adds an entry in order, removes
/// or commits what is in the log and isn't committed, or gives a part the value of its length.
pub fn every_turn_can_be_applied()
    ensures { EveryTurnCanBeApplied }
{}

/// Each reply of a turn can be written as a frame of the cluster, where the node's numbers are in range and a request that comes
/// has a spelling: a version is an index of the log, a value as long as one can be, and the hint a member.
pub fn every_reply_has_a_spelling()
    ensures { EveryReplyHasSpelling }
{}

/// Each message that is sent in a run of a cluster can be written as a frame of that cluster's, whatever the events: no term
/// passes 2^62, no index passes 1,000,000, and messages go from one member to another.
pub fn every_message_has_a_spelling()
    ensures { EveryRunInRange }
{}
