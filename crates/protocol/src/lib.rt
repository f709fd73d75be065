//! The replication protocol over members, terms and log entries, without datagrams, bytes, ticks or printed lines, and the
//! laws that make it safe. Nothing here runs: each function states a law as its contract, over every run of moves from the
//! start. `specs/` has the definitions: `History` is the state, `Moves` what may happen, `Laws` what each function says.
//! `docs/proofs/PROTOCOL.md` tells the argument.
#![tactic(auto)]

ghost use Rattle.protocol.specs.Laws.{CommitsAreDecided, CommitsGrow, CutStaysUndecided, DecidedStaysUncut, FrontsAgree, FrontsStay, HistoryGrows, IsRebuilt, OneLeader, OneWinner, OthersStay, SomeRunCuts, SomeRunDecides};

/// A term is won by one member at most, and two members that lead have different terms (Raft's election safety).
pub fn one_leader_a_term()
    ensures winner { OneWinner }
    ensures leader { OneLeader }
{}

/// Of two decided fronts, one decided at the same time as the other or earlier, one is a front of the other.
pub fn decided_fronts_agree()
    ensures { FrontsAgree }
{}

/// A decided front is one for ever.
pub fn decided_fronts_stay()
    ensures { FrontsStay }
{}

/// Of the logs of any `F + 1` members, one holds each decided entry whole, or as many hold it as it needs parts.
pub fn decided_entries_can_be_rebuilt()
    ensures { IsRebuilt }
{}

/// No entry that is cut out of a log at a term stands in a front that a leader of a term up to it decides, later or before.
pub fn cut_entries_are_never_decided()
    ensures later { CutStaysUndecided }
    ensures before { DecidedStaysUncut }
{}

/// What a member committed is a decided front of its log, which only grows and stays in the log.
pub fn commits_are_decided_and_grow()
    ensures decided { CommitsAreDecided }
    ensures grow { CommitsGrow }
{}

/// Votes, leaders' logs, acknowledgements, answers, cuts and decided fronts only grow, and a move touches one member: what
/// stands of a member or a message beside the moves of others is not to be shown again.
pub fn history_only_grows()
    ensures grows { HistoryGrows }
    ensures others { OthersStay }
{}

/// The moves lead somewhere: there is a run of three members in which an entry is decided that one of them holds whole and the
/// others in part, and a run in which a leader that prepares cuts an entry that is lost.
pub fn moves_lead_somewhere()
    ensures decides { SomeRunDecides }
    ensures cuts { SomeRunCuts }
{}
