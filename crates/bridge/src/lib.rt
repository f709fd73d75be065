//! Why the rules of a turn are safe: every run of a cluster is a run of the protocol, and so what the protocol promises holds
//! of it. Nothing here runs: each function states a law as its contract, for every shape and every list of events in range.
//! `specs/Agreement.antt` says when a world agrees with a history of the protocol; `docs/proofs/BRIDGE.md` tells the
//! argument.
#![tactic(auto)]

ghost use Rattle.bridge.specs.Laws.{OneLeaderInEveryRun, RunsAreBridged, SomeRunAnswers, SomeRunCommits, SomeRunElects, SomeRunRemoves};

/// Every run of a cluster is a run of the protocol: after each front of the events there is a history, made of the one before
/// by moves, with which each member and each message that was ever sent agrees.
pub fn every_run_is_one_of_the_protocol()
    ensures { RunsAreBridged }
{}

/// No term has two members that ever led it or prepared to, whatever the events (Raft's election safety).
pub fn one_leader_a_term()
    ensures { OneLeaderInEveryRun }
{}

/// There is a run in which a member is elected.
pub fn some_run_elects()
    ensures { SomeRunElects }
{}

/// There is a run in which the leaders of two terms each commit an entry, and one in which an entry that a lost leader added is
/// removed and the leader that came after it commits another in its place.
pub fn some_run_commits()
    ensures commits { SomeRunCommits }
    ensures removes { SomeRunRemoves }
{}

/// There is a run in which a client is told that its put was done, what it set, as it asks for the first time after that, and that the
/// number of its put is old.
pub fn some_run_answers()
    ensures { SomeRunAnswers }
{}
