//! What the whole cluster promises, whatever its events: one list of commands is committed, for all members and for ever; any F+1
//! members rebuild it; no entry is removed that a leader of the remover's term or of a lower one commits; no term has two leaders; and
//! clients are answered as by one map that took this list, in the order of time. Nothing here runs: `law_safe`, `law_rebuild`,
//! `law_replies`, `law_order` and `law_prepared` state it as their contracts, for every shape and every list of events in range.
//! `specs/Laws.antt` and `specs/Preparations.antt` have the parts, `specs/Examples.antt` runs of which they speak;
//! `docs/proofs/BRIDGE.md` tells the argument.
#![tactic(auto)]

ghost use Rattle.world_model.specs.Preparing.{EveryPreparingWaits};
ghost use Rattle.world_laws.specs.Laws.{AllListed, AnyRebuild, EachAtItsPlace, LaterCount, LaterStandAbove, OldNumbers, OneLeaderATerm, OneList, OneMap, RemovesUncommitted, StaysCommitted};
ghost use Rattle.world_laws.specs.Preparations.{EachAnswerCovers, EnoughAnswersMove, MovesAreParts};

/// Every run is safe, whichever members go down, stop in a turn and start anew, and whatever the network loses, repeats or reorders.
pub fn law_safe()
    // one list: each member's log has, up to its commit index, an entry for each command of it
    ensures one_list { OneList }
    // what was committed after any front of the events is a front of what is committed in the end
    ensures stays { StaysCommitted }
    // no entry is removed that a leader of the remover's term or of a lower one commits, before or after
    ensures removes { RemovesUncommitted }
    // no term has two members that ever led it or prepared to
    ensures one_leader { OneLeaderATerm }
{}

/// What is committed outlives any F members: the logs of any F+1, whether they run or not, rebuild each value, whichever members go
/// down, stop in a turn and start anew, and whatever the network loses, repeats or reorders.
pub fn law_rebuild()
    // one of them has the whole value, or k of them have their fragments of it, and none has anything else under its term and index
    ensures { AnyRebuild }
{}

/// Clients are told what one map tells that took all that is committed, whichever members go down, stop in a turn and start anew, and
/// whatever the network loses, repeats or reorders. A reply that refuses a request tells nothing of the map.
pub fn law_replies()
    // what is committed is a list of commands
    ensures listed { AllListed }
    // what a request came to is what it comes to in the map that took them, each number of a client once
    ensures one_map { OneMap }
    // where a number is old, a command of the client with a greater one is among them
    ensures old { OldNumbers }
{}

/// The order of time is kept: what is first asked after a reply was told counts what that reply tells of, whichever members go down,
/// stop in a turn and start anew, and whatever the network loses, repeats or reorders.
pub fn law_order()
    // what a request came to is what the effective command of its client with its number came to, at its place in the list
    ensures each { EachAtItsPlace }
    // where every entry of a request was proposed in a later event than the reply, each that is committed stands above that command
    ensures above { LaterStandAbove }
    // so a reply to that request, as that to a get, is the map's at a place above: what it counts has that command among it
    ensures counts { LaterCount }
{}

/// A preparation ends once enough members answer: whoever prepares to lead has an index to decide next, its cursor, which too few members
/// cover, and the answers of F others to its question for that index make it go on to a greater one, or lead. After CRaft, newly elected
/// leader.
pub fn law_prepared()
    // after whatever events, fewer than F+1 members cover the cursor of a member that prepares
    ensures waits { EveryPreparingWaits }
    // an answer that a member sends, asked from an index on, shows what it holds there
    ensures shown { EachAnswerCovers }
    // where F others have shown what they hold at the cursor, the member leads in that term, or its cursor is greater
    ensures moves { EnoughAnswersMove }
    // through a preparation the cursor moves at most as often as there were parts above the commit index
    ensures parts { MovesAreParts }
{}
