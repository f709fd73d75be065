//! A file is read in one way: the contracts of `Journal::open` then say exactly when each answer comes.
ghost use Rattle.synced_log.specs.Stopped.{StoppedAppend, StoppedCallFails};
ghost use Rattle.synced_log.specs.Laws.{OneOwner, OneJournal, NoFault, OneFault, OneState};

/// A file has one owner's header at most, is one owner's journal with one list of groups at most, has no fault where it is one,
/// has one first fault at most, and opens to one state at most.
pub fn read_in_one_way()
    ensures owner { OneOwner }
    ensures journal { OneJournal }
    ensures no_fault { NoFault }
    ensures fault { OneFault }
    ensures state { OneState }
{}

/// On a disk in memory that was told, just before, to stop at a device call of `append`: that call failed, so that not all four
/// were made, and a crash leaves a file that opens to the state with the group exactly where the call is the third or fourth and
/// what is pending is kept.
pub fn stops_one_way()
    ensures leaves { StoppedAppend }
    ensures fails { StoppedCallFails }
{}
