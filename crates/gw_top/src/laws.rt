//! Laws of runs. Each is a function whose `ensures` is the law.

ghost use Rattle.gw_top.specs.Laws.{OneWorkerMakesTheJournal, UnbegunTakeNothing};

use gw_wire::Wire;

/// Where a table has one worker, the journal of its run is the entries of that worker's work, in their order, and no
/// others.
pub fn one_worker_makes_the_journal<W: Wire>()
    ensures { OneWorkerMakesTheJournal W.wire }
{}

/// A session in which no request began asked the pool for nothing. So it is behind a gate that was seen shut: there no
/// request begins, and none takes an idle connection.
pub fn unbegun_take_nothing()
    ensures { UnbegunTakeNothing }
{}
