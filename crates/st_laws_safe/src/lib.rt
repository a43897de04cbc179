//! Safety over whole runs: every promise of every run, in one record.
#![tactic(auto)]

ghost use Rattle.st_promises.specs.Safe.{EveryRunIsSafe, IsAllPromised};

/// Every run is safe: from the world of every head and over every list of events in their ranges,
/// up to the first that is refused, each step keeps all twenty-eight promises. Restarts and several
/// servers are included.
pub fn every_run_is_safe()
    ensures { EveryRunIsSafe }
{}

/// All that is promised: every run is safe, and old messages change nothing, at clients and at
/// servers.
pub fn all_is_promised()
    ensures { IsAllPromised }
{}
