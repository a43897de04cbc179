//! Laws of time: how long a lock can be kept from a client that waits for it, how such a wait ends,
//! and for which reasons a client is suspected.
#![tactic(auto)]

ghost use Rattle.st_laws_waits.specs.Causes.{SuspicionsHaveACause};
ghost use Rattle.st_laws_waits.specs.Queued.{QueuedClientsWait};
ghost use Rattle.st_laws_waits.specs.Waits.{DemandsAreAnswered, DemandsAreRepeated, EveryWaitEndsForAReason, GraceEnds, InEveryRun, InTickingRuns, LocksComeBack, LocksComeBackAfterStarts, WaitsEndForAReason};

/// In every run in which a server ticks in time: a demand of a client that isn't a suspect is
/// answered within the demand time and a gap; a suspect is robbed within the steal wait and a gap;
/// and the rows in the way of each first wait are demanded.
pub fn demands_are_answered()
    ensures { InTickingRuns DemandsAreAnswered }
{}

/// In every run in which a server ticks in time, while a wait is the first of its file out of
/// grace, the demands on the rows in its way are sent again within the retry time and a gap.
pub fn demands_are_repeated()
    ensures { InTickingRuns DemandsAreRepeated }
{}

/// In every run in which a server ticks in time, there is a bound on how long a wait is the first
/// of its file, out of grace and with no answer of another client for the file: the retry time, the
/// demand time, the steal wait and three gaps, less three ticks.
pub fn locks_come_back()
    ensures { InTickingRuns LocksComeBack }
{}

/// In grace too, with one steal wait more, less one tick.
pub fn locks_come_back_after_starts()
    ensures { InTickingRuns LocksComeBackAfterStarts }
{}

/// In every run a wait that is the first of its file ends for one of these reasons: a grant; its
/// client is suspected, greeted in a later life or asked for the file again; the file was removed;
/// or the server crashed.
pub fn waits_end_for_a_reason()
    ensures { InEveryRun WaitsEndForAReason }
{}

/// In every run each wait, the first of its file or not, goes on or ends for one of these reasons.
/// It isn't lost.
pub fn every_wait_ends_for_a_reason()
    ensures { InEveryRun EveryWaitEndsForAReason }
{}

/// In every run a client to which a server sends a new reply `queued` waits there in that mode or a
/// higher one, or was granted the lock in the same event. From then on
/// `every_wait_ends_for_a_reason` speaks of its wait.
pub fn queued_clients_wait()
    ensures { InEveryRun QueuedClientsWait }
{}

/// In every run a server that runs is in grace for less than the steal wait.
pub fn graces_end()
    ensures { InEveryRun GraceEnds }
{}

/// In every run a server suspects a client only for one of two reasons: the client greeted in a
/// later life while it had rows; or, at a tick, a demand on one of its rows was sent the demand
/// time ago and the server has heeded no answer since.
pub fn suspicions_have_a_cause()
    ensures { InEveryRun SuspicionsHaveACause }
{}
