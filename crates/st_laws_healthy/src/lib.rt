//! Laws of healthy clients: a client that ticks in time keeps its lease at a server that runs
//! and doesn't suspect it, if messages between the two come in time. If few of its releases wait,
//! the server doesn't suspect it.
#![tactic(auto)]

ghost use Rattle.st_laws_healthy.specs.Healthy.{HealthyClientsAreNotSuspected, InHealthyRuns, InPromptRuns, InRunsFromStarts, LeasesLast, NoneIsLost};
ghost use Rattle.st_laws_healthy.specs.Healthy.{NoneIsQuiesced};

/// Takes the runs in which a client is healthy at a server after every event.
/// Each lease of the client there stays younger than the bound and isn't condemned.
pub fn leases_last()
    ensures { InHealthyRuns LeasesLast }
{}

/// Takes the runs in which a client is healthy at a server after every event.
/// If a lease that is younger than the bound isn't over, none is lost there. If it serves, no ask
/// of the server is answered `quiesced`.
pub fn leases_serve()
    ensures lost { InHealthyRuns NoneIsLost }
    ensures quiesced { InHealthyRuns NoneIsQuiesced }
{}

/// Takes the runs in which a client starts while a server is out of grace, and is healthy there
/// after every event from the start on. From then on its leases there last and serve, as above.
/// Messages that were sent before the start may come at any time.
pub fn leases_last_from_starts()
    ensures last { InRunsFromStarts LeasesLast }
    ensures lost { InRunsFromStarts NoneIsLost }
    ensures quiesced { InRunsFromStarts NoneIsQuiesced }
{}

/// Takes the runs in which, after every event, a client and a server run, the client ticked in
/// time, and messages between the two came in time. The server never suspects the client, if so
/// few of its releases wait at any time that these and one request before them, one after
/// another, take less than the demand time.
pub fn healthy_clients_are_not_suspected()
    ensures { InPromptRuns HealthyClientsAreNotSuspected }
{}
