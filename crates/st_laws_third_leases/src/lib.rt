//! Laws of leases in the third form: how old the lease of a client that ticks in time can become,
//! and that a client's leases last, and none is lost, at a server where it is healthy.
#![tactic(auto)]

ghost use Rattle.st_laws_healthy.specs.Healthy.{LeasesLast, NoneIsLost};
ghost use Rattle.st_laws_lasting.specs.Lasting.{RestingLeasesAreYoung};
ghost use Rattle.st_laws_third_leases.specs.Healthy.{InThirdHealthyRuns, InThirdRunsFromStarts};
ghost use Rattle.st_laws_third_leases.specs.Staying.{StayingClientsAreHealthy};
ghost use Rattle.st_laws_third_leases.specs.Young.{InThirdTickingRuns};

/// Takes the runs of the third form in which a client ticks in time, restarts and leaves included.
/// Each lease that is not condemned, of a session that has no request outstanding, is younger than
/// the renewal age and a gap.
pub fn third_resting_leases_are_young()
    ensures { InThirdTickingRuns RestingLeasesAreYoung }
{}

/// Takes the runs of the third form in which a client is healthy at a server after every event.
/// Each lease of the client there stays younger than the bound and isn't condemned, leaves
/// included.
pub fn third_leases_last()
    ensures { InThirdHealthyRuns LeasesLast }
{}

/// Takes the runs of the third form in which a client is healthy at a server after every event.
/// If a lease that is younger than the bound isn't over, none is lost there.
pub fn third_leases_are_not_lost()
    ensures { InThirdHealthyRuns NoneIsLost }
{}

/// Takes the runs of the third form in which a client starts while a server is out of grace, and is
/// healthy there after every event from the start on. From then on its leases there last, and none
/// is lost, as above. Messages that were sent before the start may come at any time.
pub fn third_leases_last_from_starts()
    ensures last { InThirdRunsFromStarts LeasesLast }
    ensures lost { InThirdRunsFromStarts NoneIsLost }
{}

/// In every run of the third form, a client that stays in time is healthy at a server. After every
/// event both run, the client ticked in time, messages between the two came in time by both clocks,
/// and the client's life there didn't end because it left. If a lease that is younger than the
/// bound isn't over, and two trips take less than the demand time, the server never suspects the
/// client. So its leases there last, and none is lost, as above.
pub fn staying_clients_are_healthy()
    ensures { StayingClientsAreHealthy }
{}
