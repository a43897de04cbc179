//! Laws of the limits of the third form: what is pending at a client, the files of which it has
//! rows and waits at a server, and why applications are told of a full client and of other faults.
#![tactic(auto)]

ghost use Rattle.st_laws_limits.specs.Faults.{EveryOtherFaultHasACause};
ghost use Rattle.st_laws_limits.specs.Kept.{EveryRunKeepsLimits, EveryServerHasFewFiles};
ghost use Rattle.st_laws_limits.specs.Pending.{EveryClientHasFewPending};

/// After each event of every run of the third form, of no client more operations and leaves are
/// pending than its limit says.
pub fn every_client_has_few_pending()
    ensures { EveryClientHasFewPending }
{}

/// After each event of every run of the third form, no client has rows and waits of more files at
/// a server than its limit says.
pub fn every_server_has_few_files()
    ensures { EveryServerHasFewFiles }
{}

/// In every run of the third form limits are kept: after each event no client has more that is
/// pending, more locks, dirty pages or clean pages of a server, or rows and waits of more files at
/// a server, than it may.
pub fn every_run_keeps_limits()
    ensures { EveryRunKeepsLimits }
{}

/// In every run of the third form faults have a cause, but for `toomanylocks`. `diskfault` names a
/// command of the client that the event reports as failed. `notholder`, `nospace` and the refusals
/// of names are answered in the step in which a refusal is delivered to the client. `opsfull` is
/// answered to a client that had as many pending operations and leaves as may be. `dirtyfull` is
/// answered to a client that had as many dirty pages of a server as may be, each of which failed
/// and isn't being written; or the event reports that a command failed.
pub fn every_other_fault_has_a_cause()
    ensures { EveryOtherFaultHasACause }
{}
