ghost use Rattle.st_laws_third.specs.Demands.{EveryDemandIsAnswered, EveryRunAnswersDemands};
ghost use Rattle.st_laws_third.specs.DemandsSeen.{EveryDemandIsSeen};
ghost use Rattle.st_laws_third.specs.Expiry.{EveryExpiredLeaseLeavesNothing};
ghost use Rattle.st_laws_third.specs.FewLocks.{EveryClientHasFewLocks};
ghost use Rattle.st_laws_third.specs.FewPages.{
  EveryClientHasFewCleanPages,
  EveryClientHasFewDirtyPages,
};
ghost use Rattle.st_laws_third.specs.FewRows.{EveryReassertionIsFew};
ghost use Rattle.st_laws_third.specs.FirstForms.{FirstHeadsStay, FirstRunsStay, FirstStepsStay};
ghost use Rattle.st_laws_third.specs.FirstPromises.{EveryHardEntryStays};
ghost use Rattle.st_laws_third.specs.Invariants.{EveryClientFits};
ghost use Rattle.st_laws_third.specs.Living.{ClientsLiveOn};
ghost use Rattle.st_laws_third.specs.Pairs.{ClientsStayPaired};
ghost use Rattle.st_laws_third.specs.Rules.{RulesAreChanges};
ghost use Rattle.st_laws_third.specs.Sessions.{ClientsStepOn};
ghost use Rattle.st_laws_third.specs.ShortRuns.{EveryAllocationIsShort};
ghost use Rattle.st_laws_third.specs.Welcomes.{EveryWelcomeIsFresh};

/// With a head of form 1 or 2, a run by the definitions of every form is the run by those of the
/// first two forms: it has the same worlds, observations and refusal, and the same report.
pub fn first_runs_stay()
    ensures { FirstRunsStay }
{}

/// The steps of such a run are the same by both definitions, as promises see them. So what is
/// proved of the steps of every run of the first two forms also holds by the definitions of every
/// form.
pub fn first_steps_stay()
    ensures { FirstStepsStay }
{}

/// The heads of form 1 and 2 are the same by both definitions; each of them has the limits of the
/// first two forms.
pub fn first_heads_stay()
    ensures { FirstHeadsStay }
{}

/// A client of the third form has something beside each of its associations. It still does after
/// each step, with as many associations as before, and after a crash and a start.
pub fn clients_stay_paired()
    ensures { ClientsStayPaired }
{}

/// Every rule of a client of the third form, at one server, is a list of small changes: those that
/// the rules of the first two forms are made of, and a few more.
pub fn third_rules_are_changes()
    ensures { RulesAreChanges }
{}

/// What a step of a client of the third form leaves of each of its associations: the server, a life
/// that is no earlier, and a session whose lease is dated no earlier than before, or by a fresh
/// welcome. Its dirty pages are still known as mapped.
pub fn third_clients_step_on()
    ensures { ClientsStepOn }
{}

/// In a step of a client of the third form, a session goes on as long as its life does. What is new
/// about it was heard: a lock under its number was granted or demanded by the message that the
/// client takes, and the epoch is the message's. Each message that it sends goes to the server of
/// an association, in a life from the one before the step to the one after; in the life after, all
/// but a greeting has a session. A life ends only if that is told: its lease is lost, or its
/// client left.
pub fn third_clients_live_on()
    ensures { ClientsLiveOn }
{}

/// In every run of the third form, when a session begins at a client, now is below the date of its
/// lease plus `renew`.
pub fn every_welcome_is_fresh()
    ensures { EveryWelcomeIsFresh }
{}

/// A demand that reaches a session of its epoch is answered in the same step, unless the client has
/// the file's lock under a later grant: also if the lock was given up, and its release waits.
pub fn every_demand_is_answered()
    ensures { EveryDemandIsAnswered }
{}

/// After each event of every run of the third form, each client has the settings of the world, and
/// something beside each of its associations. Its dirty pages are known as mapped, and nothing is
/// known of the page whose place it asks for.
pub fn every_client_fits()
    ensures { EveryClientFits }
{}

/// In every run of the third form, a demand that is delivered, reaches a session of its epoch and
/// isn't older than the client's lock of the file, is answered as seen in the same step.
pub fn every_run_answers_demands()
    ensures { EveryRunAnswersDemands }
{}

/// In every run of the third form, a demand that a client gets in a session of its life and epoch,
/// for a file of which it has no lock, is answered as seen in the same step.
pub fn every_demand_is_seen()
    ensures { EveryDemandIsSeen }
{}

/// In every run of the third form, runs are short: no request for blocks is for more than 64 pages.
pub fn every_allocation_is_short()
    ensures { EveryAllocationIsShort }
{}

/// Hard stays hard in every run of the third form, too: an entry that is hard before an event is
/// hard after it.
pub fn every_hard_entry_stays()
    ensures { EveryHardEntryStays }
{}

/// In every run of the third form, a client that takes a step while its lease at a server is over
/// is in its next life there after it. It then has neither a session nor a page, a known place or a
/// command of that server.
pub fn every_expired_lease_leaves_nothing()
    ensures { EveryExpiredLeaseLeavesNothing }
{}

/// After each event of every run of the third form, no client has more locks of a server than its
/// limit says.
pub fn every_client_has_few_locks()
    ensures { EveryClientHasFewLocks }
{}

/// After each event of every run of the third form, no client has more dirty pages of a server than
/// its limit says.
pub fn every_client_has_few_dirty_pages()
    ensures { EveryClientHasFewDirtyPages }
{}

/// After each event of every run of the third form, no client has more clean pages of a server than
/// its limit says.
pub fn every_client_has_few_clean_pages()
    ensures { EveryClientHasFewCleanPages }
{}

/// In every run of the third form, no message reasserts more locks than a client may have of a
/// server.
pub fn every_reassertion_is_few()
    ensures { EveryReassertionIsFew }
{}
