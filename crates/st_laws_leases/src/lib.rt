//! Leases in every run: they are dated from requests, thefts come late, graces wait, and the log is
//! in the order of the locks.
#![tactic(auto)]

ghost use Rattle.st_laws_leases.specs.Dates.Law.{RunsSendNoConflict, LeasesAreDated};
ghost use Rattle.st_laws_leases.specs.History.Law.{RunsDateFromReplies, HistoriesAreTheWorlds};
ghost use Rattle.st_laws_leases.specs.Order.Order.{ChangesStayBelow, CutsStayBelow, ListsStayAbove, MovesStayAbove};
ghost use Rattle.st_laws_leases.specs.Order.Paths.{EventsKeepOrder};
ghost use Rattle.st_laws_leases.specs.Sides.KeptPromises.{IsMostPromised};
ghost use Rattle.st_laws_leases.specs.Sides.Paths.{EventsArePaths};
ghost use Rattle.st_laws_leases.specs.Sides.Law.{ClientEventsKeep, InEveryRun, RunsStand};
ghost use Rattle.st_rules.specs.Safety.{ChangesAreLocked, ChangesGoInTheOrderOfLocks, DirtyPagesStandAlone, GraceWaits, NoConflictIsSent, TheftsComeLate};

/// In every run each lease is dated from a request of its life that was sent at its date, and that
/// was answered before any timer that runs for the client was started.
pub fn leases_are_dated_from_requests()
    ensures { LeasesAreDated }
{}

/// In every run no client sends a refusal because of a conflict.
pub fn clients_send_no_conflict()
    ensures { RunsSendNoConflict }
{}

/// In every run the history is the world's: timers, dates of leases, and grants of entries.
pub fn histories_are_the_worlds()
    ensures { HistoriesAreTheWorlds }
{}

/// In every run each date of the history belongs to a client of the world and a reply: a message of
/// its server to its client, of its life and epoch, that renews a lease.
pub fn dates_are_of_replies()
    ensures { RunsDateFromReplies }
{}

/// The invariant of a server and all its clients holds again after each event of a client, and
/// after each that no node takes part in.
pub fn client_events_keep()
    ensures { ClientEventsKeep }
{}

/// The invariant of every server and all its clients holds after every event of every run: their
/// associations are in states that the machine of one client at one server can reach, the clocks
/// are in bound, and what the absence of conflicts rests on holds.
pub fn all_stand_in_every_run()
    ensures { RunsStand }
{}

/// Every event is steps of the machine of each server and its clients, which go on from where they
/// were.
pub fn events_are_paths()
    ensures { EventsArePaths }
{}

/// In every run a client's locks are stolen only when its lease is over on its own clock, and so is
/// every lease that it ever had.
pub fn thefts_come_late()
    ensures { InEveryRun TheftsComeLate }
{}

/// In every run a server whose grace is over has waited for every lease of an earlier epoch.
pub fn graces_wait()
    ensures { InEveryRun GraceWaits }
{}

/// In every run, while a page of a file is dirty at one client, no other client holds a lock on the
/// file or has a row there.
pub fn dirty_pages_stand_alone()
    ensures { InEveryRun DirtyPagesStandAlone }
{}

/// In every run no server refuses a reassertion because another client's lock conflicts.
pub fn no_conflict_is_sent()
    ensures { InEveryRun NoConflictIsSent }
{}

/// In every run, after an event that logged a write or a patch, its client's lease lasts, the
/// client has an exclusive lock on the file, and the page is dirty; after one that logged a cut,
/// the file's server runs and has an exclusive row of the file.
pub fn changes_are_locked()
    ensures { InEveryRun ChangesAreLocked }
{}

/// In every run thirteen of the promises that make a run safe are kept at every step, restarts and
/// several servers included; and old messages change nothing, at clients and at servers. Not
/// gathered here are that reads return last writes, that `cut` is logged, and that changes go in
/// the order of locks.
pub fn most_is_promised()
    ensures { IsMostPromised }
{}

/// In the machine of one server and its clients, numbers that are below every exclusive lock that a
/// client has, or may come to have without a new grant, stay below them through every move,
/// restarts of the server included; and a change under a client's exclusive lock, or a cut under
/// its exclusive row, whose number is the file's from then on, leaves them below the locks of all
/// clients.
pub fn locks_stay_in_order()
    ensures moves { MovesStayAbove }
    ensures lists { ListsStayAbove }
    ensures changes { ChangesStayBelow }
    ensures cuts { CutsStayBelow }
{}

/// In the world every event leaves numbers below the locks of every server's associations, if
/// they were below them.
pub fn events_keep_order()
    ensures { EventsKeepOrder }
{}

/// In every run changes go in the order of locks: the grant numbers under which the entries of a
/// file were accepted never fall along the log, restarts and several servers included.
pub fn changes_go_in_order()
    ensures { InEveryRun ChangesGoInTheOrderOfLocks }
{}
