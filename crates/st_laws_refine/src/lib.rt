//! A client's and a server's states as the two halves of the association machine: every rule of
//! either side is a list of its moves.
#![tactic(auto)]

ghost use Rattle.st_laws_refine.specs.Client.Law.{ClientStepsAreMoves, RunsKeepHard, LostLeasesAreOver};
ghost use Rattle.st_laws_refine.specs.Client.World.{OtherAssociationsStay, OwnAssociationsMove};
ghost use Rattle.st_laws_refine.specs.Server.DatingReplies.{RepliesStayDated};
ghost use Rattle.st_laws_refine.specs.Server.Law.{AdvancesKeepServers, CalmStays, CrashesKeepServers, FewStay, RowsStayCompatible, ServerStepsAreMoves, ServersWait, StartsKeepServers, StepsKeepServers};
ghost use Rattle.st_protocol.specs.Assoc.{Assoc, Config, In, Moves, Msg};
ghost use Rattle.st_rules.specs.Safety.{OldMessagesChangeNoClient, OldMessagesChangeNoServer};

/// What was sent between a client and a server stays sent, whatever moves follow.
pub fn messages_stay()
    ensures { (k : Config) (a b : Assoc) → Moves k a b → (m : Msg) → In m a.net → In m b.net }
{}

/// A step of a server, whatever comes, is for each client a list of moves of their association.
pub fn server_steps_are_moves()
    ensures { ServerStepsAreMoves }
{}

/// The rows of a file stay compatible through a step of a server.
pub fn rows_stay_compatible()
    ensures { RowsStayCompatible }
{}

/// The invariant of a server holds after its steps, in which its thefts are late for every lease
/// that was dated and it sends no conflict; when time passes; and when it crashes and starts.
pub fn events_keep_servers()
    ensures steps { StepsKeepServers }
    ensures advances { AdvancesKeepServers }
    ensures crashes { CrashesKeepServers }
    ensures starts { StartsKeepServers }
    ensures calm { CalmStays }
    ensures few { FewStay }
{}

/// Outside grace every lease of an earlier epoch has ended.
pub fn servers_wait()
    ensures { ServersWait }
{}

/// Requests of another epoch, and requests of a life that is past, leave a server as it was.
pub fn old_messages_change_no_server()
    ensures { OldMessagesChangeNoServer }
{}

/// Each reply that may date a lease answers a request that was sent, and was sent before every
/// timer that runs for its client: through every step of its server.
pub fn replies_stay_dated()
    ensures { RepliesStayDated }
{}

/// A step of a client is, for each server, a list of moves of their association.
pub fn client_steps_are_moves()
    ensures { ClientStepsAreMoves }
{}

/// In the world a client's step is moves of its association with each server, and what held of it
/// holds again.
pub fn own_associations_move()
    ensures { OwnAssociationsMove }
{}

/// In the world a client's step leaves every other client, the servers and the clocks as they were.
pub fn other_associations_stay()
    ensures { OtherAssociationsStay }
{}

/// A client loses a life only if its lease is over.
pub fn lost_leases_are_over()
    ensures { LostLeasesAreOver }
{}

/// An entry of the log that is hard stays hard, over every run.
pub fn hard_stays_hard()
    ensures { RunsKeepHard }
{}

/// A message of an earlier life or of an earlier epoch changes nothing at a client.
pub fn old_messages_change_no_client()
    ensures { OldMessagesChangeNoClient }
{}
