// Written by tools/rows/world_rows.py.
ghost use Rattle.std.specs.Prelude.{◌≡◌, ◌∷◌, [], Some, false};
ghost use Rattle.st_messages.specs.declared.ask.Ask.TheVariants as asks;
ghost use Rattle.st_messages.specs.declared.event.Event.TheVariants as events;
ghost use Rattle.st_messages.specs.declared.message.Body.TheVariants as bodies;
ghost use Rattle.st_rules.specs.Run.{run};
ghost use Rattle.st_rules.specs.declared.observation.WorldRefusal.TheVariants as refusals;
ghost use Rattle.st_rows.specs.ClientWords.{on};
ghost use Rattle.st_rows.specs.Words.{page};
ghost use Rattle.st_rows_world.specs.WorldWords.{ask, client_node, counts, sent, server_node, tells, told, world_of};

/// A client that is not there is asked nothing.
#[tactic(auto, unfolding(crate::specs::WorldWords::world_words_open))]
pub fn no_client()
    ensures { told (run (
        (ask 3 (asks.Read (on 1 2) (page 0)))
        ∷ []) (world_of 2 1 1 8))
        ≡ tells [] (counts 0 0 0 0 0 0 0 0) (Some (refusals.NoNode (client_node 3))) }
{}

/// A message is not delivered to a server that doesn't run.
#[tactic(auto, unfolding(crate::specs::WorldWords::world_words_open))]
pub fn not_running()
    ensures { told (run (
        (ask 1 (asks.Read (on 1 2) (page 0)))
        ∷ (events.Crash (server_node 1))
        ∷ (events.Deliver 1)
        ∷ []) (world_of 2 1 1 8))
        ≡ tells (
        (sent 1 1 32769 1 0 0 0 bodies.Hello ∷ [])
        ∷ []
        ∷ []) (counts 2 1 0 0 0 0 0 0) (Some (refusals.NotRunning (server_node 1))) }
{}

/// A client that doesn't run takes no step, and its clock goes on.
#[tactic(auto, unfolding(crate::specs::WorldWords::world_words_open))]
pub fn stopped_client()
    ensures { told (run (
        (events.Crash (client_node 1))
        ∷ (events.Advance (7 ∷ 7 ∷ 7 ∷ []))
        ∷ (events.Tick (client_node 1))
        ∷ []) (world_of 2 1 1 8))
        ≡ tells (
        []
        ∷ []
        ∷ []) (counts 2 0 0 0 0 0 0 0) (Some (refusals.NotRunning (client_node 1))) }
{}

/// A server that doesn't run can't stop.
#[tactic(auto, unfolding(crate::specs::WorldWords::world_words_open))]
pub fn stopped_twice()
    ensures { told (run (
        (events.Crash (server_node 1))
        ∷ (events.Crash (server_node 1))
        ∷ []) (world_of 2 1 1 8))
        ≡ tells (
        []
        ∷ []) (counts 1 0 0 0 0 0 0 0) (Some (refusals.NotRunning (server_node 1))) }
{}

/// A client that starts again is in its next life; a server that runs can't start.
#[tactic(auto, unfolding(crate::specs::WorldWords::world_words_open))]
pub fn running()
    ensures { told (run (
        (events.Crash (client_node 2))
        ∷ (events.Start (client_node 2))
        ∷ (ask 2 (asks.Read (on 1 2) (page 0)))
        ∷ (events.Start (server_node 1))
        ∷ []) (world_of 2 1 1 8))
        ≡ tells (
        []
        ∷ []
        ∷ (sent 1 2 32769 2 0 0 0 bodies.Hello ∷ [])
        ∷ []) (counts 3 1 0 0 0 0 0 0) (Some (refusals.Running (server_node 1))) }
{}

/// A message is lost once.
#[tactic(auto, unfolding(crate::specs::WorldWords::world_words_open))]
pub fn lost_twice()
    ensures { told (run (
        (ask 1 (asks.Read (on 1 2) (page 0)))
        ∷ (events.Lose 1)
        ∷ (events.Lose 1)
        ∷ []) (world_of 2 1 1 8))
        ≡ tells (
        (sent 1 1 32769 1 0 0 0 bodies.Hello ∷ [])
        ∷ []
        ∷ []) (counts 2 1 0 0 0 0 0 0) (Some (refusals.LostMessage 1)) }
{}

/// A command that was not submitted has no effect.
#[tactic(auto, unfolding(crate::specs::WorldWords::world_words_open))]
pub fn no_command()
    ensures { told (run (
        (events.Effect 1)
        ∷ []) (world_of 2 1 1 8))
        ≡ tells [] (counts 0 0 0 0 0 0 0 0) (Some (refusals.NoCommand 1)) }
{}

/// Nor has it a report.
#[tactic(auto, unfolding(crate::specs::WorldWords::world_words_open))]
pub fn no_command_to_report()
    ensures { told (run (
        (events.Report 1 false)
        ∷ []) (world_of 2 1 1 8))
        ≡ tells [] (counts 0 0 0 0 0 0 0 0) (Some (refusals.NoCommand 1)) }
{}
