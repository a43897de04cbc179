// Written by tools/rows/world_rows.py.
ghost use Rattle.std.specs.Prelude.{◌≡◌, ◌∷◌, [], None, Some, true};
ghost use Rattle.st_base.specs.Page.{filled};
ghost use Rattle.st_base.specs.declared.mode.Mode.TheVariants as modes;
ghost use Rattle.st_messages.specs.declared.answer.AppAnswer.TheVariants as answers;
ghost use Rattle.st_messages.specs.declared.ask.Ask.TheVariants as asks;
ghost use Rattle.st_messages.specs.declared.event.Event.TheVariants as events;
ghost use Rattle.st_messages.specs.declared.message.Body.TheVariants as bodies;
ghost use Rattle.st_messages.specs.declared.message.Why.TheVariants as why;
ghost use Rattle.st_rules.specs.Run.{run};
ghost use Rattle.st_rules.specs.declared.observation.Observation.TheVariants as seen;
ghost use Rattle.st_rules.specs.declared.observation.WorldRefusal.TheVariants as refusals;
ghost use Rattle.st_rows.specs.ClientWords.{on};
ghost use Rattle.st_rows.specs.Words.{extent, g, page};
ghost use Rattle.st_rows_world.specs.WorldWords.{answered, ask, client_node, counts, leased, lost, sent, server_node, stolen, suspected, tells, told, world_of, write_out, wrote};

/// A client that is cut off one way flushes its pages before its lock is stolen.
#[tactic(auto, unfolding(crate::specs::WorldWords::world_words_open))]
pub fn one_sided_cut()
    ensures { told (run (
        (ask 1 (asks.Write (on 1 2) (page 0) (filled 77)))
        ∷ (events.Deliver 1)
        ∷ (events.Deliver 2)
        ∷ (events.Deliver 3)
        ∷ (events.Deliver 4)
        ∷ (events.Deliver 5)
        ∷ (events.Deliver 6)
        ∷ (ask 2 (asks.Read (on 1 2) (page 0)))
        ∷ (events.Deliver 7)
        ∷ (events.Deliver 8)
        ∷ (events.Deliver 9)
        ∷ (events.Cut (server_node 1) (client_node 1))
        ∷ (events.Advance (100 ∷ 100 ∷ 100 ∷ []))
        ∷ (events.Tick (server_node 1))
        ∷ (events.Advance (400 ∷ 400 ∷ 400 ∷ []))
        ∷ (events.Tick (client_node 1))
        ∷ (events.Deliver 12)
        ∷ (events.Advance (350 ∷ 350 ∷ 350 ∷ []))
        ∷ (events.Tick (client_node 1))
        ∷ (events.Effect 1)
        ∷ (events.Report 1 true)
        ∷ (events.Advance (260 ∷ 260 ∷ 260 ∷ []))
        ∷ (events.Tick (client_node 1))
        ∷ (events.Tick (server_node 1))
        ∷ []) (world_of 2 1 1 8))
        ≡ tells (
        (sent 1 1 32769 1 0 0 0 bodies.Hello ∷ [])
        ∷ (sent 2 32769 1 1 1 0 0 bodies.Welcome ∷ [])
        ∷ (leased 1 1 1000 ∷ sent 3 1 32769 1 1 1 0 (bodies.Acquire 2 modes.X) ∷ [])
        ∷ (sent 4 32769 1 1 1 1 0 (bodies.Granted 2 (g 4294967297) modes.X) ∷ [])
        ∷ (sent 5 1 32769 1 1 2 0 (bodies.Allocate 2 (g 4294967297) (page 0) 1) ∷ [])
        ∷ (sent 6 32769 1 1 1 2 0 (bodies.Extents 2 (extent 0 1 0 1 ∷ [])) ∷ [])
        ∷ (wrote 1 1 1 2 0 (filled 77) ∷ answered 1 1 answers.Written ∷ [])
        ∷ (sent 7 2 32769 1 0 0 0 bodies.Hello ∷ [])
        ∷ (sent 8 32769 2 1 1 0 0 bodies.Welcome ∷ [])
        ∷ (leased 2 1 1000 ∷ sent 9 2 32769 1 1 1 0 (bodies.Acquire 2 modes.S) ∷ [])
        ∷ (sent 10 32769 2 1 1 1 0 (bodies.Queued 2 modes.S) ∷ sent 11 32769 1 1 1 0 0 (bodies.Demand 2 (g 4294967297) modes.S) ∷ [])
        ∷ []
        ∷ []
        ∷ (suspected 1 1 1100 ∷ [])
        ∷ []
        ∷ (sent 12 1 32769 1 1 3 500 bodies.KeepAlive ∷ [])
        ∷ (sent 13 32769 1 1 1 3 500 (bodies.Nack why.Suspect 1100 0) ∷ [])
        ∷ []
        ∷ (write_out 1 1 1 1 0 1 2 0 1 (filled 77) ∷ sent 14 1 32769 1 1 3 850 bodies.KeepAlive ∷ [])
        ∷ (seen.Hardened 1 ∷ [])
        ∷ []
        ∷ []
        ∷ (lost 1 1 1 ∷ [])
        ∷ (stolen 1 1 1 ∷ sent 15 32769 2 1 1 0 0 (bodies.Granted 2 (g 4294967298) modes.S) ∷ [])
        ∷ []) (counts 24 15 1 1 0 1 0 1) None }
{}

/// A reply of a cut direction is not delivered.
#[tactic(auto, unfolding(crate::specs::WorldWords::world_words_open))]
pub fn link_cut()
    ensures { told (run (
        (ask 1 (asks.Write (on 1 2) (page 0) (filled 77)))
        ∷ (events.Deliver 1)
        ∷ (events.Deliver 2)
        ∷ (events.Deliver 3)
        ∷ (events.Deliver 4)
        ∷ (events.Deliver 5)
        ∷ (events.Deliver 6)
        ∷ (ask 2 (asks.Read (on 1 2) (page 0)))
        ∷ (events.Deliver 7)
        ∷ (events.Deliver 8)
        ∷ (events.Deliver 9)
        ∷ (events.Cut (server_node 1) (client_node 1))
        ∷ (events.Advance (100 ∷ 100 ∷ 100 ∷ []))
        ∷ (events.Tick (server_node 1))
        ∷ (events.Advance (400 ∷ 400 ∷ 400 ∷ []))
        ∷ (events.Tick (client_node 1))
        ∷ (events.Deliver 12)
        ∷ (events.Deliver 13)
        ∷ []) (world_of 2 1 1 8))
        ≡ tells (
        (sent 1 1 32769 1 0 0 0 bodies.Hello ∷ [])
        ∷ (sent 2 32769 1 1 1 0 0 bodies.Welcome ∷ [])
        ∷ (leased 1 1 1000 ∷ sent 3 1 32769 1 1 1 0 (bodies.Acquire 2 modes.X) ∷ [])
        ∷ (sent 4 32769 1 1 1 1 0 (bodies.Granted 2 (g 4294967297) modes.X) ∷ [])
        ∷ (sent 5 1 32769 1 1 2 0 (bodies.Allocate 2 (g 4294967297) (page 0) 1) ∷ [])
        ∷ (sent 6 32769 1 1 1 2 0 (bodies.Extents 2 (extent 0 1 0 1 ∷ [])) ∷ [])
        ∷ (wrote 1 1 1 2 0 (filled 77) ∷ answered 1 1 answers.Written ∷ [])
        ∷ (sent 7 2 32769 1 0 0 0 bodies.Hello ∷ [])
        ∷ (sent 8 32769 2 1 1 0 0 bodies.Welcome ∷ [])
        ∷ (leased 2 1 1000 ∷ sent 9 2 32769 1 1 1 0 (bodies.Acquire 2 modes.S) ∷ [])
        ∷ (sent 10 32769 2 1 1 1 0 (bodies.Queued 2 modes.S) ∷ sent 11 32769 1 1 1 0 0 (bodies.Demand 2 (g 4294967297) modes.S) ∷ [])
        ∷ []
        ∷ []
        ∷ (suspected 1 1 1100 ∷ [])
        ∷ []
        ∷ (sent 12 1 32769 1 1 3 500 bodies.KeepAlive ∷ [])
        ∷ (sent 13 32769 1 1 1 3 500 (bodies.Nack why.Suspect 1100 0) ∷ [])
        ∷ []) (counts 17 13 0 1 0 0 0 0) (Some (refusals.LinkCut (server_node 1) (client_node 1))) }
{}

/// A healed direction delivers.
#[tactic(auto, unfolding(crate::specs::WorldWords::world_words_open))]
pub fn healed()
    ensures { told (run (
        (ask 1 (asks.Read (on 1 2) (page 0)))
        ∷ (events.Cut (client_node 1) (server_node 1))
        ∷ (events.Heal (client_node 1) (server_node 1))
        ∷ (events.Deliver 1)
        ∷ []) (world_of 2 1 1 8))
        ≡ tells (
        (sent 1 1 32769 1 0 0 0 bodies.Hello ∷ [])
        ∷ []
        ∷ []
        ∷ (sent 2 32769 1 1 1 0 0 bodies.Welcome ∷ [])
        ∷ []) (counts 4 2 0 0 0 0 0 0) None }
{}

/// A request of a cut direction is not delivered.
#[tactic(auto, unfolding(crate::specs::WorldWords::world_words_open))]
pub fn request_cut()
    ensures { told (run (
        (ask 1 (asks.Read (on 1 2) (page 0)))
        ∷ (events.Cut (client_node 1) (server_node 1))
        ∷ (events.Deliver 1)
        ∷ []) (world_of 2 1 1 8))
        ≡ tells (
        (sent 1 1 32769 1 0 0 0 bodies.Hello ∷ [])
        ∷ []
        ∷ []) (counts 2 1 0 0 0 0 0 0) (Some (refusals.LinkCut (client_node 1) (server_node 1))) }
{}

/// A direction that was cut twice is healed once; a cut concerns only its own direction.
#[tactic(auto, unfolding(crate::specs::WorldWords::world_words_open))]
pub fn cut_twice()
    ensures { told (run (
        (ask 1 (asks.Read (on 1 2) (page 0)))
        ∷ (events.Cut (client_node 1) (server_node 1))
        ∷ (events.Cut (client_node 1) (server_node 1))
        ∷ (events.Heal (client_node 1) (server_node 1))
        ∷ (events.Heal (server_node 1) (client_node 1))
        ∷ (events.Deliver 1)
        ∷ (events.Cut (server_node 1) (client_node 1))
        ∷ (events.Deliver 1)
        ∷ (events.Deliver 2)
        ∷ []) (world_of 2 1 1 8))
        ≡ tells (
        (sent 1 1 32769 1 0 0 0 bodies.Hello ∷ [])
        ∷ []
        ∷ []
        ∷ []
        ∷ []
        ∷ (sent 2 32769 1 1 1 0 0 bodies.Welcome ∷ [])
        ∷ []
        ∷ (sent 3 32769 1 1 1 0 0 bodies.Welcome ∷ [])
        ∷ []) (counts 8 3 0 0 0 0 0 0) (Some (refusals.LinkCut (server_node 1) (client_node 1))) }
{}

/// A message that was lost is not delivered.
#[tactic(auto, unfolding(crate::specs::WorldWords::world_words_open))]
pub fn lost_message()
    ensures { told (run (
        (ask 1 (asks.Read (on 1 2) (page 0)))
        ∷ (events.Lose 1)
        ∷ (events.Deliver 1)
        ∷ []) (world_of 2 1 1 8))
        ≡ tells (
        (sent 1 1 32769 1 0 0 0 bodies.Hello ∷ [])
        ∷ []
        ∷ []) (counts 2 1 0 0 0 0 0 0) (Some (refusals.LostMessage 1)) }
{}

/// A node that is not there.
#[tactic(auto, unfolding(crate::specs::WorldWords::world_words_open))]
pub fn no_node()
    ensures { told (run (
        (events.Cut (client_node 1) (client_node 9))
        ∷ []) (world_of 2 1 1 8))
        ≡ tells [] (counts 0 0 0 0 0 0 0 0) (Some (refusals.NoNode (client_node 9))) }
{}
