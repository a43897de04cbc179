// Written by tools/rows/world_rows.py.
ghost use Rattle.std.specs.Prelude.{◌≡◌, ◌∷◌, [], None, false, true};
ghost use Rattle.st_base.specs.Page.{filled};
ghost use Rattle.st_base.specs.declared.mode.Mode.TheVariants as modes;
ghost use Rattle.st_messages.specs.declared.answer.AppAnswer.TheVariants as answers;
ghost use Rattle.st_messages.specs.declared.ask.Ask.TheVariants as asks;
ghost use Rattle.st_messages.specs.declared.event.Event.TheVariants as events;
ghost use Rattle.st_messages.specs.declared.message.Body.TheVariants as bodies;
ghost use Rattle.st_rules.specs.Run.{run};
ghost use Rattle.st_rules.specs.declared.observation.Observation.TheVariants as seen;
ghost use Rattle.st_rows.specs.ClientWords.{lost_row, on};
ghost use Rattle.st_rows.specs.Words.{extent, g, page};
ghost use Rattle.st_rows_world.specs.WorldWords.{answered, ask, client_node, counts, failed, leased, lost, read_out, sent, server_node, stolen, suspected, tells, told, world_of, write_out, wrote};

/// A write whose flush failed is dropped, and the next sync is told so.
#[tactic(auto, unfolding(crate::specs::WorldWords::world_words_open))]
pub fn failed_flush()
    ensures { told (run (
        (ask 1 (asks.Write (on 1 2) (page 0) (filled 77)))
        ∷ (events.Deliver 1)
        ∷ (events.Deliver 2)
        ∷ (events.Deliver 3)
        ∷ (events.Deliver 4)
        ∷ (events.Deliver 5)
        ∷ (events.Deliver 6)
        ∷ (events.Advance (850 ∷ 850 ∷ 850 ∷ []))
        ∷ (events.Tick (client_node 1))
        ∷ (events.Report 1 false)
        ∷ (events.Advance (150 ∷ 150 ∷ 150 ∷ []))
        ∷ (ask 1 (asks.Sync (on 1 2)))
        ∷ (ask 2 (asks.Read (on 1 2) (page 0)))
        ∷ (events.Deliver 8)
        ∷ (events.Deliver 9)
        ∷ (events.Deliver 10)
        ∷ (events.Advance (100 ∷ 100 ∷ 100 ∷ []))
        ∷ (events.Tick (server_node 1))
        ∷ (events.Advance (400 ∷ 400 ∷ 400 ∷ []))
        ∷ (events.Deliver 11)
        ∷ (events.Deliver 13)
        ∷ (events.Deliver 14)
        ∷ (events.Advance (610 ∷ 610 ∷ 610 ∷ []))
        ∷ (events.Tick (server_node 1))
        ∷ (events.Deliver 15)
        ∷ (events.Deliver 16)
        ∷ (events.Deliver 17)
        ∷ (events.Effect 2)
        ∷ (events.Report 2 true)
        ∷ []) (world_of 2 1 1 8))
        ≡ tells (
        (sent 1 1 32769 1 0 0 0 bodies.Hello ∷ [])
        ∷ (sent 2 32769 1 1 1 0 0 bodies.Welcome ∷ [])
        ∷ (leased 1 1 1000 ∷ sent 3 1 32769 1 1 1 0 (bodies.Acquire 2 modes.X) ∷ [])
        ∷ (sent 4 32769 1 1 1 1 0 (bodies.Granted 2 (g 4294967297) modes.X) ∷ [])
        ∷ (sent 5 1 32769 1 1 2 0 (bodies.Allocate 2 (g 4294967297) (page 0) 1) ∷ [])
        ∷ (sent 6 32769 1 1 1 2 0 (bodies.Extents 2 (extent 0 1 0 1 ∷ [])) ∷ [])
        ∷ (wrote 1 1 1 2 0 (filled 77) ∷ answered 1 1 answers.Written ∷ [])
        ∷ []
        ∷ (write_out 1 1 1 1 0 1 2 0 1 (filled 77) ∷ sent 7 1 32769 1 1 3 850 bodies.KeepAlive ∷ [])
        ∷ []
        ∷ (failed 1 1 ∷ [])
        ∷ (lost 1 1 1 ∷ answered 1 2 (answers.Lost (lost_row 0 1 ∷ [])) ∷ [])
        ∷ (sent 8 2 32769 1 0 0 1000 bodies.Hello ∷ [])
        ∷ (sent 9 32769 2 1 1 0 1000 bodies.Welcome ∷ [])
        ∷ (leased 2 1 2000 ∷ sent 10 2 32769 1 1 1 1000 (bodies.Acquire 2 modes.S) ∷ [])
        ∷ (sent 11 32769 2 1 1 1 1000 (bodies.Queued 2 modes.S) ∷ sent 12 32769 1 1 1 0 0 (bodies.Demand 2 (g 4294967297) modes.S) ∷ [])
        ∷ []
        ∷ (suspected 1 1 2100 ∷ [])
        ∷ []
        ∷ (sent 13 2 32769 1 1 2 1500 bodies.KeepAlive ∷ [])
        ∷ (sent 14 32769 2 1 1 2 1500 bodies.Ack ∷ [])
        ∷ (leased 2 1 2500 ∷ [])
        ∷ []
        ∷ (stolen 1 1 1 ∷ sent 15 32769 2 1 1 0 0 (bodies.Granted 2 (g 4294967298) modes.S) ∷ [])
        ∷ (sent 16 2 32769 1 1 3 2110 (bodies.Map 2 (g 4294967298) (page 0)) ∷ [])
        ∷ (sent 17 32769 2 1 1 3 2110 (bodies.Extents 2 (extent 0 1 0 1 ∷ [])) ∷ [])
        ∷ (leased 2 1 3110 ∷ read_out 2 2 1 1 0 ∷ [])
        ∷ []
        ∷ (answered 2 1 (answers.Read (filled 0)) ∷ [])
        ∷ []) (counts 29 17 2 1 1 0 1 1) None }
{}

/// A command that was reported failed and had its effect.
#[tactic(auto, unfolding(crate::specs::WorldWords::world_words_open))]
pub fn ambiguous_failure()
    ensures { told (run (
        (ask 1 (asks.Write (on 1 2) (page 0) (filled 77)))
        ∷ (events.Deliver 1)
        ∷ (events.Deliver 2)
        ∷ (events.Deliver 3)
        ∷ (events.Deliver 4)
        ∷ (events.Deliver 5)
        ∷ (events.Deliver 6)
        ∷ (ask 1 (asks.Sync (on 1 2)))
        ∷ (events.Effect 1)
        ∷ (events.Report 1 false)
        ∷ (ask 2 (asks.Read (on 1 2) (page 0)))
        ∷ (events.Deliver 7)
        ∷ (events.Deliver 8)
        ∷ (events.Deliver 9)
        ∷ (events.Deliver 11)
        ∷ (events.Tick (client_node 1))
        ∷ (events.Effect 2)
        ∷ (events.Report 2 true)
        ∷ (events.Deliver 13)
        ∷ (events.Deliver 15)
        ∷ (events.Deliver 10)
        ∷ (events.Deliver 16)
        ∷ (events.Deliver 17)
        ∷ (events.Effect 3)
        ∷ (events.Report 3 true)
        ∷ []) (world_of 2 1 1 8))
        ≡ tells (
        (sent 1 1 32769 1 0 0 0 bodies.Hello ∷ [])
        ∷ (sent 2 32769 1 1 1 0 0 bodies.Welcome ∷ [])
        ∷ (leased 1 1 1000 ∷ sent 3 1 32769 1 1 1 0 (bodies.Acquire 2 modes.X) ∷ [])
        ∷ (sent 4 32769 1 1 1 1 0 (bodies.Granted 2 (g 4294967297) modes.X) ∷ [])
        ∷ (sent 5 1 32769 1 1 2 0 (bodies.Allocate 2 (g 4294967297) (page 0) 1) ∷ [])
        ∷ (sent 6 32769 1 1 1 2 0 (bodies.Extents 2 (extent 0 1 0 1 ∷ [])) ∷ [])
        ∷ (wrote 1 1 1 2 0 (filled 77) ∷ answered 1 1 answers.Written ∷ [])
        ∷ (write_out 1 1 1 1 0 1 2 0 1 (filled 77) ∷ [])
        ∷ (seen.Hardened 1 ∷ [])
        ∷ (answered 1 2 (answers.DiskFault 1) ∷ [])
        ∷ (sent 7 2 32769 1 0 0 0 bodies.Hello ∷ [])
        ∷ (sent 8 32769 2 1 1 0 0 bodies.Welcome ∷ [])
        ∷ (leased 2 1 1000 ∷ sent 9 2 32769 1 1 1 0 (bodies.Acquire 2 modes.S) ∷ [])
        ∷ (sent 10 32769 2 1 1 1 0 (bodies.Queued 2 modes.S) ∷ sent 11 32769 1 1 1 0 0 (bodies.Demand 2 (g 4294967297) modes.S) ∷ [])
        ∷ (sent 12 1 32769 1 1 0 0 (bodies.DemandSeen 2 (g 4294967297)) ∷ [])
        ∷ (write_out 2 1 2 1 0 1 2 0 1 (filled 77) ∷ [])
        ∷ []
        ∷ (sent 13 1 32769 1 1 3 0 (bodies.Released 2 (g 4294967297) modes.S) ∷ [])
        ∷ (sent 14 32769 1 1 1 3 0 bodies.Ack ∷ sent 15 32769 2 1 1 0 0 (bodies.Granted 2 (g 4294967298) modes.S) ∷ [])
        ∷ []
        ∷ (sent 16 2 32769 1 1 2 0 (bodies.Map 2 (g 4294967298) (page 0)) ∷ [])
        ∷ (sent 17 32769 2 1 1 2 0 (bodies.Extents 2 (extent 0 1 0 1 ∷ [])) ∷ [])
        ∷ (read_out 3 2 1 1 0 ∷ [])
        ∷ []
        ∷ (answered 2 1 (answers.Read (filled 77)) ∷ [])
        ∷ []) (counts 25 17 3 1 1 1 0 0) None }
{}
