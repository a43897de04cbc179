// Written by tools/rows/world_rows.py.
ghost use Rattle.std.specs.Prelude.{◌≡◌, ◌∷◌, [], None};
ghost use Rattle.st_base.specs.Page.{filled};
ghost use Rattle.st_base.specs.declared.mode.Mode.TheVariants as modes;
ghost use Rattle.st_messages.specs.declared.answer.AppAnswer.TheVariants as answers;
ghost use Rattle.st_messages.specs.declared.ask.Ask.TheVariants as asks;
ghost use Rattle.st_messages.specs.declared.event.Event.TheVariants as events;
ghost use Rattle.st_messages.specs.declared.message.Body.TheVariants as bodies;
ghost use Rattle.st_messages.specs.declared.message.Why.TheVariants as why;
ghost use Rattle.st_rules.specs.Run.{run};
ghost use Rattle.st_rows.specs.ClientWords.{on};
ghost use Rattle.st_rows.specs.Words.{extent, g, page};
ghost use Rattle.st_rows_world.specs.WorldWords.{answered, ask, client_node, counts, leased, sent, server_node, suspected, tells, told, world_of, wrote};

/// A server that starts again while a timer runs accepts the client's locks.
#[tactic(auto, unfolding(crate::specs::WorldWords::world_words_open))]
pub fn restart_while_a_timer_runs()
    ensures { told (run (
        (ask 1 (asks.Write (on 1 2) (page 0) (filled 77)))
        ∷ (events.Deliver 1)
        ∷ (events.Deliver 2)
        ∷ (events.Deliver 3)
        ∷ (events.Deliver 4)
        ∷ (events.Deliver 5)
        ∷ (events.Deliver 6)
        ∷ (ask 2 (asks.Read (on 1 2) (page 0)))
        ∷ (events.Deliver 7)
        ∷ (events.Deliver 8)
        ∷ (events.Deliver 9)
        ∷ (events.Advance (100 ∷ 100 ∷ 100 ∷ []))
        ∷ (events.Tick (server_node 1))
        ∷ (events.Crash (server_node 1))
        ∷ (events.Start (server_node 1))
        ∷ (events.Advance (400 ∷ 400 ∷ 400 ∷ []))
        ∷ (events.Tick (client_node 1))
        ∷ (events.Deliver 12)
        ∷ (events.Deliver 13)
        ∷ (events.Deliver 14)
        ∷ (events.Deliver 15)
        ∷ (ask 1 (asks.Read (on 1 2) (page 0)))
        ∷ []) (world_of 2 1 1 8))
        ≡ tells (
        (sent 1 1 32769 1 0 0 0 bodies.Hello ∷ [])
        ∷ (sent 2 32769 1 1 1 0 0 bodies.Welcome ∷ [])
        ∷ (leased 1 1 1000 ∷ sent 3 1 32769 1 1 1 0 (bodies.Acquire 2 modes.X) ∷ [])
        ∷ (sent 4 32769 1 1 1 1 0 (bodies.Granted 2 (g 4294967297) modes.X) ∷ [])
        ∷ (sent 5 1 32769 1 1 2 0 (bodies.Allocate 2 (g 4294967297) (page 0) 1) ∷ [])
        ∷ (sent 6 32769 1 1 1 2 0 (bodies.Extents 2 (extent 0 1 0 1 ∷ [])) ∷ [])
        ∷ (wrote 1 1 1 2 0 (filled 77) ∷ answered 1 1 answers.Written ∷ [])
        ∷ (sent 7 2 32769 1 0 0 0 bodies.Hello ∷ [])
        ∷ (sent 8 32769 2 1 1 0 0 bodies.Welcome ∷ [])
        ∷ (leased 2 1 1000 ∷ sent 9 2 32769 1 1 1 0 (bodies.Acquire 2 modes.S) ∷ [])
        ∷ (sent 10 32769 2 1 1 1 0 (bodies.Queued 2 modes.S) ∷ sent 11 32769 1 1 1 0 0 (bodies.Demand 2 (g 4294967297) modes.S) ∷ [])
        ∷ []
        ∷ (suspected 1 1 1100 ∷ [])
        ∷ []
        ∷ []
        ∷ []
        ∷ (sent 12 1 32769 1 1 3 500 bodies.KeepAlive ∷ [])
        ∷ (sent 13 32769 1 1 2 3 500 (bodies.Nack why.OtherEpoch 1 2) ∷ [])
        ∷ (sent 14 1 32769 1 2 1 500 (bodies.Reassert ((2, g 4294967297, modes.X) ∷ [])) ∷ [])
        ∷ (sent 15 32769 1 1 2 1 500 bodies.Reasserted ∷ [])
        ∷ (leased 1 1 1500 ∷ [])
        ∷ (answered 1 2 (answers.Read (filled 77)) ∷ [])
        ∷ []) (counts 22 15 0 1 1 0 0 0) None }
{}

/// A reassertion that comes again is answered again.
#[tactic(auto, unfolding(crate::specs::WorldWords::world_words_open))]
pub fn second_reassertion()
    ensures { told (run (
        (ask 1 (asks.Write (on 1 2) (page 0) (filled 77)))
        ∷ (events.Deliver 1)
        ∷ (events.Deliver 2)
        ∷ (events.Deliver 3)
        ∷ (events.Deliver 4)
        ∷ (events.Deliver 5)
        ∷ (events.Deliver 6)
        ∷ (ask 2 (asks.Read (on 1 2) (page 0)))
        ∷ (events.Deliver 7)
        ∷ (events.Deliver 8)
        ∷ (events.Deliver 9)
        ∷ (events.Advance (100 ∷ 100 ∷ 100 ∷ []))
        ∷ (events.Tick (server_node 1))
        ∷ (events.Crash (server_node 1))
        ∷ (events.Start (server_node 1))
        ∷ (events.Advance (400 ∷ 400 ∷ 400 ∷ []))
        ∷ (events.Tick (client_node 1))
        ∷ (events.Deliver 12)
        ∷ (events.Deliver 13)
        ∷ (events.Deliver 14)
        ∷ (events.Deliver 14)
        ∷ []) (world_of 2 1 1 8))
        ≡ tells (
        (sent 1 1 32769 1 0 0 0 bodies.Hello ∷ [])
        ∷ (sent 2 32769 1 1 1 0 0 bodies.Welcome ∷ [])
        ∷ (leased 1 1 1000 ∷ sent 3 1 32769 1 1 1 0 (bodies.Acquire 2 modes.X) ∷ [])
        ∷ (sent 4 32769 1 1 1 1 0 (bodies.Granted 2 (g 4294967297) modes.X) ∷ [])
        ∷ (sent 5 1 32769 1 1 2 0 (bodies.Allocate 2 (g 4294967297) (page 0) 1) ∷ [])
        ∷ (sent 6 32769 1 1 1 2 0 (bodies.Extents 2 (extent 0 1 0 1 ∷ [])) ∷ [])
        ∷ (wrote 1 1 1 2 0 (filled 77) ∷ answered 1 1 answers.Written ∷ [])
        ∷ (sent 7 2 32769 1 0 0 0 bodies.Hello ∷ [])
        ∷ (sent 8 32769 2 1 1 0 0 bodies.Welcome ∷ [])
        ∷ (leased 2 1 1000 ∷ sent 9 2 32769 1 1 1 0 (bodies.Acquire 2 modes.S) ∷ [])
        ∷ (sent 10 32769 2 1 1 1 0 (bodies.Queued 2 modes.S) ∷ sent 11 32769 1 1 1 0 0 (bodies.Demand 2 (g 4294967297) modes.S) ∷ [])
        ∷ []
        ∷ (suspected 1 1 1100 ∷ [])
        ∷ []
        ∷ []
        ∷ []
        ∷ (sent 12 1 32769 1 1 3 500 bodies.KeepAlive ∷ [])
        ∷ (sent 13 32769 1 1 2 3 500 (bodies.Nack why.OtherEpoch 1 2) ∷ [])
        ∷ (sent 14 1 32769 1 2 1 500 (bodies.Reassert ((2, g 4294967297, modes.X) ∷ [])) ∷ [])
        ∷ (sent 15 32769 1 1 2 1 500 bodies.Reasserted ∷ [])
        ∷ (sent 16 32769 1 1 2 1 500 bodies.Reasserted ∷ [])
        ∷ []) (counts 21 16 0 1 0 0 0 0) None }
{}
