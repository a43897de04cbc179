// Written by tools/rows/world_rows.py.
ghost use Rattle.std.specs.Prelude.{◌≡◌, ◌∷◌, [], None};
ghost use Rattle.st_base.specs.Page.{filled};
ghost use Rattle.st_base.specs.declared.mode.Mode.TheVariants as modes;
ghost use Rattle.st_messages.specs.declared.answer.AppAnswer.TheVariants as answers;
ghost use Rattle.st_messages.specs.declared.ask.Ask.TheVariants as asks;
ghost use Rattle.st_messages.specs.declared.event.Event.TheVariants as events;
ghost use Rattle.st_messages.specs.declared.message.Body.TheVariants as bodies;
ghost use Rattle.st_rules.specs.Run.{run};
ghost use Rattle.st_rows.specs.ClientWords.{on};
ghost use Rattle.st_rows.specs.Words.{extent, g, page};
ghost use Rattle.st_rows_world.specs.WorldWords.{answered, ask, client_node, counts, leased, lost, sent, tells, told, world_of, wrote};

/// A lease is dated from the greeting's sending.
#[tactic(auto, unfolding(crate::specs::WorldWords::world_words_open))]
pub fn dating()
    ensures { told (run (
        (events.Advance (100 ∷ 100 ∷ 100 ∷ []))
        ∷ (ask 1 (asks.Write (on 1 2) (page 0) (filled 77)))
        ∷ (events.Deliver 1)
        ∷ (events.Advance (300 ∷ 300 ∷ 300 ∷ []))
        ∷ (events.Deliver 2)
        ∷ []) (world_of 2 1 1 8))
        ≡ tells (
        []
        ∷ (sent 1 1 32769 1 0 0 100 bodies.Hello ∷ [])
        ∷ (sent 2 32769 1 1 1 0 100 bodies.Welcome ∷ [])
        ∷ []
        ∷ (leased 1 1 1100 ∷ sent 3 1 32769 1 1 1 400 (bodies.Acquire 2 modes.X) ∷ [])
        ∷ []) (counts 5 3 0 0 0 0 0 0) None }
{}

/// A keep-alive is sent from renewal on, and dates the lease.
#[tactic(auto, unfolding(crate::specs::WorldWords::world_words_open))]
pub fn keep_alive()
    ensures { told (run (
        (ask 1 (asks.Write (on 1 2) (page 0) (filled 77)))
        ∷ (events.Deliver 1)
        ∷ (events.Deliver 2)
        ∷ (events.Deliver 3)
        ∷ (events.Deliver 4)
        ∷ (events.Deliver 5)
        ∷ (events.Deliver 6)
        ∷ (events.Advance (499 ∷ 499 ∷ 499 ∷ []))
        ∷ (events.Tick (client_node 1))
        ∷ (events.Advance (1 ∷ 1 ∷ 1 ∷ []))
        ∷ (events.Tick (client_node 1))
        ∷ (events.Deliver 7)
        ∷ (events.Advance (100 ∷ 100 ∷ 100 ∷ []))
        ∷ (events.Deliver 8)
        ∷ []) (world_of 2 1 1 8))
        ≡ tells (
        (sent 1 1 32769 1 0 0 0 bodies.Hello ∷ [])
        ∷ (sent 2 32769 1 1 1 0 0 bodies.Welcome ∷ [])
        ∷ (leased 1 1 1000 ∷ sent 3 1 32769 1 1 1 0 (bodies.Acquire 2 modes.X) ∷ [])
        ∷ (sent 4 32769 1 1 1 1 0 (bodies.Granted 2 (g 4294967297) modes.X) ∷ [])
        ∷ (sent 5 1 32769 1 1 2 0 (bodies.Allocate 2 (g 4294967297) (page 0) 1) ∷ [])
        ∷ (sent 6 32769 1 1 1 2 0 (bodies.Extents 2 (extent 0 1 0 1 ∷ [])) ∷ [])
        ∷ (wrote 1 1 1 2 0 (filled 77) ∷ answered 1 1 answers.Written ∷ [])
        ∷ []
        ∷ []
        ∷ []
        ∷ (sent 7 1 32769 1 1 3 500 bodies.KeepAlive ∷ [])
        ∷ (sent 8 32769 1 1 1 3 500 bodies.Ack ∷ [])
        ∷ []
        ∷ (leased 1 1 1500 ∷ [])
        ∷ []) (counts 14 8 0 1 0 0 0 0) None }
{}

/// A lease is over from its end on.
#[tactic(auto, unfolding(crate::specs::WorldWords::world_words_open))]
pub fn equality()
    ensures { told (run (
        (ask 1 (asks.Write (on 1 2) (page 0) (filled 77)))
        ∷ (events.Deliver 1)
        ∷ (events.Deliver 2)
        ∷ (events.Advance (999 ∷ 999 ∷ 999 ∷ []))
        ∷ (events.Tick (client_node 1))
        ∷ (events.Advance (1 ∷ 1 ∷ 1 ∷ []))
        ∷ (events.Tick (client_node 1))
        ∷ []) (world_of 2 1 1 8))
        ≡ tells (
        (sent 1 1 32769 1 0 0 0 bodies.Hello ∷ [])
        ∷ (sent 2 32769 1 1 1 0 0 bodies.Welcome ∷ [])
        ∷ (leased 1 1 1000 ∷ sent 3 1 32769 1 1 1 0 (bodies.Acquire 2 modes.X) ∷ [])
        ∷ []
        ∷ (answered 1 1 answers.Quiesced ∷ sent 4 1 32769 1 1 1 999 (bodies.Acquire 2 modes.X) ∷ [])
        ∷ []
        ∷ (lost 1 1 1 ∷ [])
        ∷ []) (counts 7 4 0 0 0 0 0 0) None }
{}

/// A reply at the lease end comes too late.
#[tactic(auto, unfolding(crate::specs::WorldWords::world_words_open))]
pub fn late_reply()
    ensures { told (run (
        (ask 1 (asks.Write (on 1 2) (page 0) (filled 77)))
        ∷ (events.Deliver 1)
        ∷ (events.Deliver 2)
        ∷ (events.Advance (999 ∷ 999 ∷ 999 ∷ []))
        ∷ (events.Tick (client_node 1))
        ∷ (events.Deliver 4)
        ∷ (events.Advance (1 ∷ 1 ∷ 1 ∷ []))
        ∷ (events.Deliver 5)
        ∷ []) (world_of 2 1 1 8))
        ≡ tells (
        (sent 1 1 32769 1 0 0 0 bodies.Hello ∷ [])
        ∷ (sent 2 32769 1 1 1 0 0 bodies.Welcome ∷ [])
        ∷ (leased 1 1 1000 ∷ sent 3 1 32769 1 1 1 0 (bodies.Acquire 2 modes.X) ∷ [])
        ∷ []
        ∷ (answered 1 1 answers.Quiesced ∷ sent 4 1 32769 1 1 1 999 (bodies.Acquire 2 modes.X) ∷ [])
        ∷ (sent 5 32769 1 1 1 1 999 (bodies.Granted 2 (g 4294967297) modes.X) ∷ [])
        ∷ []
        ∷ (lost 1 1 1 ∷ [])
        ∷ []) (counts 8 5 0 0 0 0 0 0) None }
{}
