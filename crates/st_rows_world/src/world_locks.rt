// Written by tools/rows/world_rows.py.
ghost use Rattle.std.specs.Prelude.{◌≡◌, ◌∷◌, [], None};
ghost use Rattle.st_base.specs.Page.{filled};
ghost use Rattle.st_base.specs.declared.mode.Mode.TheVariants as modes;
ghost use Rattle.st_messages.specs.declared.ask.Ask.TheVariants as asks;
ghost use Rattle.st_messages.specs.declared.event.Event.TheVariants as events;
ghost use Rattle.st_messages.specs.declared.message.Body.TheVariants as bodies;
ghost use Rattle.st_rules.specs.Run.{run};
ghost use Rattle.st_rows.specs.ClientWords.{on};
ghost use Rattle.st_rows.specs.Words.{g, page};
ghost use Rattle.st_rows_world.specs.WorldWords.{ask, counts, leased, sent, tells, told, world_of};

/// A demand that comes before its grant.
#[tactic(auto, unfolding(crate::specs::WorldWords::world_words_open))]
pub fn demand_before_grant()
    ensures { told (run (
        (ask 1 (asks.Write (on 1 2) (page 0) (filled 77)))
        ∷ (events.Deliver 1)
        ∷ (events.Deliver 2)
        ∷ (events.Deliver 3)
        ∷ (ask 2 (asks.Write (on 1 2) (page 0) (filled 88)))
        ∷ (events.Deliver 5)
        ∷ (events.Deliver 6)
        ∷ (events.Deliver 7)
        ∷ (events.Deliver 9)
        ∷ (events.Deliver 4)
        ∷ (events.Deliver 10)
        ∷ (events.Deliver 12)
        ∷ (events.Deliver 8)
        ∷ []) (world_of 2 1 1 8))
        ≡ tells (
        (sent 1 1 32769 1 0 0 0 bodies.Hello ∷ [])
        ∷ (sent 2 32769 1 1 1 0 0 bodies.Welcome ∷ [])
        ∷ (leased 1 1 1000 ∷ sent 3 1 32769 1 1 1 0 (bodies.Acquire 2 modes.X) ∷ [])
        ∷ (sent 4 32769 1 1 1 1 0 (bodies.Granted 2 (g 4294967297) modes.X) ∷ [])
        ∷ (sent 5 2 32769 1 0 0 0 bodies.Hello ∷ [])
        ∷ (sent 6 32769 2 1 1 0 0 bodies.Welcome ∷ [])
        ∷ (leased 2 1 1000 ∷ sent 7 2 32769 1 1 1 0 (bodies.Acquire 2 modes.X) ∷ [])
        ∷ (sent 8 32769 2 1 1 1 0 (bodies.Queued 2 modes.X) ∷ sent 9 32769 1 1 1 0 0 (bodies.Demand 2 (g 4294967297) modes.None) ∷ [])
        ∷ []
        ∷ (sent 10 1 32769 1 1 2 0 (bodies.Released 2 (g 4294967297) modes.None) ∷ [])
        ∷ (sent 11 32769 1 1 1 2 0 bodies.Ack ∷ sent 12 32769 2 1 1 0 0 (bodies.Granted 2 (g 4294967298) modes.X) ∷ [])
        ∷ []
        ∷ (sent 13 2 32769 1 1 2 0 (bodies.Allocate 2 (g 4294967298) (page 0) 1) ∷ [])
        ∷ []) (counts 13 13 0 0 0 0 0 0) None }
{}

/// A release that comes again changes nothing.
#[tactic(auto, unfolding(crate::specs::WorldWords::world_words_open))]
pub fn repeated_release()
    ensures { told (run (
        (ask 1 (asks.Write (on 1 2) (page 0) (filled 77)))
        ∷ (events.Deliver 1)
        ∷ (events.Deliver 2)
        ∷ (events.Deliver 3)
        ∷ (ask 2 (asks.Write (on 1 2) (page 0) (filled 88)))
        ∷ (events.Deliver 5)
        ∷ (events.Deliver 6)
        ∷ (events.Deliver 7)
        ∷ (events.Deliver 9)
        ∷ (events.Deliver 4)
        ∷ (events.Deliver 10)
        ∷ (events.Deliver 11)
        ∷ (events.Deliver 13)
        ∷ (events.Deliver 10)
        ∷ (events.Deliver 12)
        ∷ (events.Deliver 15)
        ∷ (events.Deliver 8)
        ∷ (events.Deliver 17)
        ∷ (events.Deliver 10)
        ∷ []) (world_of 2 1 1 8))
        ≡ tells (
        (sent 1 1 32769 1 0 0 0 bodies.Hello ∷ [])
        ∷ (sent 2 32769 1 1 1 0 0 bodies.Welcome ∷ [])
        ∷ (leased 1 1 1000 ∷ sent 3 1 32769 1 1 1 0 (bodies.Acquire 2 modes.X) ∷ [])
        ∷ (sent 4 32769 1 1 1 1 0 (bodies.Granted 2 (g 4294967297) modes.X) ∷ [])
        ∷ (sent 5 2 32769 1 0 0 0 bodies.Hello ∷ [])
        ∷ (sent 6 32769 2 1 1 0 0 bodies.Welcome ∷ [])
        ∷ (leased 2 1 1000 ∷ sent 7 2 32769 1 1 1 0 (bodies.Acquire 2 modes.X) ∷ [])
        ∷ (sent 8 32769 2 1 1 1 0 (bodies.Queued 2 modes.X) ∷ sent 9 32769 1 1 1 0 0 (bodies.Demand 2 (g 4294967297) modes.None) ∷ [])
        ∷ []
        ∷ (sent 10 1 32769 1 1 2 0 (bodies.Released 2 (g 4294967297) modes.None) ∷ [])
        ∷ (sent 11 32769 1 1 1 2 0 bodies.Ack ∷ sent 12 32769 2 1 1 0 0 (bodies.Granted 2 (g 4294967298) modes.X) ∷ [])
        ∷ (sent 13 1 32769 1 1 3 0 (bodies.Acquire 2 modes.X) ∷ [])
        ∷ (sent 14 32769 1 1 1 3 0 (bodies.Queued 2 modes.X) ∷ sent 15 32769 2 1 1 0 0 (bodies.Demand 2 (g 4294967298) modes.None) ∷ [])
        ∷ []
        ∷ []
        ∷ (sent 16 2 32769 1 1 0 0 (bodies.DemandSeen 2 (g 4294967298)) ∷ [])
        ∷ (sent 17 2 32769 1 1 2 0 (bodies.Released 2 (g 4294967298) modes.None) ∷ [])
        ∷ (sent 18 32769 2 1 1 2 0 bodies.Ack ∷ sent 19 32769 1 1 1 0 0 (bodies.Granted 2 (g 4294967299) modes.X) ∷ [])
        ∷ []
        ∷ []) (counts 19 19 0 0 0 0 0 0) None }
{}
