// Written by tools/rows/world_rows.py.
ghost use Rattle.std.specs.Prelude.{◌≡◌, ◌∷◌, [], None, codes, true};
ghost use Rattle.st_base.specs.Page.{filled};
ghost use Rattle.st_base.specs.declared.mode.Mode.TheVariants as modes;
ghost use Rattle.st_base.specs.declared.names.NameAsk.TheVariants as names;
ghost use Rattle.st_messages.specs.declared.answer.AppAnswer.TheVariants as answers;
ghost use Rattle.st_messages.specs.declared.ask.Ask.TheVariants as asks;
ghost use Rattle.st_messages.specs.declared.event.Event.TheVariants as events;
ghost use Rattle.st_messages.specs.declared.message.Body.TheVariants as bodies;
ghost use Rattle.st_messages.specs.declared.message.NameOp.TheVariants as ops;
ghost use Rattle.st_messages.specs.declared.message.NameReply.TheVariants as replies;
ghost use Rattle.st_messages.specs.declared.message.Why.TheVariants as why;
ghost use Rattle.st_rules.specs.Run.{run};
ghost use Rattle.st_rules.specs.declared.observation.Observation.TheVariants as seen;
ghost use Rattle.st_rows.specs.ClientWords.{on, server};
ghost use Rattle.st_rows.specs.Words.{extent, g, page};
ghost use Rattle.st_rows_world.specs.WorldWords.{answered, ask, client_node, counts, dropped, leased, lost, sent, server_node, stolen, suspected, tells, told, world_of, write_out, wrote};

/// A client that is greeted while its locks of an earlier life are there waits until they are
/// stolen.
#[tactic(auto, unfolding(crate::specs::WorldWords::world_words_open))]
pub fn later_life_waits()
    ensures { told (run (
        (ask 1 (asks.Write (on 1 2) (page 0) (filled 77)))
        ∷ (events.Deliver 1)
        ∷ (events.Deliver 2)
        ∷ (events.Deliver 3)
        ∷ (events.Deliver 4)
        ∷ (events.Deliver 5)
        ∷ (events.Deliver 6)
        ∷ (events.Crash (client_node 1))
        ∷ (events.Start (client_node 1))
        ∷ (ask 1 (asks.Read (on 1 2) (page 0)))
        ∷ (events.Deliver 7)
        ∷ (events.Deliver 8)
        ∷ (events.Advance (1010 ∷ 1010 ∷ 1010 ∷ []))
        ∷ (events.Tick (server_node 1))
        ∷ (events.Tick (client_node 1))
        ∷ (events.Deliver 9)
        ∷ (events.Deliver 1)
        ∷ (events.Deliver 10)
        ∷ (events.Deliver 11)
        ∷ (events.Deliver 12)
        ∷ []) (world_of 2 1 1 8))
        ≡ tells (
        (sent 1 1 32769 1 0 0 0 bodies.Hello ∷ [])
        ∷ (sent 2 32769 1 1 1 0 0 bodies.Welcome ∷ [])
        ∷ (leased 1 1 1000 ∷ sent 3 1 32769 1 1 1 0 (bodies.Acquire 2 modes.X) ∷ [])
        ∷ (sent 4 32769 1 1 1 1 0 (bodies.Granted 2 (g 4294967297) modes.X) ∷ [])
        ∷ (sent 5 1 32769 1 1 2 0 (bodies.Allocate 2 (g 4294967297) (page 0) 1) ∷ [])
        ∷ (sent 6 32769 1 1 1 2 0 (bodies.Extents 2 (extent 0 1 0 1 ∷ [])) ∷ [])
        ∷ (wrote 1 1 1 2 0 (filled 77) ∷ answered 1 1 answers.Written ∷ [])
        ∷ (dropped 1 ∷ [])
        ∷ []
        ∷ (sent 7 1 32769 2 0 0 0 bodies.Hello ∷ [])
        ∷ (suspected 1 1 1000 ∷ sent 8 32769 1 2 1 0 0 (bodies.Nack why.Suspect 1000 0) ∷ [])
        ∷ []
        ∷ []
        ∷ (stolen 1 1 1 ∷ [])
        ∷ (sent 9 1 32769 2 0 0 1010 bodies.Hello ∷ [])
        ∷ (sent 10 32769 1 2 1 0 1010 bodies.Welcome ∷ [])
        ∷ []
        ∷ (leased 1 1 2010 ∷ sent 11 1 32769 2 1 1 1010 (bodies.Acquire 2 modes.S) ∷ [])
        ∷ (sent 12 32769 1 2 1 1 1010 (bodies.Granted 2 (g 4294967298) modes.S) ∷ [])
        ∷ (sent 13 1 32769 2 1 2 1010 (bodies.Map 2 (g 4294967298) (page 0)) ∷ [])
        ∷ []) (counts 20 13 0 1 0 0 1 1) None }
{}

/// Without locks its new life is welcome at once; an older greeting, request and welcome are
/// ignored.
#[tactic(auto, unfolding(crate::specs::WorldWords::world_words_open))]
pub fn later_life_replaces()
    ensures { told (run (
        (ask 1 (asks.Read (on 1 2) (page 0)))
        ∷ (events.Deliver 1)
        ∷ (events.Deliver 2)
        ∷ (events.Crash (client_node 1))
        ∷ (events.Start (client_node 1))
        ∷ (ask 1 (asks.Read (on 1 2) (page 0)))
        ∷ (events.Deliver 4)
        ∷ (events.Deliver 1)
        ∷ (events.Deliver 3)
        ∷ (events.Deliver 4)
        ∷ (events.Deliver 2)
        ∷ (events.Deliver 5)
        ∷ (events.Deliver 7)
        ∷ (events.Deliver 8)
        ∷ (events.Deliver 9)
        ∷ (events.Deliver 10)
        ∷ []) (world_of 2 1 1 8))
        ≡ tells (
        (sent 1 1 32769 1 0 0 0 bodies.Hello ∷ [])
        ∷ (sent 2 32769 1 1 1 0 0 bodies.Welcome ∷ [])
        ∷ (leased 1 1 1000 ∷ sent 3 1 32769 1 1 1 0 (bodies.Acquire 2 modes.S) ∷ [])
        ∷ []
        ∷ []
        ∷ (sent 4 1 32769 2 0 0 0 bodies.Hello ∷ [])
        ∷ (sent 5 32769 1 2 1 0 0 bodies.Welcome ∷ [])
        ∷ []
        ∷ []
        ∷ (sent 6 32769 1 2 1 0 0 bodies.Welcome ∷ [])
        ∷ []
        ∷ (leased 1 1 1000 ∷ sent 7 1 32769 2 1 1 0 (bodies.Acquire 2 modes.S) ∷ [])
        ∷ (sent 8 32769 1 2 1 1 0 (bodies.Granted 2 (g 4294967297) modes.S) ∷ [])
        ∷ (sent 9 1 32769 2 1 2 0 (bodies.Map 2 (g 4294967297) (page 0)) ∷ [])
        ∷ (sent 10 32769 1 2 1 2 0 (bodies.Extents 2 []) ∷ [])
        ∷ (answered 1 2 (answers.Read (filled 0)) ∷ [])
        ∷ []) (counts 16 10 0 0 1 0 0 0) None }
{}

/// A name that was asked is uncertain at a loss, though the server gave it.
#[tactic(auto, unfolding(crate::specs::WorldWords::world_words_open))]
pub fn uncertain_at_a_loss()
    ensures { told (run (
        (ask 1 (asks.Name (server 1) (names.Mkdir 1 (codes "a"))))
        ∷ (ask 1 (asks.Read (on 1 2) (page 0)))
        ∷ (events.Deliver 1)
        ∷ (events.Deliver 2)
        ∷ (events.Deliver 3)
        ∷ (events.Advance (1000 ∷ 1000 ∷ 1000 ∷ []))
        ∷ (events.Deliver 4)
        ∷ (ask 1 (asks.Name (server 1) (names.Lookup 1 (codes "a"))))
        ∷ (events.Deliver 5)
        ∷ (events.Deliver 6)
        ∷ (events.Deliver 7)
        ∷ (events.Deliver 8)
        ∷ []) (world_of 2 1 1 8))
        ≡ tells (
        (sent 1 1 32769 1 0 0 0 bodies.Hello ∷ [])
        ∷ []
        ∷ (sent 2 32769 1 1 1 0 0 bodies.Welcome ∷ [])
        ∷ (leased 1 1 1000 ∷ sent 3 1 32769 1 1 1 0 (bodies.Name (ops.Mkdir 1 (codes "a"))) ∷ [])
        ∷ (sent 4 32769 1 1 1 1 0 (bodies.Named (replies.Ino 10)) ∷ [])
        ∷ []
        ∷ (lost 1 1 1 ∷ answered 1 1 (answers.Uncertain 1 0) ∷ answered 1 2 answers.Quiesced ∷ [])
        ∷ (sent 5 1 32769 2 0 0 1000 bodies.Hello ∷ [])
        ∷ (sent 6 32769 1 2 1 0 1000 bodies.Welcome ∷ [])
        ∷ (leased 1 1 2000 ∷ sent 7 1 32769 2 1 1 1000 (bodies.Name (ops.Lookup 1 (codes "a"))) ∷ [])
        ∷ (sent 8 32769 1 2 1 1 1000 (bodies.Named (replies.Ino 10)) ∷ [])
        ∷ (answered 1 3 (answers.Named 10) ∷ [])
        ∷ []) (counts 12 8 0 0 0 0 0 0) None }
{}

/// A client with leases at two servers, each with its own disk, loses them in rising order.
#[tactic(auto, unfolding(crate::specs::WorldWords::world_words_open))]
pub fn two_servers()
    ensures { told (run (
        (ask 1 (asks.Write (on 2 2) (page 0) (filled 5)))
        ∷ (ask 1 (asks.Read (on 1 2) (page 0)))
        ∷ (events.Deliver 1)
        ∷ (events.Deliver 2)
        ∷ (events.Deliver 3)
        ∷ (events.Deliver 4)
        ∷ (events.Deliver 5)
        ∷ (events.Deliver 6)
        ∷ (events.Deliver 7)
        ∷ (events.Deliver 8)
        ∷ (events.Deliver 9)
        ∷ (events.Deliver 10)
        ∷ (events.Deliver 11)
        ∷ (events.Deliver 12)
        ∷ (ask 1 (asks.Sync (on 2 2)))
        ∷ (events.Effect 1)
        ∷ (events.Report 1 true)
        ∷ (events.Advance (1000 ∷ 1000 ∷ 1000 ∷ 1000 ∷ []))
        ∷ (events.Tick (client_node 1))
        ∷ []) (world_of 2 2 2 8))
        ≡ tells (
        (sent 1 1 32770 1 0 0 0 bodies.Hello ∷ [])
        ∷ (sent 2 1 32769 1 0 0 0 bodies.Hello ∷ [])
        ∷ (sent 3 32770 1 1 1 0 0 bodies.Welcome ∷ [])
        ∷ (sent 4 32769 1 1 1 0 0 bodies.Welcome ∷ [])
        ∷ (leased 1 2 1000 ∷ sent 5 1 32770 1 1 1 0 (bodies.Acquire 2 modes.X) ∷ [])
        ∷ (leased 1 1 1000 ∷ sent 6 1 32769 1 1 1 0 (bodies.Acquire 2 modes.S) ∷ [])
        ∷ (sent 7 32770 1 1 1 1 0 (bodies.Granted 2 (g 4294967297) modes.X) ∷ [])
        ∷ (sent 8 32769 1 1 1 1 0 (bodies.Granted 2 (g 4294967297) modes.S) ∷ [])
        ∷ (sent 9 1 32770 1 1 2 0 (bodies.Allocate 2 (g 4294967297) (page 0) 1) ∷ [])
        ∷ (sent 10 1 32769 1 1 2 0 (bodies.Map 2 (g 4294967297) (page 0)) ∷ [])
        ∷ (sent 11 32770 1 1 1 2 0 (bodies.Extents 2 (extent 0 2 0 1 ∷ [])) ∷ [])
        ∷ (sent 12 32769 1 1 1 2 0 (bodies.Extents 2 []) ∷ [])
        ∷ (wrote 1 1 2 2 0 (filled 5) ∷ answered 1 1 answers.Written ∷ [])
        ∷ (answered 1 2 (answers.Read (filled 0)) ∷ [])
        ∷ (write_out 1 1 1 2 0 2 2 0 1 (filled 5) ∷ [])
        ∷ (seen.Hardened 1 ∷ [])
        ∷ (answered 1 3 answers.Hard ∷ [])
        ∷ []
        ∷ (lost 1 1 1 ∷ lost 1 2 1 ∷ [])
        ∷ []) (counts 19 12 1 1 1 1 0 0) None }
{}

/// A client that is refused as a suspect serves nothing new, flushes, and loses its lease.
#[tactic(auto, unfolding(crate::specs::WorldWords::world_words_open))]
pub fn condemned()
    ensures { told (run (
        (ask 1 (asks.Write (on 1 2) (page 0) (filled 77)))
        ∷ (events.Deliver 1)
        ∷ (events.Deliver 2)
        ∷ (events.Deliver 3)
        ∷ (events.Deliver 4)
        ∷ (events.Deliver 5)
        ∷ (events.Deliver 6)
        ∷ (ask 2 (asks.Read (on 1 2) (page 0)))
        ∷ (events.Deliver 7)
        ∷ (events.Deliver 8)
        ∷ (events.Deliver 9)
        ∷ (events.Lose 11)
        ∷ (events.Advance (100 ∷ 100 ∷ 100 ∷ []))
        ∷ (events.Tick (server_node 1))
        ∷ (events.Advance (400 ∷ 400 ∷ 400 ∷ []))
        ∷ (events.Tick (client_node 1))
        ∷ (events.Deliver 12)
        ∷ (events.Deliver 13)
        ∷ (ask 1 (asks.Read (on 1 2) (page 0)))
        ∷ (events.Advance (350 ∷ 350 ∷ 350 ∷ []))
        ∷ (events.Tick (client_node 1))
        ∷ (events.Effect 1)
        ∷ (events.Report 1 true)
        ∷ (events.Advance (150 ∷ 150 ∷ 150 ∷ []))
        ∷ (events.Tick (client_node 1))
        ∷ []) (world_of 2 1 1 8))
        ≡ tells (
        (sent 1 1 32769 1 0 0 0 bodies.Hello ∷ [])
        ∷ (sent 2 32769 1 1 1 0 0 bodies.Welcome ∷ [])
        ∷ (leased 1 1 1000 ∷ sent 3 1 32769 1 1 1 0 (bodies.Acquire 2 modes.X) ∷ [])
        ∷ (sent 4 32769 1 1 1 1 0 (bodies.Granted 2 (g 4294967297) modes.X) ∷ [])
        ∷ (sent 5 1 32769 1 1 2 0 (bodies.Allocate 2 (g 4294967297) (page 0) 1) ∷ [])
        ∷ (sent 6 32769 1 1 1 2 0 (bodies.Extents 2 (extent 0 1 0 1 ∷ [])) ∷ [])
        ∷ (wrote 1 1 1 2 0 (filled 77) ∷ answered 1 1 answers.Written ∷ [])
        ∷ (sent 7 2 32769 1 0 0 0 bodies.Hello ∷ [])
        ∷ (sent 8 32769 2 1 1 0 0 bodies.Welcome ∷ [])
        ∷ (leased 2 1 1000 ∷ sent 9 2 32769 1 1 1 0 (bodies.Acquire 2 modes.S) ∷ [])
        ∷ (sent 10 32769 2 1 1 1 0 (bodies.Queued 2 modes.S) ∷ sent 11 32769 1 1 1 0 0 (bodies.Demand 2 (g 4294967297) modes.S) ∷ [])
        ∷ []
        ∷ []
        ∷ (suspected 1 1 1100 ∷ [])
        ∷ []
        ∷ (sent 12 1 32769 1 1 3 500 bodies.KeepAlive ∷ [])
        ∷ (sent 13 32769 1 1 1 3 500 (bodies.Nack why.Suspect 1100 0) ∷ [])
        ∷ []
        ∷ (answered 1 2 answers.Quiesced ∷ [])
        ∷ []
        ∷ (write_out 1 1 1 1 0 1 2 0 1 (filled 77) ∷ [])
        ∷ (seen.Hardened 1 ∷ [])
        ∷ []
        ∷ []
        ∷ (lost 1 1 1 ∷ [])
        ∷ []) (counts 25 13 1 1 0 1 0 0) None }
{}
