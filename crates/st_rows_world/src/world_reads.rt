// Written by tools/rows/world_rows.py.
ghost use Rattle.std.specs.Prelude.{◌≡◌, ◌∷◌, [], None, Some, true};
ghost use Rattle.st_base.specs.Page.{filled};
ghost use Rattle.st_base.specs.declared.mode.Mode.TheVariants as modes;
ghost use Rattle.st_messages.specs.declared.answer.AppAnswer.TheVariants as answers;
ghost use Rattle.st_messages.specs.declared.ask.Ask.TheVariants as asks;
ghost use Rattle.st_messages.specs.declared.event.Event.TheVariants as events;
ghost use Rattle.st_messages.specs.declared.message.Body.TheVariants as bodies;
ghost use Rattle.st_rules.specs.FlatLog.{overlay};
ghost use Rattle.st_rules.specs.Run.{run};
ghost use Rattle.st_rules.specs.declared.observation.Observation.TheVariants as seen;
ghost use Rattle.st_rules.specs.declared.observation.WorldRefusal.TheVariants as refusals;
ghost use Rattle.st_rows.specs.ClientWords.{on};
ghost use Rattle.st_rows.specs.Words.{extent, g, page};
ghost use Rattle.st_rows_world.specs.WorldWords.{answered, ask, client_node, counts, cut, grainy_world, leased, patched, read_out, sent, tells, told, world_of, write_out, wrote};

/// A client reads what it wrote.
#[tactic(auto, unfolding(crate::specs::WorldWords::world_words_open))]
pub fn own_write()
    ensures { told (run (
        (ask 1 (asks.Write (on 1 2) (page 0) (filled 77)))
        ∷ (events.Deliver 1)
        ∷ (events.Deliver 2)
        ∷ (events.Deliver 3)
        ∷ (events.Deliver 4)
        ∷ (events.Deliver 5)
        ∷ (events.Deliver 6)
        ∷ (ask 1 (asks.Read (on 1 2) (page 0)))
        ∷ []) (world_of 2 1 1 8))
        ≡ tells (
        (sent 1 1 32769 1 0 0 0 bodies.Hello ∷ [])
        ∷ (sent 2 32769 1 1 1 0 0 bodies.Welcome ∷ [])
        ∷ (leased 1 1 1000 ∷ sent 3 1 32769 1 1 1 0 (bodies.Acquire 2 modes.X) ∷ [])
        ∷ (sent 4 32769 1 1 1 1 0 (bodies.Granted 2 (g 4294967297) modes.X) ∷ [])
        ∷ (sent 5 1 32769 1 1 2 0 (bodies.Allocate 2 (g 4294967297) (page 0) 1) ∷ [])
        ∷ (sent 6 32769 1 1 1 2 0 (bodies.Extents 2 (extent 0 1 0 1 ∷ [])) ∷ [])
        ∷ (wrote 1 1 1 2 0 (filled 77) ∷ answered 1 1 answers.Written ∷ [])
        ∷ (answered 1 2 (answers.Read (filled 77)) ∷ [])
        ∷ []) (counts 8 6 0 1 1 0 0 0) None }
{}

/// A request is answered again with its kept reply, and a message that was not sent is refused.
#[tactic(auto, unfolding(crate::specs::WorldWords::world_words_open))]
pub fn no_message()
    ensures { told (run (
        (ask 1 (asks.Write (on 1 2) (page 0) (filled 77)))
        ∷ (events.Deliver 1)
        ∷ (events.Deliver 2)
        ∷ (events.Deliver 3)
        ∷ (events.Deliver 4)
        ∷ (events.Deliver 5)
        ∷ (events.Deliver 6)
        ∷ (events.Deliver 5)
        ∷ (events.Deliver 7)
        ∷ (events.Deliver 8)
        ∷ []) (world_of 2 1 1 8))
        ≡ tells (
        (sent 1 1 32769 1 0 0 0 bodies.Hello ∷ [])
        ∷ (sent 2 32769 1 1 1 0 0 bodies.Welcome ∷ [])
        ∷ (leased 1 1 1000 ∷ sent 3 1 32769 1 1 1 0 (bodies.Acquire 2 modes.X) ∷ [])
        ∷ (sent 4 32769 1 1 1 1 0 (bodies.Granted 2 (g 4294967297) modes.X) ∷ [])
        ∷ (sent 5 1 32769 1 1 2 0 (bodies.Allocate 2 (g 4294967297) (page 0) 1) ∷ [])
        ∷ (sent 6 32769 1 1 1 2 0 (bodies.Extents 2 (extent 0 1 0 1 ∷ [])) ∷ [])
        ∷ (wrote 1 1 1 2 0 (filled 77) ∷ answered 1 1 answers.Written ∷ [])
        ∷ (sent 7 32769 1 1 1 2 0 (bodies.Extents 2 (extent 0 1 0 1 ∷ [])) ∷ [])
        ∷ []
        ∷ []) (counts 9 7 0 1 0 0 0 0) (Some (refusals.NoMessage 8)) }
{}

/// The seventeenth operation of a client is refused.
#[tactic(auto, unfolding(crate::specs::WorldWords::world_words_open))]
pub fn operations_full()
    ensures { told (run (
        (ask 1 (asks.Read (on 1 2) (page 0)))
        ∷ (ask 1 (asks.Read (on 1 2) (page 0)))
        ∷ (ask 1 (asks.Read (on 1 2) (page 0)))
        ∷ (ask 1 (asks.Read (on 1 2) (page 0)))
        ∷ (ask 1 (asks.Read (on 1 2) (page 0)))
        ∷ (ask 1 (asks.Read (on 1 2) (page 0)))
        ∷ (ask 1 (asks.Read (on 1 2) (page 0)))
        ∷ (ask 1 (asks.Read (on 1 2) (page 0)))
        ∷ (ask 1 (asks.Read (on 1 2) (page 0)))
        ∷ (ask 1 (asks.Read (on 1 2) (page 0)))
        ∷ (ask 1 (asks.Read (on 1 2) (page 0)))
        ∷ (ask 1 (asks.Read (on 1 2) (page 0)))
        ∷ (ask 1 (asks.Read (on 1 2) (page 0)))
        ∷ (ask 1 (asks.Read (on 1 2) (page 0)))
        ∷ (ask 1 (asks.Read (on 1 2) (page 0)))
        ∷ (ask 1 (asks.Read (on 1 2) (page 0)))
        ∷ (ask 1 (asks.Read (on 1 2) (page 0)))
        ∷ []) (world_of 2 1 1 8))
        ≡ tells (
        (sent 1 1 32769 1 0 0 0 bodies.Hello ∷ [])
        ∷ []
        ∷ []
        ∷ []
        ∷ []
        ∷ []
        ∷ []
        ∷ []
        ∷ []
        ∷ []
        ∷ []
        ∷ []
        ∷ []
        ∷ []
        ∷ []
        ∷ []
        ∷ (answered 1 17 answers.OpsFull ∷ [])
        ∷ []) (counts 17 1 0 0 0 0 0 0) None }
{}

/// A patch of a written page; its effect makes both entries hard, also after a crash.
#[tactic(auto, unfolding(crate::specs::WorldWords::world_words_open))]
pub fn patch()
    ensures { told (run (
        (ask 1 (asks.Write (on 1 2) (page 0) (filled 77)))
        ∷ (events.Deliver 1)
        ∷ (events.Deliver 2)
        ∷ (events.Deliver 3)
        ∷ (events.Deliver 4)
        ∷ (events.Deliver 5)
        ∷ (events.Deliver 6)
        ∷ (ask 1 (asks.Patch (on 1 2) (page 0) 4094 (5 ∷ 5 ∷ [])))
        ∷ (ask 1 (asks.Read (on 1 2) (page 0)))
        ∷ (ask 1 (asks.Sync (on 1 2)))
        ∷ (events.Crash (client_node 1))
        ∷ (events.Effect 1)
        ∷ []) (grainy_world 0 2 1 1 8))
        ≡ tells (
        (sent 1 1 32769 1 0 0 0 bodies.Hello ∷ [])
        ∷ (sent 2 32769 1 1 1 0 0 bodies.Welcome ∷ [])
        ∷ (leased 1 1 1000 ∷ sent 3 1 32769 1 1 1 0 (bodies.Acquire 2 modes.X) ∷ [])
        ∷ (sent 4 32769 1 1 1 1 0 (bodies.Granted 2 (g 4294967297) modes.X) ∷ [])
        ∷ (sent 5 1 32769 1 1 2 0 (bodies.Allocate 2 (g 4294967297) (page 0) 1) ∷ [])
        ∷ (sent 6 32769 1 1 1 2 0 (bodies.Extents 2 (extent 0 1 0 1 ∷ [])) ∷ [])
        ∷ (wrote 1 1 1 2 0 (filled 77) ∷ answered 1 1 answers.Written ∷ [])
        ∷ (patched 2 1 1 2 0 4094 (5 ∷ 5 ∷ []) ∷ answered 1 2 answers.Written ∷ [])
        ∷ (answered 1 3 (answers.Read (overlay 4094 (5 ∷ 5 ∷ []) (filled 77))) ∷ [])
        ∷ (write_out 1 1 1 1 0 1 2 0 1 (overlay 4094 (5 ∷ 5 ∷ []) (filled 77)) ∷ [])
        ∷ []
        ∷ (seen.Hardened 1 ∷ seen.Hardened 2 ∷ [])
        ∷ []) (counts 12 6 1 2 1 2 0 0) None }
{}

/// A patch of a page that is first read from its disk.
#[tactic(auto, unfolding(crate::specs::WorldWords::world_words_open))]
pub fn patch_of_a_new_page()
    ensures { told (run (
        (ask 1 (asks.Patch (on 1 2) (page 0) 0 (9 ∷ [])))
        ∷ (events.Deliver 1)
        ∷ (events.Deliver 2)
        ∷ (events.Deliver 3)
        ∷ (events.Deliver 4)
        ∷ (events.Deliver 5)
        ∷ (events.Deliver 6)
        ∷ (events.Effect 1)
        ∷ (events.Report 1 true)
        ∷ (ask 1 (asks.Read (on 1 2) (page 0)))
        ∷ []) (grainy_world 0 2 1 1 8))
        ≡ tells (
        (sent 1 1 32769 1 0 0 0 bodies.Hello ∷ [])
        ∷ (sent 2 32769 1 1 1 0 0 bodies.Welcome ∷ [])
        ∷ (leased 1 1 1000 ∷ sent 3 1 32769 1 1 1 0 (bodies.Acquire 2 modes.X) ∷ [])
        ∷ (sent 4 32769 1 1 1 1 0 (bodies.Granted 2 (g 4294967297) modes.X) ∷ [])
        ∷ (sent 5 1 32769 1 1 2 0 (bodies.Allocate 2 (g 4294967297) (page 0) 1) ∷ [])
        ∷ (sent 6 32769 1 1 1 2 0 (bodies.Extents 2 (extent 0 1 0 1 ∷ [])) ∷ [])
        ∷ (read_out 1 1 1 1 0 ∷ [])
        ∷ []
        ∷ (patched 1 1 1 2 0 0 (9 ∷ []) ∷ answered 1 1 answers.Written ∷ [])
        ∷ (answered 1 2 (answers.Read (overlay 0 (9 ∷ []) (filled 0))) ∷ [])
        ∷ []) (counts 10 6 1 1 1 0 0 0) None }
{}

/// A file is cut, and its page reads as zeros.
#[tactic(auto, unfolding(crate::specs::WorldWords::world_words_open))]
pub fn cut()
    ensures { told (run (
        (ask 1 (asks.Write (on 1 2) (page 0) (filled 77)))
        ∷ (events.Deliver 1)
        ∷ (events.Deliver 2)
        ∷ (events.Deliver 3)
        ∷ (events.Deliver 4)
        ∷ (events.Deliver 5)
        ∷ (events.Deliver 6)
        ∷ (ask 1 (asks.Cut (on 1 2) (page 0)))
        ∷ (events.Effect 1)
        ∷ (events.Report 1 true)
        ∷ (events.Deliver 7)
        ∷ (events.Deliver 8)
        ∷ (ask 1 (asks.Read (on 1 2) (page 0)))
        ∷ (events.Deliver 9)
        ∷ (events.Deliver 10)
        ∷ (events.Deliver 7)
        ∷ []) (world_of 2 1 1 8))
        ≡ tells (
        (sent 1 1 32769 1 0 0 0 bodies.Hello ∷ [])
        ∷ (sent 2 32769 1 1 1 0 0 bodies.Welcome ∷ [])
        ∷ (leased 1 1 1000 ∷ sent 3 1 32769 1 1 1 0 (bodies.Acquire 2 modes.X) ∷ [])
        ∷ (sent 4 32769 1 1 1 1 0 (bodies.Granted 2 (g 4294967297) modes.X) ∷ [])
        ∷ (sent 5 1 32769 1 1 2 0 (bodies.Allocate 2 (g 4294967297) (page 0) 1) ∷ [])
        ∷ (sent 6 32769 1 1 1 2 0 (bodies.Extents 2 (extent 0 1 0 1 ∷ [])) ∷ [])
        ∷ (wrote 1 1 1 2 0 (filled 77) ∷ answered 1 1 answers.Written ∷ [])
        ∷ (write_out 1 1 1 1 0 1 2 0 1 (filled 77) ∷ [])
        ∷ (seen.Hardened 1 ∷ [])
        ∷ (sent 7 1 32769 1 1 3 0 (bodies.Cut 2 (g 4294967297) (page 0)) ∷ [])
        ∷ (cut 2 1 2 0 ∷ sent 8 32769 1 1 1 3 0 bodies.Ack ∷ [])
        ∷ (answered 1 2 answers.Cut ∷ [])
        ∷ (sent 9 1 32769 1 1 4 0 (bodies.Map 2 (g 4294967297) (page 0)) ∷ [])
        ∷ (sent 10 32769 1 1 1 4 0 (bodies.Extents 2 []) ∷ [])
        ∷ (answered 1 3 (answers.Read (filled 0)) ∷ [])
        ∷ []
        ∷ []) (counts 16 10 1 1 1 1 0 0) None }
{}
