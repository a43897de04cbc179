// Written by tools/rows/world_rows.py.
ghost use Rattle.std.specs.Prelude.{◌≡◌, ◌∷◌, [], None, codes};
ghost use Rattle.st_base.specs.Page.{filled};
ghost use Rattle.st_base.specs.declared.mode.Mode.TheVariants as modes;
ghost use Rattle.st_base.specs.declared.names.NameAsk.TheVariants as names;
ghost use Rattle.st_messages.specs.declared.answer.AppAnswer.TheVariants as answers;
ghost use Rattle.st_messages.specs.declared.ask.Ask.TheVariants as asks;
ghost use Rattle.st_messages.specs.declared.event.Event.TheVariants as events;
ghost use Rattle.st_messages.specs.declared.message.Body.TheVariants as bodies;
ghost use Rattle.st_messages.specs.declared.message.NameOp.TheVariants as ops;
ghost use Rattle.st_messages.specs.declared.message.NameReply.TheVariants as replies;
ghost use Rattle.st_messages.specs.declared.message.Why.TheVariants as why;
ghost use Rattle.st_rules.specs.Run.{run};
ghost use Rattle.st_rows.specs.ClientWords.{on, server};
ghost use Rattle.st_rows.specs.Words.{g, page};
ghost use Rattle.st_rows_world.specs.WorldWords.{answered, ask, client_node, counts, leased, lost, sent, server_node, tells, told, world_of};

/// A name that was asked in an epoch that is over is uncertain; without locks an empty reassertion
/// is accepted.
#[tactic(auto, unfolding(crate::specs::WorldWords::world_words_open))]
pub fn new_epoch()
    ensures { told (run (
        (ask 1 (asks.Name (server 1) (names.Create 1 (codes "a"))))
        ∷ (events.Deliver 1)
        ∷ (events.Deliver 2)
        ∷ (events.Crash (server_node 1))
        ∷ (events.Start (server_node 1))
        ∷ (events.Deliver 3)
        ∷ (events.Deliver 4)
        ∷ (events.Deliver 5)
        ∷ (events.Deliver 6)
        ∷ (ask 1 (asks.Name (server 1) (names.Lookup 1 (codes "f2"))))
        ∷ (events.Deliver 7)
        ∷ (events.Deliver 8)
        ∷ []) (world_of 2 1 1 8))
        ≡ tells (
        (sent 1 1 32769 1 0 0 0 bodies.Hello ∷ [])
        ∷ (sent 2 32769 1 1 1 0 0 bodies.Welcome ∷ [])
        ∷ (leased 1 1 1000 ∷ sent 3 1 32769 1 1 1 0 (bodies.Name (ops.Create 1 (codes "a"))) ∷ [])
        ∷ []
        ∷ []
        ∷ (sent 4 32769 1 1 2 1 0 (bodies.Nack why.OtherEpoch 1 2) ∷ [])
        ∷ (answered 1 1 (answers.Uncertain 1 2) ∷ sent 5 1 32769 1 2 1 0 (bodies.Reassert []) ∷ [])
        ∷ (sent 6 32769 1 1 2 1 0 bodies.Reasserted ∷ [])
        ∷ []
        ∷ (sent 7 1 32769 1 2 2 0 (bodies.Name (ops.Lookup 1 (codes "f2"))) ∷ [])
        ∷ (sent 8 32769 1 1 2 2 0 (bodies.Named (replies.Ino 2)) ∷ [])
        ∷ (answered 1 2 (answers.Named 2) ∷ [])
        ∷ []) (counts 12 8 0 0 0 0 0 0) None }
{}

/// In grace no greeting is welcome; the first grant after it has a number of the new epoch.
#[tactic(auto, unfolding(crate::specs::WorldWords::world_words_open))]
pub fn grace()
    ensures { told (run (
        (events.Crash (server_node 1))
        ∷ (events.Start (server_node 1))
        ∷ (ask 1 (asks.Read (on 1 2) (page 0)))
        ∷ (events.Deliver 1)
        ∷ (events.Deliver 2)
        ∷ (events.Advance (1009 ∷ 1009 ∷ 1009 ∷ []))
        ∷ (events.Tick (client_node 1))
        ∷ (events.Deliver 3)
        ∷ (events.Advance (51 ∷ 51 ∷ 51 ∷ []))
        ∷ (events.Tick (client_node 1))
        ∷ (events.Deliver 5)
        ∷ (events.Deliver 6)
        ∷ (events.Deliver 7)
        ∷ []) (world_of 2 1 1 8))
        ≡ tells (
        []
        ∷ []
        ∷ (sent 1 1 32769 1 0 0 0 bodies.Hello ∷ [])
        ∷ (sent 2 32769 1 1 2 0 0 (bodies.Nack why.Grace 1000 0) ∷ [])
        ∷ []
        ∷ []
        ∷ (sent 3 1 32769 1 0 0 1009 bodies.Hello ∷ [])
        ∷ (sent 4 32769 1 1 2 0 1009 (bodies.Nack why.Grace 1000 0) ∷ [])
        ∷ []
        ∷ (sent 5 1 32769 1 0 0 1060 bodies.Hello ∷ [])
        ∷ (sent 6 32769 1 1 2 0 1060 bodies.Welcome ∷ [])
        ∷ (leased 1 1 2060 ∷ sent 7 1 32769 1 2 1 1060 (bodies.Acquire 2 modes.S) ∷ [])
        ∷ (sent 8 32769 1 1 2 1 1060 (bodies.Granted 2 (g 8589934593) modes.S) ∷ [])
        ∷ []) (counts 13 8 0 0 0 0 0 0) None }
{}

/// A reassertion that comes when grace is over is refused, and finds its client's lease lost.
#[tactic(auto, unfolding(crate::specs::WorldWords::world_words_open))]
pub fn late_reassertion()
    ensures { told (run (
        (ask 1 (asks.Read (on 1 2) (page 0)))
        ∷ (events.Deliver 1)
        ∷ (events.Deliver 2)
        ∷ (events.Deliver 3)
        ∷ (events.Deliver 4)
        ∷ (events.Deliver 5)
        ∷ (events.Deliver 6)
        ∷ (events.Crash (server_node 1))
        ∷ (events.Start (server_node 1))
        ∷ (events.Advance (500 ∷ 500 ∷ 500 ∷ []))
        ∷ (events.Tick (client_node 1))
        ∷ (events.Deliver 7)
        ∷ (events.Deliver 8)
        ∷ (events.Advance (510 ∷ 510 ∷ 510 ∷ []))
        ∷ (events.Deliver 9)
        ∷ (events.Deliver 10)
        ∷ []) (world_of 2 1 1 8))
        ≡ tells (
        (sent 1 1 32769 1 0 0 0 bodies.Hello ∷ [])
        ∷ (sent 2 32769 1 1 1 0 0 bodies.Welcome ∷ [])
        ∷ (leased 1 1 1000 ∷ sent 3 1 32769 1 1 1 0 (bodies.Acquire 2 modes.S) ∷ [])
        ∷ (sent 4 32769 1 1 1 1 0 (bodies.Granted 2 (g 4294967297) modes.S) ∷ [])
        ∷ (sent 5 1 32769 1 1 2 0 (bodies.Map 2 (g 4294967297) (page 0)) ∷ [])
        ∷ (sent 6 32769 1 1 1 2 0 (bodies.Extents 2 []) ∷ [])
        ∷ (answered 1 1 (answers.Read (filled 0)) ∷ [])
        ∷ []
        ∷ []
        ∷ []
        ∷ (sent 7 1 32769 1 1 3 500 bodies.KeepAlive ∷ [])
        ∷ (sent 8 32769 1 1 2 3 500 (bodies.Nack why.OtherEpoch 1 2) ∷ [])
        ∷ (sent 9 1 32769 1 2 1 500 (bodies.Reassert ((2, g 4294967297, modes.S) ∷ [])) ∷ [])
        ∷ []
        ∷ (sent 10 32769 1 1 2 1 500 (bodies.Nack why.GraceOver 1000 2010) ∷ [])
        ∷ (lost 1 1 1 ∷ [])
        ∷ []) (counts 16 10 0 0 1 0 0 0) None }
{}
