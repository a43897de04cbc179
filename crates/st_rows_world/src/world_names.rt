// Written by tools/rows/world_rows.py.
ghost use Rattle.std.specs.Prelude.{◌≡◌, ◌∷◌, [], None, codes, true};
ghost use Rattle.st_base.specs.Page.{filled};
ghost use Rattle.st_base.specs.declared.mode.Mode.TheVariants as modes;
ghost use Rattle.st_base.specs.declared.names.NameAsk.TheVariants as names;
ghost use Rattle.st_messages.specs.declared.answer.AppAnswer.TheVariants as answers;
ghost use Rattle.st_messages.specs.declared.ask.Ask.TheVariants as asks;
ghost use Rattle.st_messages.specs.declared.event.Event.TheVariants as events;
ghost use Rattle.st_messages.specs.declared.message.Body.TheVariants as bodies;
ghost use Rattle.st_messages.specs.declared.message.NameOp.TheVariants as ops;
ghost use Rattle.st_messages.specs.declared.message.NameReply.TheVariants as replies;
ghost use Rattle.st_messages.specs.declared.message.Why.TheVariants as why;
ghost use Rattle.st_rules.specs.Run.{run};
ghost use Rattle.st_rules.specs.declared.observation.Observation.TheVariants as seen;
ghost use Rattle.st_rows.specs.ClientWords.{on, server};
ghost use Rattle.st_rows.specs.Words.{extent, g, page};
ghost use Rattle.st_rows_world.specs.WorldWords.{answered, ask, counts, cut, leased, sent, tells, told, world_of, write_out, wrote};

/// A name that is there is refused.
#[tactic(auto, unfolding(crate::specs::WorldWords::world_words_open))]
pub fn names()
    ensures { told (run (
        (ask 1 (asks.Name (server 1) (names.Create 1 (codes "f2"))))
        ∷ (events.Deliver 1)
        ∷ (events.Deliver 2)
        ∷ (events.Deliver 3)
        ∷ (events.Deliver 4)
        ∷ []) (world_of 2 1 1 8))
        ≡ tells (
        (sent 1 1 32769 1 0 0 0 bodies.Hello ∷ [])
        ∷ (sent 2 32769 1 1 1 0 0 bodies.Welcome ∷ [])
        ∷ (leased 1 1 1000 ∷ sent 3 1 32769 1 1 1 0 (bodies.Name (ops.Create 1 (codes "f2"))) ∷ [])
        ∷ (sent 4 32769 1 1 1 1 0 (bodies.Named (replies.Refused 2)) ∷ [])
        ∷ (answered 1 1 (answers.Refused 2) ∷ [])
        ∷ []) (counts 5 4 0 0 0 0 0 0) None }
{}

/// A directory doesn't come under itself.
#[tactic(auto, unfolding(crate::specs::WorldWords::world_words_open))]
pub fn cycle()
    ensures { told (run (
        (ask 1 (asks.Name (server 1) (names.Create 1 (codes "f2"))))
        ∷ (events.Deliver 1)
        ∷ (events.Deliver 2)
        ∷ (events.Deliver 3)
        ∷ (events.Deliver 4)
        ∷ (ask 1 (asks.Name (server 1) (names.Mkdir 1 (codes "d"))))
        ∷ (events.Deliver 5)
        ∷ (events.Deliver 6)
        ∷ (ask 1 (asks.Name (server 1) (names.Rename 1 (codes "d") 10 (codes "e"))))
        ∷ (events.Deliver 7)
        ∷ (events.Deliver 8)
        ∷ []) (world_of 2 1 1 8))
        ≡ tells (
        (sent 1 1 32769 1 0 0 0 bodies.Hello ∷ [])
        ∷ (sent 2 32769 1 1 1 0 0 bodies.Welcome ∷ [])
        ∷ (leased 1 1 1000 ∷ sent 3 1 32769 1 1 1 0 (bodies.Name (ops.Create 1 (codes "f2"))) ∷ [])
        ∷ (sent 4 32769 1 1 1 1 0 (bodies.Named (replies.Refused 2)) ∷ [])
        ∷ (answered 1 1 (answers.Refused 2) ∷ [])
        ∷ (sent 5 1 32769 1 1 2 0 (bodies.Name (ops.Mkdir 1 (codes "d"))) ∷ [])
        ∷ (sent 6 32769 1 1 1 2 0 (bodies.Named (replies.Ino 10)) ∷ [])
        ∷ (answered 1 2 (answers.Named 10) ∷ [])
        ∷ (sent 7 1 32769 1 1 3 0 (bodies.Name (ops.Rename 1 (codes "d") 10 (codes "e"))) ∷ [])
        ∷ (sent 8 32769 1 1 1 3 0 (bodies.Named (replies.Refused 6)) ∷ [])
        ∷ (answered 1 3 (answers.Refused 6) ∷ [])
        ∷ []) (counts 11 8 0 0 0 0 0 0) None }
{}

/// A block that a removed file gave back has a new birth.
#[tactic(auto, unfolding(crate::specs::WorldWords::world_words_open))]
pub fn reused_block()
    ensures { told (run (
        (ask 1 (asks.Write (on 1 2) (page 0) (filled 77)))
        ∷ (events.Deliver 1)
        ∷ (events.Deliver 2)
        ∷ (events.Deliver 3)
        ∷ (events.Deliver 4)
        ∷ (events.Deliver 5)
        ∷ (events.Deliver 6)
        ∷ (ask 1 (asks.Write (on 1 3) (page 0) (filled 5)))
        ∷ (events.Deliver 7)
        ∷ (events.Deliver 8)
        ∷ (events.Deliver 9)
        ∷ (events.Deliver 10)
        ∷ (ask 1 (asks.Name (server 1) (names.Remove 1 (codes "f2") 2)))
        ∷ (events.Effect 1)
        ∷ (events.Report 1 true)
        ∷ (events.Deliver 11)
        ∷ (events.Deliver 12)
        ∷ (ask 1 (asks.Write (on 1 3) (page 0) (filled 5)))
        ∷ (events.Deliver 13)
        ∷ (events.Deliver 14)
        ∷ (events.Deliver 15)
        ∷ (events.Deliver 16)
        ∷ []) (world_of 2 1 1 1))
        ≡ tells (
        (sent 1 1 32769 1 0 0 0 bodies.Hello ∷ [])
        ∷ (sent 2 32769 1 1 1 0 0 bodies.Welcome ∷ [])
        ∷ (leased 1 1 1000 ∷ sent 3 1 32769 1 1 1 0 (bodies.Acquire 2 modes.X) ∷ [])
        ∷ (sent 4 32769 1 1 1 1 0 (bodies.Granted 2 (g 4294967297) modes.X) ∷ [])
        ∷ (sent 5 1 32769 1 1 2 0 (bodies.Allocate 2 (g 4294967297) (page 0) 1) ∷ [])
        ∷ (sent 6 32769 1 1 1 2 0 (bodies.Extents 2 (extent 0 1 0 1 ∷ [])) ∷ [])
        ∷ (wrote 1 1 1 2 0 (filled 77) ∷ answered 1 1 answers.Written ∷ [])
        ∷ (sent 7 1 32769 1 1 3 0 (bodies.Acquire 3 modes.X) ∷ [])
        ∷ (sent 8 32769 1 1 1 3 0 (bodies.Granted 3 (g 4294967298) modes.X) ∷ [])
        ∷ (sent 9 1 32769 1 1 4 0 (bodies.Allocate 3 (g 4294967298) (page 0) 1) ∷ [])
        ∷ (sent 10 32769 1 1 1 4 0 (bodies.Nack why.NoSpace 0 1) ∷ [])
        ∷ (answered 1 2 (answers.NoSpace 0 1) ∷ [])
        ∷ (write_out 1 1 1 1 0 1 2 0 1 (filled 77) ∷ [])
        ∷ (seen.Hardened 1 ∷ [])
        ∷ (sent 11 1 32769 1 1 5 0 (bodies.Name (ops.Remove 1 (codes "f2") (g 4294967297))) ∷ [])
        ∷ (cut 2 1 2 0 ∷ sent 12 32769 1 1 1 5 0 (bodies.Named (replies.Ino 2)) ∷ [])
        ∷ (answered 1 3 (answers.Named 2) ∷ sent 13 1 32769 1 1 6 0 (bodies.Released 2 (g 4294967297) modes.None) ∷ [])
        ∷ []
        ∷ (sent 14 32769 1 1 1 6 0 bodies.Ack ∷ [])
        ∷ (sent 15 1 32769 1 1 7 0 (bodies.Allocate 3 (g 4294967298) (page 0) 1) ∷ [])
        ∷ (sent 16 32769 1 1 1 7 0 (bodies.Extents 3 (extent 0 1 0 2 ∷ [])) ∷ [])
        ∷ (wrote 3 1 1 3 0 (filled 5) ∷ answered 1 4 answers.Written ∷ [])
        ∷ []) (counts 22 16 1 2 0 1 0 0) None }
{}
