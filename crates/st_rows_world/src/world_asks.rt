// Written by tools/rows/world_rows.py.
ghost use Rattle.std.specs.Prelude.{◌≡◌, ◌∷◌, [], None, codes, false};
ghost use Rattle.st_base.specs.Page.{filled};
ghost use Rattle.st_base.specs.declared.mode.Mode.TheVariants as modes;
ghost use Rattle.st_base.specs.declared.names.NameAsk.TheVariants as names;
ghost use Rattle.st_messages.specs.declared.answer.AppAnswer.TheVariants as answers;
ghost use Rattle.st_messages.specs.declared.ask.Ask.TheVariants as asks;
ghost use Rattle.st_messages.specs.declared.event.Event.TheVariants as events;
ghost use Rattle.st_messages.specs.declared.message.Body.TheVariants as bodies;
ghost use Rattle.st_messages.specs.declared.message.NameOp.TheVariants as ops;
ghost use Rattle.st_messages.specs.declared.message.NameReply.TheVariants as replies;
ghost use Rattle.st_messages.specs.declared.message.Why.TheVariants as why;
ghost use Rattle.st_rules.specs.Run.{run};
ghost use Rattle.st_rows.specs.ClientWords.{on, server};
ghost use Rattle.st_rows.specs.Words.{entry, g, page};
ghost use Rattle.st_rows_world.specs.WorldWords.{answered, ask, counts, cut, leased, sent, server_node, tells, told, world_of};

/// A server that is not there and an inode that isn't a file have no files.
#[tactic(auto, unfolding(crate::specs::WorldWords::world_words_open))]
pub fn no_file()
    ensures { told (run (
        (ask 1 (asks.Write (on 2 2) (page 0) (filled 5)))
        ∷ (ask 1 (asks.Cut (on 1 99) (page 0)))
        ∷ (events.Deliver 1)
        ∷ (events.Deliver 2)
        ∷ (events.Deliver 3)
        ∷ (events.Deliver 4)
        ∷ []) (world_of 2 1 1 8))
        ≡ tells (
        (answered 1 1 answers.NoFile ∷ [])
        ∷ (sent 1 1 32769 1 0 0 0 bodies.Hello ∷ [])
        ∷ (sent 2 32769 1 1 1 0 0 bodies.Welcome ∷ [])
        ∷ (leased 1 1 1000 ∷ sent 3 1 32769 1 1 1 0 (bodies.Acquire 99 modes.X) ∷ [])
        ∷ (sent 4 32769 1 1 1 1 0 (bodies.Nack why.NoFile 99 0) ∷ [])
        ∷ (answered 1 2 answers.NoFile ∷ [])
        ∷ []) (counts 6 4 0 0 0 0 0 0) None }
{}

/// A remove is refused if the entry is not the file that the asker means.
#[tactic(auto, unfolding(crate::specs::WorldWords::world_words_open))]
pub fn not_the_holder()
    ensures { told (run (
        (ask 1 (asks.Name (server 1) (names.Remove 1 (codes "f2") 3)))
        ∷ (events.Deliver 1)
        ∷ (events.Deliver 2)
        ∷ (events.Deliver 3)
        ∷ (events.Deliver 4)
        ∷ (events.Deliver 5)
        ∷ (events.Deliver 6)
        ∷ []) (world_of 2 1 1 8))
        ≡ tells (
        (sent 1 1 32769 1 0 0 0 bodies.Hello ∷ [])
        ∷ (sent 2 32769 1 1 1 0 0 bodies.Welcome ∷ [])
        ∷ (leased 1 1 1000 ∷ sent 3 1 32769 1 1 1 0 (bodies.Acquire 3 modes.X) ∷ [])
        ∷ (sent 4 32769 1 1 1 1 0 (bodies.Granted 3 (g 4294967297) modes.X) ∷ [])
        ∷ (sent 5 1 32769 1 1 2 0 (bodies.Name (ops.Remove 1 (codes "f2") (g 4294967297))) ∷ [])
        ∷ (sent 6 32769 1 1 1 2 0 (bodies.Nack why.NotHolder 2 4294967297) ∷ [])
        ∷ (answered 1 1 answers.NotHolder ∷ [])
        ∷ []) (counts 7 6 0 0 0 0 0 0) None }
{}

/// Directories are made, filled, listed and removed; one with entries is not removed.
#[tactic(auto, unfolding(crate::specs::WorldWords::world_words_open))]
pub fn directories()
    ensures { told (run (
        (ask 1 (asks.Name (server 1) (names.Mkdir 1 (codes "d"))))
        ∷ (events.Deliver 1)
        ∷ (events.Deliver 2)
        ∷ (events.Deliver 3)
        ∷ (events.Deliver 4)
        ∷ (ask 1 (asks.Name (server 1) (names.Create 10 (codes "a"))))
        ∷ (events.Deliver 5)
        ∷ (events.Deliver 6)
        ∷ (ask 1 (asks.Name (server 1) (names.Rename 1 (codes "f2") 10 (codes "b"))))
        ∷ (events.Deliver 7)
        ∷ (events.Deliver 8)
        ∷ (ask 1 (asks.Name (server 1) (names.List 10 (codes ""))))
        ∷ (events.Deliver 9)
        ∷ (events.Deliver 10)
        ∷ (ask 1 (asks.Name (server 1) (names.Remove 1 (codes "d") 0)))
        ∷ (events.Deliver 11)
        ∷ (events.Deliver 12)
        ∷ (ask 1 (asks.Name (server 1) (names.Mkdir 1 (codes "e"))))
        ∷ (events.Deliver 13)
        ∷ (events.Deliver 14)
        ∷ (ask 1 (asks.Name (server 1) (names.Remove 1 (codes "e") 0)))
        ∷ (events.Deliver 15)
        ∷ (events.Deliver 16)
        ∷ []) (world_of 2 1 1 8))
        ≡ tells (
        (sent 1 1 32769 1 0 0 0 bodies.Hello ∷ [])
        ∷ (sent 2 32769 1 1 1 0 0 bodies.Welcome ∷ [])
        ∷ (leased 1 1 1000 ∷ sent 3 1 32769 1 1 1 0 (bodies.Name (ops.Mkdir 1 (codes "d"))) ∷ [])
        ∷ (sent 4 32769 1 1 1 1 0 (bodies.Named (replies.Ino 10)) ∷ [])
        ∷ (answered 1 1 (answers.Named 10) ∷ [])
        ∷ (sent 5 1 32769 1 1 2 0 (bodies.Name (ops.Create 10 (codes "a"))) ∷ [])
        ∷ (sent 6 32769 1 1 1 2 0 (bodies.Named (replies.Ino 11)) ∷ [])
        ∷ (answered 1 2 (answers.Named 11) ∷ [])
        ∷ (sent 7 1 32769 1 1 3 0 (bodies.Name (ops.Rename 1 (codes "f2") 10 (codes "b"))) ∷ [])
        ∷ (sent 8 32769 1 1 1 3 0 (bodies.Named (replies.Ino 2)) ∷ [])
        ∷ (answered 1 3 (answers.Named 2) ∷ [])
        ∷ (sent 9 1 32769 1 1 4 0 (bodies.Name (ops.List 10 (codes ""))) ∷ [])
        ∷ (sent 10 32769 1 1 1 4 0 (bodies.Named (replies.Listed (entry 11 false (codes "a") ∷ entry 2 false (codes "b") ∷ []))) ∷ [])
        ∷ (answered 1 4 (answers.Listed (entry 11 false (codes "a") ∷ entry 2 false (codes "b") ∷ [])) ∷ [])
        ∷ (sent 11 1 32769 1 1 5 0 (bodies.Name (ops.Remove 1 (codes "d") (g 0))) ∷ [])
        ∷ (sent 12 32769 1 1 1 5 0 (bodies.Named (replies.Refused 5)) ∷ [])
        ∷ (answered 1 5 (answers.Refused 5) ∷ [])
        ∷ (sent 13 1 32769 1 1 6 0 (bodies.Name (ops.Mkdir 1 (codes "e"))) ∷ [])
        ∷ (sent 14 32769 1 1 1 6 0 (bodies.Named (replies.Ino 12)) ∷ [])
        ∷ (answered 1 6 (answers.Named 12) ∷ [])
        ∷ (sent 15 1 32769 1 1 7 0 (bodies.Name (ops.Remove 1 (codes "e") (g 0))) ∷ [])
        ∷ (sent 16 32769 1 1 1 7 0 (bodies.Named (replies.Ino 12)) ∷ [])
        ∷ (answered 1 7 (answers.Named 12) ∷ [])
        ∷ []) (counts 23 16 0 0 0 0 0 0) None }
{}

/// A demand is repeated on a tick and lowered when its waiter wants more; the lock is given up in
/// two steps.
#[tactic(auto, unfolding(crate::specs::WorldWords::world_words_open))]
pub fn lowered_demand()
    ensures { told (run (
        (ask 1 (asks.Cut (on 1 2) (page 0)))
        ∷ (events.Deliver 1)
        ∷ (events.Deliver 2)
        ∷ (events.Deliver 3)
        ∷ (events.Deliver 4)
        ∷ (events.Deliver 5)
        ∷ (events.Deliver 6)
        ∷ (ask 2 (asks.Read (on 1 2) (page 0)))
        ∷ (events.Deliver 7)
        ∷ (events.Deliver 8)
        ∷ (events.Deliver 9)
        ∷ (events.Advance (50 ∷ 50 ∷ 50 ∷ []))
        ∷ (events.Tick (server_node 1))
        ∷ (ask 2 (asks.Write (on 1 2) (page 0) (filled 5)))
        ∷ (events.Deliver 10)
        ∷ (events.Deliver 13)
        ∷ (events.Deliver 11)
        ∷ (events.Deliver 16)
        ∷ (events.Deliver 17)
        ∷ (events.Deliver 12)
        ∷ (events.Deliver 15)
        ∷ (events.Deliver 18)
        ∷ (events.Deliver 21)
        ∷ (events.Deliver 22)
        ∷ (events.Deliver 23)
        ∷ (events.Deliver 25)
        ∷ []) (world_of 2 1 1 8))
        ≡ tells (
        (sent 1 1 32769 1 0 0 0 bodies.Hello ∷ [])
        ∷ (sent 2 32769 1 1 1 0 0 bodies.Welcome ∷ [])
        ∷ (leased 1 1 1000 ∷ sent 3 1 32769 1 1 1 0 (bodies.Acquire 2 modes.X) ∷ [])
        ∷ (sent 4 32769 1 1 1 1 0 (bodies.Granted 2 (g 4294967297) modes.X) ∷ [])
        ∷ (sent 5 1 32769 1 1 2 0 (bodies.Cut 2 (g 4294967297) (page 0)) ∷ [])
        ∷ (cut 1 1 2 0 ∷ sent 6 32769 1 1 1 2 0 bodies.Ack ∷ [])
        ∷ (answered 1 1 answers.Cut ∷ [])
        ∷ (sent 7 2 32769 1 0 0 0 bodies.Hello ∷ [])
        ∷ (sent 8 32769 2 1 1 0 0 bodies.Welcome ∷ [])
        ∷ (leased 2 1 1000 ∷ sent 9 2 32769 1 1 1 0 (bodies.Acquire 2 modes.S) ∷ [])
        ∷ (sent 10 32769 2 1 1 1 0 (bodies.Queued 2 modes.S) ∷ sent 11 32769 1 1 1 0 0 (bodies.Demand 2 (g 4294967297) modes.S) ∷ [])
        ∷ []
        ∷ (sent 12 32769 1 1 1 0 0 (bodies.Demand 2 (g 4294967297) modes.S) ∷ [])
        ∷ []
        ∷ (sent 13 2 32769 1 1 2 50 (bodies.Acquire 2 modes.X) ∷ [])
        ∷ (sent 14 32769 2 1 1 2 50 (bodies.Queued 2 modes.X) ∷ sent 15 32769 1 1 1 0 0 (bodies.Demand 2 (g 4294967297) modes.None) ∷ [])
        ∷ (sent 16 1 32769 1 1 0 0 (bodies.DemandSeen 2 (g 4294967297)) ∷ sent 17 1 32769 1 1 3 50 (bodies.Released 2 (g 4294967297) modes.S) ∷ [])
        ∷ []
        ∷ (sent 18 32769 1 1 1 3 50 bodies.Ack ∷ [])
        ∷ (sent 19 1 32769 1 1 0 0 (bodies.DemandSeen 2 (g 4294967297)) ∷ [])
        ∷ (sent 20 1 32769 1 1 0 0 (bodies.DemandSeen 2 (g 4294967297)) ∷ [])
        ∷ (leased 1 1 1050 ∷ sent 21 1 32769 1 1 4 50 (bodies.Released 2 (g 4294967297) modes.S) ∷ [])
        ∷ (sent 22 32769 1 1 1 4 50 bodies.Ack ∷ [])
        ∷ (sent 23 1 32769 1 1 5 50 (bodies.Released 2 (g 4294967297) modes.None) ∷ [])
        ∷ (sent 24 32769 1 1 1 5 50 bodies.Ack ∷ sent 25 32769 2 1 1 0 0 (bodies.Granted 2 (g 4294967298) modes.X) ∷ [])
        ∷ []
        ∷ []) (counts 26 25 0 0 0 0 0 0) None }
{}
