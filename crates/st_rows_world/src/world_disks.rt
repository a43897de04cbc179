// Written by tools/rows/world_rows.py.
ghost use Rattle.std.specs.Prelude.{◌≡◌, ◌∷◌, [], None, Some, true};
ghost use Rattle.st_base.specs.Page.{filled};
ghost use Rattle.st_base.specs.declared.mode.Mode.TheVariants as modes;
ghost use Rattle.st_messages.specs.declared.answer.AppAnswer.TheVariants as answers;
ghost use Rattle.st_messages.specs.declared.ask.Ask.TheVariants as asks;
ghost use Rattle.st_messages.specs.declared.event.Event.TheVariants as events;
ghost use Rattle.st_messages.specs.declared.message.Body.TheVariants as bodies;
ghost use Rattle.st_rules.specs.Run.{run};
ghost use Rattle.st_rules.specs.declared.observation.Observation.TheVariants as seen;
ghost use Rattle.st_rules.specs.declared.observation.WorldRefusal.TheVariants as refusals;
ghost use Rattle.st_rows.specs.ClientWords.{on, server};
ghost use Rattle.st_rows.specs.Words.{c, extent, g, page, stamp};
ghost use Rattle.st_rows_world.specs.WorldWords.{answered, ask, client_node, counts, dropped, leased, read_out, sent, tells, told, world_of, write_out, wrote};

/// An effect before the lease end of a crashed client.
#[tactic(auto, unfolding(crate::specs::WorldWords::world_words_open))]
pub fn late_disk()
    ensures { told (run (
        (ask 1 (asks.Write (on 1 2) (page 0) (filled 77)))
        ∷ (events.Deliver 1)
        ∷ (events.Deliver 2)
        ∷ (events.Deliver 3)
        ∷ (events.Deliver 4)
        ∷ (events.Deliver 5)
        ∷ (events.Deliver 6)
        ∷ (ask 1 (asks.Sync (on 1 2)))
        ∷ (events.Crash (client_node 1))
        ∷ (events.Advance (999 ∷ 999 ∷ 999 ∷ []))
        ∷ (events.Effect 1)
        ∷ []) (world_of 2 1 1 8))
        ≡ tells (
        (sent 1 1 32769 1 0 0 0 bodies.Hello ∷ [])
        ∷ (sent 2 32769 1 1 1 0 0 bodies.Welcome ∷ [])
        ∷ (leased 1 1 1000 ∷ sent 3 1 32769 1 1 1 0 (bodies.Acquire 2 modes.X) ∷ [])
        ∷ (sent 4 32769 1 1 1 1 0 (bodies.Granted 2 (g 4294967297) modes.X) ∷ [])
        ∷ (sent 5 1 32769 1 1 2 0 (bodies.Allocate 2 (g 4294967297) (page 0) 1) ∷ [])
        ∷ (sent 6 32769 1 1 1 2 0 (bodies.Extents 2 (extent 0 1 0 1 ∷ [])) ∷ [])
        ∷ (wrote 1 1 1 2 0 (filled 77) ∷ answered 1 1 answers.Written ∷ [])
        ∷ (write_out 1 1 1 1 0 1 2 0 1 (filled 77) ∷ [])
        ∷ []
        ∷ []
        ∷ (seen.Hardened 1 ∷ [])
        ∷ []) (counts 11 6 1 1 0 1 0 0) None }
{}

/// An effect at the lease end is refused.
#[tactic(auto, unfolding(crate::specs::WorldWords::world_words_open))]
pub fn late_disk_refused()
    ensures { told (run (
        (ask 1 (asks.Write (on 1 2) (page 0) (filled 77)))
        ∷ (events.Deliver 1)
        ∷ (events.Deliver 2)
        ∷ (events.Deliver 3)
        ∷ (events.Deliver 4)
        ∷ (events.Deliver 5)
        ∷ (events.Deliver 6)
        ∷ (ask 1 (asks.Sync (on 1 2)))
        ∷ (events.Crash (client_node 1))
        ∷ (events.Advance (1000 ∷ 1000 ∷ 1000 ∷ []))
        ∷ (events.Effect 1)
        ∷ []) (world_of 2 1 1 8))
        ≡ tells (
        (sent 1 1 32769 1 0 0 0 bodies.Hello ∷ [])
        ∷ (sent 2 32769 1 1 1 0 0 bodies.Welcome ∷ [])
        ∷ (leased 1 1 1000 ∷ sent 3 1 32769 1 1 1 0 (bodies.Acquire 2 modes.X) ∷ [])
        ∷ (sent 4 32769 1 1 1 1 0 (bodies.Granted 2 (g 4294967297) modes.X) ∷ [])
        ∷ (sent 5 1 32769 1 1 2 0 (bodies.Allocate 2 (g 4294967297) (page 0) 1) ∷ [])
        ∷ (sent 6 32769 1 1 1 2 0 (bodies.Extents 2 (extent 0 1 0 1 ∷ [])) ∷ [])
        ∷ (wrote 1 1 1 2 0 (filled 77) ∷ answered 1 1 answers.Written ∷ [])
        ∷ (write_out 1 1 1 1 0 1 2 0 1 (filled 77) ∷ [])
        ∷ []
        ∷ (dropped 1 ∷ [])
        ∷ []) (counts 10 6 1 1 0 0 1 0) (Some (refusals.LateDisk (stamp 1000) (stamp 1000))) }
{}

/// An advance to the lease end of a client that has not flushed is refused.
#[tactic(auto, unfolding(crate::specs::WorldWords::world_words_open))]
pub fn flush_missed()
    ensures { told (run (
        (ask 1 (asks.Write (on 1 2) (page 0) (filled 77)))
        ∷ (events.Deliver 1)
        ∷ (events.Deliver 2)
        ∷ (events.Deliver 3)
        ∷ (events.Deliver 4)
        ∷ (events.Deliver 5)
        ∷ (events.Deliver 6)
        ∷ (events.Advance (1000 ∷ 1000 ∷ 1000 ∷ []))
        ∷ []) (world_of 2 1 1 8))
        ≡ tells (
        (sent 1 1 32769 1 0 0 0 bodies.Hello ∷ [])
        ∷ (sent 2 32769 1 1 1 0 0 bodies.Welcome ∷ [])
        ∷ (leased 1 1 1000 ∷ sent 3 1 32769 1 1 1 0 (bodies.Acquire 2 modes.X) ∷ [])
        ∷ (sent 4 32769 1 1 1 1 0 (bodies.Granted 2 (g 4294967297) modes.X) ∷ [])
        ∷ (sent 5 1 32769 1 1 2 0 (bodies.Allocate 2 (g 4294967297) (page 0) 1) ∷ [])
        ∷ (sent 6 32769 1 1 1 2 0 (bodies.Extents 2 (extent 0 1 0 1 ∷ [])) ∷ [])
        ∷ (wrote 1 1 1 2 0 (filled 77) ∷ answered 1 1 answers.Written ∷ [])
        ∷ []) (counts 7 6 0 1 0 0 0 0) (Some (refusals.FlushMissed (c 1) (server 1))) }
{}

/// So is one while the flush is outstanding.
#[tactic(auto, unfolding(crate::specs::WorldWords::world_words_open))]
pub fn flush_outstanding()
    ensures { told (run (
        (ask 1 (asks.Write (on 1 2) (page 0) (filled 77)))
        ∷ (events.Deliver 1)
        ∷ (events.Deliver 2)
        ∷ (events.Deliver 3)
        ∷ (events.Deliver 4)
        ∷ (events.Deliver 5)
        ∷ (events.Deliver 6)
        ∷ (events.Advance (850 ∷ 850 ∷ 850 ∷ []))
        ∷ (events.Tick (client_node 1))
        ∷ (events.Advance (150 ∷ 150 ∷ 150 ∷ []))
        ∷ []) (world_of 2 1 1 8))
        ≡ tells (
        (sent 1 1 32769 1 0 0 0 bodies.Hello ∷ [])
        ∷ (sent 2 32769 1 1 1 0 0 bodies.Welcome ∷ [])
        ∷ (leased 1 1 1000 ∷ sent 3 1 32769 1 1 1 0 (bodies.Acquire 2 modes.X) ∷ [])
        ∷ (sent 4 32769 1 1 1 1 0 (bodies.Granted 2 (g 4294967297) modes.X) ∷ [])
        ∷ (sent 5 1 32769 1 1 2 0 (bodies.Allocate 2 (g 4294967297) (page 0) 1) ∷ [])
        ∷ (sent 6 32769 1 1 1 2 0 (bodies.Extents 2 (extent 0 1 0 1 ∷ [])) ∷ [])
        ∷ (wrote 1 1 1 2 0 (filled 77) ∷ answered 1 1 answers.Written ∷ [])
        ∷ []
        ∷ (write_out 1 1 1 1 0 1 2 0 1 (filled 77) ∷ sent 7 1 32769 1 1 3 850 bodies.KeepAlive ∷ [])
        ∷ []) (counts 9 7 1 1 0 0 0 0) (Some (refusals.FlushMissed (c 1) (server 1))) }
{}

/// A sync is answered when its page is hard.
#[tactic(auto, unfolding(crate::specs::WorldWords::world_words_open))]
pub fn sync()
    ensures { told (run (
        (ask 1 (asks.Write (on 1 2) (page 0) (filled 77)))
        ∷ (events.Deliver 1)
        ∷ (events.Deliver 2)
        ∷ (events.Deliver 3)
        ∷ (events.Deliver 4)
        ∷ (events.Deliver 5)
        ∷ (events.Deliver 6)
        ∷ (ask 1 (asks.Sync (on 1 2)))
        ∷ (events.Effect 1)
        ∷ (events.Report 1 true)
        ∷ []) (world_of 2 1 1 8))
        ≡ tells (
        (sent 1 1 32769 1 0 0 0 bodies.Hello ∷ [])
        ∷ (sent 2 32769 1 1 1 0 0 bodies.Welcome ∷ [])
        ∷ (leased 1 1 1000 ∷ sent 3 1 32769 1 1 1 0 (bodies.Acquire 2 modes.X) ∷ [])
        ∷ (sent 4 32769 1 1 1 1 0 (bodies.Granted 2 (g 4294967297) modes.X) ∷ [])
        ∷ (sent 5 1 32769 1 1 2 0 (bodies.Allocate 2 (g 4294967297) (page 0) 1) ∷ [])
        ∷ (sent 6 32769 1 1 1 2 0 (bodies.Extents 2 (extent 0 1 0 1 ∷ [])) ∷ [])
        ∷ (wrote 1 1 1 2 0 (filled 77) ∷ answered 1 1 answers.Written ∷ [])
        ∷ (write_out 1 1 1 1 0 1 2 0 1 (filled 77) ∷ [])
        ∷ (seen.Hardened 1 ∷ [])
        ∷ (answered 1 2 answers.Hard ∷ [])
        ∷ []) (counts 10 6 1 1 0 1 0 0) None }
{}

/// A request that is sent again renews the lease by its new stamp; the effect of a read at the
/// lease end is refused.
#[tactic(auto, unfolding(crate::specs::WorldWords::world_words_open))]
pub fn late_read()
    ensures { told (run (
        (ask 1 (asks.Write (on 1 2) (page 0) (filled 77)))
        ∷ (events.Deliver 1)
        ∷ (events.Deliver 2)
        ∷ (events.Deliver 3)
        ∷ (events.Deliver 4)
        ∷ (events.Advance (700 ∷ 700 ∷ 700 ∷ []))
        ∷ (events.Tick (client_node 1))
        ∷ (events.Deliver 6)
        ∷ (events.Deliver 7)
        ∷ (ask 1 (asks.Read (on 1 2) (page 0)))
        ∷ (events.Advance (1000 ∷ 1000 ∷ 1000 ∷ []))
        ∷ (events.Effect 1)
        ∷ []) (world_of 2 1 1 8))
        ≡ tells (
        (sent 1 1 32769 1 0 0 0 bodies.Hello ∷ [])
        ∷ (sent 2 32769 1 1 1 0 0 bodies.Welcome ∷ [])
        ∷ (leased 1 1 1000 ∷ sent 3 1 32769 1 1 1 0 (bodies.Acquire 2 modes.X) ∷ [])
        ∷ (sent 4 32769 1 1 1 1 0 (bodies.Granted 2 (g 4294967297) modes.X) ∷ [])
        ∷ (sent 5 1 32769 1 1 2 0 (bodies.Allocate 2 (g 4294967297) (page 0) 1) ∷ [])
        ∷ []
        ∷ (answered 1 1 answers.Quiesced ∷ sent 6 1 32769 1 1 2 700 (bodies.Allocate 2 (g 4294967297) (page 0) 1) ∷ [])
        ∷ (sent 7 32769 1 1 1 2 700 (bodies.Extents 2 (extent 0 1 0 1 ∷ [])) ∷ [])
        ∷ (leased 1 1 1700 ∷ [])
        ∷ (read_out 1 1 1 1 0 ∷ [])
        ∷ []
        ∷ []) (counts 11 7 1 0 0 0 0 0) (Some (refusals.LateDisk (stamp 1700) (stamp 1700))) }
{}
