// Written by tools/rows/world_rows.py.
ghost use Rattle.std.specs.Prelude.{◌∷◌, [], false, true};
ghost use Rattle.st_base.specs.Page.{filled};
ghost use Rattle.st_messages.specs.declared.ask.Ask.TheVariants as asks;
ghost use Rattle.st_messages.specs.declared.event.Event.TheVariants as events;
ghost use Rattle.st_rows_promises.specs.SafeWords.{IsKeptRun};
ghost use Rattle.st_rows.specs.ClientWords.{on};
ghost use Rattle.st_rows.specs.Words.{page};
ghost use Rattle.st_rows_world.specs.WorldWords.{ask, client_node, server_node, world_of};

/// Every promise is kept in the row of the theft.
#[tactic(auto, unfolding(crate::specs::SafeWords::safe_words_open))]
pub fn theft_is_safe()
    ensures { IsKeptRun (world_of 2 1 1 8) (
        (ask 1 (asks.Write (on 1 2) (page 0) (filled 77)))
        ∷ (events.Deliver 1)
        ∷ (events.Deliver 2)
        ∷ (events.Deliver 3)
        ∷ (events.Deliver 4)
        ∷ (events.Deliver 5)
        ∷ (events.Deliver 6)
        ∷ (ask 2 (asks.Read (on 1 2) (page 0)))
        ∷ (events.Deliver 7)
        ∷ (events.Deliver 8)
        ∷ (events.Deliver 9)
        ∷ (events.Lose 11)
        ∷ (events.Crash (client_node 1))
        ∷ (events.Advance (100 ∷ 100 ∷ 100 ∷ []))
        ∷ (events.Tick (server_node 1))
        ∷ (events.Advance (1009 ∷ 1009 ∷ 1009 ∷ []))
        ∷ (events.Tick (server_node 1))
        ∷ (events.Advance (1 ∷ 1 ∷ 1 ∷ []))
        ∷ (events.Tick (server_node 1))
        ∷ []) }
{}

/// Every promise is kept in the row of the one-sided cut.
#[tactic(auto, unfolding(crate::specs::SafeWords::safe_words_open))]
pub fn one_sided_cut_is_safe()
    ensures { IsKeptRun (world_of 2 1 1 8) (
        (ask 1 (asks.Write (on 1 2) (page 0) (filled 77)))
        ∷ (events.Deliver 1)
        ∷ (events.Deliver 2)
        ∷ (events.Deliver 3)
        ∷ (events.Deliver 4)
        ∷ (events.Deliver 5)
        ∷ (events.Deliver 6)
        ∷ (ask 2 (asks.Read (on 1 2) (page 0)))
        ∷ (events.Deliver 7)
        ∷ (events.Deliver 8)
        ∷ (events.Deliver 9)
        ∷ (events.Cut (server_node 1) (client_node 1))
        ∷ (events.Advance (100 ∷ 100 ∷ 100 ∷ []))
        ∷ (events.Tick (server_node 1))
        ∷ (events.Advance (400 ∷ 400 ∷ 400 ∷ []))
        ∷ (events.Tick (client_node 1))
        ∷ (events.Deliver 12)
        ∷ (events.Advance (350 ∷ 350 ∷ 350 ∷ []))
        ∷ (events.Tick (client_node 1))
        ∷ (events.Effect 1)
        ∷ (events.Report 1 true)
        ∷ (events.Advance (260 ∷ 260 ∷ 260 ∷ []))
        ∷ (events.Tick (client_node 1))
        ∷ (events.Tick (server_node 1))
        ∷ []) }
{}

/// Every promise is kept in the row of the failed flush.
#[tactic(auto, unfolding(crate::specs::SafeWords::safe_words_open))]
pub fn failed_flush_is_safe()
    ensures { IsKeptRun (world_of 2 1 1 8) (
        (ask 1 (asks.Write (on 1 2) (page 0) (filled 77)))
        ∷ (events.Deliver 1)
        ∷ (events.Deliver 2)
        ∷ (events.Deliver 3)
        ∷ (events.Deliver 4)
        ∷ (events.Deliver 5)
        ∷ (events.Deliver 6)
        ∷ (events.Advance (850 ∷ 850 ∷ 850 ∷ []))
        ∷ (events.Tick (client_node 1))
        ∷ (events.Report 1 false)
        ∷ (events.Advance (150 ∷ 150 ∷ 150 ∷ []))
        ∷ (ask 1 (asks.Sync (on 1 2)))
        ∷ (ask 2 (asks.Read (on 1 2) (page 0)))
        ∷ (events.Deliver 8)
        ∷ (events.Deliver 9)
        ∷ (events.Deliver 10)
        ∷ (events.Advance (100 ∷ 100 ∷ 100 ∷ []))
        ∷ (events.Tick (server_node 1))
        ∷ (events.Advance (400 ∷ 400 ∷ 400 ∷ []))
        ∷ (events.Deliver 11)
        ∷ (events.Deliver 13)
        ∷ (events.Deliver 14)
        ∷ (events.Advance (610 ∷ 610 ∷ 610 ∷ []))
        ∷ (events.Tick (server_node 1))
        ∷ (events.Deliver 15)
        ∷ (events.Deliver 16)
        ∷ (events.Deliver 17)
        ∷ (events.Effect 2)
        ∷ (events.Report 2 true)
        ∷ []) }
{}

/// Every promise is kept in the row of the restart while a timer runs.
#[tactic(auto, unfolding(crate::specs::SafeWords::safe_words_open))]
pub fn restart_is_safe()
    ensures { IsKeptRun (world_of 2 1 1 8) (
        (ask 1 (asks.Write (on 1 2) (page 0) (filled 77)))
        ∷ (events.Deliver 1)
        ∷ (events.Deliver 2)
        ∷ (events.Deliver 3)
        ∷ (events.Deliver 4)
        ∷ (events.Deliver 5)
        ∷ (events.Deliver 6)
        ∷ (ask 2 (asks.Read (on 1 2) (page 0)))
        ∷ (events.Deliver 7)
        ∷ (events.Deliver 8)
        ∷ (events.Deliver 9)
        ∷ (events.Advance (100 ∷ 100 ∷ 100 ∷ []))
        ∷ (events.Tick (server_node 1))
        ∷ (events.Crash (server_node 1))
        ∷ (events.Start (server_node 1))
        ∷ (events.Advance (400 ∷ 400 ∷ 400 ∷ []))
        ∷ (events.Tick (client_node 1))
        ∷ (events.Deliver 12)
        ∷ (events.Deliver 13)
        ∷ (events.Deliver 14)
        ∷ (events.Deliver 15)
        ∷ (ask 1 (asks.Read (on 1 2) (page 0)))
        ∷ []) }
{}
