// Written by tools/rows/world_rows.py.
ghost use Rattle.std.specs.Prelude.{◌≡◌, ◌∷◌, [], Some, false, true};
ghost use Rattle.st_base.specs.declared.mode.Mode.TheVariants as modes;
ghost use Rattle.st_messages.specs.declared.answer.AppAnswer.TheVariants as answers;
ghost use Rattle.st_messages.specs.declared.ask.Ask.TheVariants as asks;
ghost use Rattle.st_messages.specs.declared.event.Event.TheVariants as events;
ghost use Rattle.st_messages.specs.declared.message.Body.TheVariants as bodies;
ghost use Rattle.st_rules.specs.Run.{run};
ghost use Rattle.st_rules.specs.declared.observation.WorldRefusal.TheVariants as refusals;
ghost use Rattle.st_rows.specs.ClientWords.{on};
ghost use Rattle.st_rows.specs.Words.{extent, g, page};
ghost use Rattle.st_rows_world.specs.WorldWords.{answered, ask, client_node, counts, grainy_world, leased, read_out, sent, tells, told};

/// A command has its effect once.
#[tactic(auto, unfolding(crate::specs::WorldWords::world_words_open))]
pub fn effect_twice()
    ensures { told (run (
        (ask 1 (asks.Patch (on 1 2) (page 0) 0 (9 ∷ [])))
        ∷ (events.Deliver 1)
        ∷ (events.Deliver 2)
        ∷ (events.Deliver 3)
        ∷ (events.Deliver 4)
        ∷ (events.Deliver 5)
        ∷ (events.Deliver 6)
        ∷ (events.Effect 1)
        ∷ (events.Effect 1)
        ∷ []) (grainy_world 0 2 1 1 8))
        ≡ tells (
        (sent 1 1 32769 1 0 0 0 bodies.Hello ∷ [])
        ∷ (sent 2 32769 1 1 1 0 0 bodies.Welcome ∷ [])
        ∷ (leased 1 1 1000 ∷ sent 3 1 32769 1 1 1 0 (bodies.Acquire 2 modes.X) ∷ [])
        ∷ (sent 4 32769 1 1 1 1 0 (bodies.Granted 2 (g 4294967297) modes.X) ∷ [])
        ∷ (sent 5 1 32769 1 1 2 0 (bodies.Allocate 2 (g 4294967297) (page 0) 1) ∷ [])
        ∷ (sent 6 32769 1 1 1 2 0 (bodies.Extents 2 (extent 0 1 0 1 ∷ [])) ∷ [])
        ∷ (read_out 1 1 1 1 0 ∷ [])
        ∷ []
        ∷ []) (counts 8 6 1 0 0 0 0 0) (Some (refusals.DiskState 1)) }
{}

/// A command that was reported has no effect.
#[tactic(auto, unfolding(crate::specs::WorldWords::world_words_open))]
pub fn effect_of_a_reported_command()
    ensures { told (run (
        (ask 1 (asks.Patch (on 1 2) (page 0) 0 (9 ∷ [])))
        ∷ (events.Deliver 1)
        ∷ (events.Deliver 2)
        ∷ (events.Deliver 3)
        ∷ (events.Deliver 4)
        ∷ (events.Deliver 5)
        ∷ (events.Deliver 6)
        ∷ (events.Report 1 false)
        ∷ (events.Effect 1)
        ∷ []) (grainy_world 0 2 1 1 8))
        ≡ tells (
        (sent 1 1 32769 1 0 0 0 bodies.Hello ∷ [])
        ∷ (sent 2 32769 1 1 1 0 0 bodies.Welcome ∷ [])
        ∷ (leased 1 1 1000 ∷ sent 3 1 32769 1 1 1 0 (bodies.Acquire 2 modes.X) ∷ [])
        ∷ (sent 4 32769 1 1 1 1 0 (bodies.Granted 2 (g 4294967297) modes.X) ∷ [])
        ∷ (sent 5 1 32769 1 1 2 0 (bodies.Allocate 2 (g 4294967297) (page 0) 1) ∷ [])
        ∷ (sent 6 32769 1 1 1 2 0 (bodies.Extents 2 (extent 0 1 0 1 ∷ [])) ∷ [])
        ∷ (read_out 1 1 1 1 0 ∷ [])
        ∷ (answered 1 1 (answers.DiskFault 1) ∷ [])
        ∷ []) (counts 8 6 1 0 0 0 0 0) (Some (refusals.DiskState 1)) }
{}

/// A command without an effect is not reported as done.
#[tactic(auto, unfolding(crate::specs::WorldWords::world_words_open))]
pub fn success_without_effect()
    ensures { told (run (
        (ask 1 (asks.Patch (on 1 2) (page 0) 0 (9 ∷ [])))
        ∷ (events.Deliver 1)
        ∷ (events.Deliver 2)
        ∷ (events.Deliver 3)
        ∷ (events.Deliver 4)
        ∷ (events.Deliver 5)
        ∷ (events.Deliver 6)
        ∷ (events.Report 1 true)
        ∷ []) (grainy_world 0 2 1 1 8))
        ≡ tells (
        (sent 1 1 32769 1 0 0 0 bodies.Hello ∷ [])
        ∷ (sent 2 32769 1 1 1 0 0 bodies.Welcome ∷ [])
        ∷ (leased 1 1 1000 ∷ sent 3 1 32769 1 1 1 0 (bodies.Acquire 2 modes.X) ∷ [])
        ∷ (sent 4 32769 1 1 1 1 0 (bodies.Granted 2 (g 4294967297) modes.X) ∷ [])
        ∷ (sent 5 1 32769 1 1 2 0 (bodies.Allocate 2 (g 4294967297) (page 0) 1) ∷ [])
        ∷ (sent 6 32769 1 1 1 2 0 (bodies.Extents 2 (extent 0 1 0 1 ∷ [])) ∷ [])
        ∷ (read_out 1 1 1 1 0 ∷ [])
        ∷ []) (counts 7 6 1 0 0 0 0 0) (Some (refusals.DiskState 1)) }
{}

/// A failed read is reported; a report for a client that was started again tells nobody; and there
/// is one report.
#[tactic(auto, unfolding(crate::specs::WorldWords::world_words_open))]
pub fn failed_read()
    ensures { told (run (
        (ask 1 (asks.Patch (on 1 2) (page 0) 0 (9 ∷ [])))
        ∷ (events.Deliver 1)
        ∷ (events.Deliver 2)
        ∷ (events.Deliver 3)
        ∷ (events.Deliver 4)
        ∷ (events.Deliver 5)
        ∷ (events.Deliver 6)
        ∷ (events.Report 1 false)
        ∷ (ask 1 (asks.Read (on 1 2) (page 0)))
        ∷ (events.Crash (client_node 1))
        ∷ (events.Start (client_node 1))
        ∷ (events.Effect 2)
        ∷ (events.Report 2 true)
        ∷ (events.Report 2 false)
        ∷ []) (grainy_world 0 2 1 1 8))
        ≡ tells (
        (sent 1 1 32769 1 0 0 0 bodies.Hello ∷ [])
        ∷ (sent 2 32769 1 1 1 0 0 bodies.Welcome ∷ [])
        ∷ (leased 1 1 1000 ∷ sent 3 1 32769 1 1 1 0 (bodies.Acquire 2 modes.X) ∷ [])
        ∷ (sent 4 32769 1 1 1 1 0 (bodies.Granted 2 (g 4294967297) modes.X) ∷ [])
        ∷ (sent 5 1 32769 1 1 2 0 (bodies.Allocate 2 (g 4294967297) (page 0) 1) ∷ [])
        ∷ (sent 6 32769 1 1 1 2 0 (bodies.Extents 2 (extent 0 1 0 1 ∷ [])) ∷ [])
        ∷ (read_out 1 1 1 1 0 ∷ [])
        ∷ (answered 1 1 (answers.DiskFault 1) ∷ [])
        ∷ (read_out 2 1 2 1 0 ∷ [])
        ∷ []
        ∷ []
        ∷ []
        ∷ []
        ∷ []) (counts 13 6 2 0 0 0 0 0) (Some (refusals.DiskState 2)) }
{}
