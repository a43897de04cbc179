// Written by tools/rows/world_rows.py.
ghost use Rattle.std.specs.Prelude.{◌≡◌, ◌∷◌, [], Some};
ghost use Rattle.st_messages.specs.declared.event.Event.TheVariants as events;
ghost use Rattle.st_rules.specs.Run.{run};
ghost use Rattle.st_rules.specs.declared.observation.WorldRefusal.TheVariants as refusals;
ghost use Rattle.st_rows_world.specs.WorldWords.{client_node, counts, grainy_world, server_node, tells, told, world_of};

/// An advance at the bound, and one beyond it.
#[tactic(auto, unfolding(crate::specs::WorldWords::world_words_open))]
pub fn rate_boundary()
    ensures { told (run (
        (events.Advance (101 ∷ 100 ∷ 100 ∷ []))
        ∷ (events.Advance (102 ∷ 100 ∷ 100 ∷ []))
        ∷ []) (world_of 2 1 1 8))
        ≡ tells (
        []
        ∷ []) (counts 1 0 0 0 0 0 0 0) (Some (refusals.ClockRate 102 100)) }
{}

/// Clocks that drift apart over three advances.
#[tactic(auto, unfolding(crate::specs::WorldWords::world_words_open))]
pub fn drift_of_clients()
    ensures { told (run (
        (events.Advance (106 ∷ 100 ∷ 100 ∷ []))
        ∷ (events.Advance (101 ∷ 100 ∷ 100 ∷ []))
        ∷ (events.Advance (102 ∷ 100 ∷ 100 ∷ []))
        ∷ []) (grainy_world 5 2 1 1 8))
        ≡ tells (
        []
        ∷ []
        ∷ []) (counts 2 0 0 0 0 0 0 0) (Some (refusals.ClockDrift (client_node 1) (client_node 2) 600)) }
{}

/// Clocks that stand still while another runs.
#[tactic(auto, unfolding(crate::specs::WorldWords::world_words_open))]
pub fn drift_from_rest()
    ensures { told (run (
        (events.Advance (0 ∷ 0 ∷ 5 ∷ []))
        ∷ (events.Advance (0 ∷ 0 ∷ 1 ∷ []))
        ∷ []) (grainy_world 5 2 1 1 8))
        ≡ tells (
        []
        ∷ []) (counts 1 0 0 0 0 0 0 0) (Some (refusals.ClockDrift (server_node 1) (client_node 1) 600)) }
{}
