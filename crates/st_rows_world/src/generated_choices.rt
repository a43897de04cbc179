ghost use Rattle.std.specs.Prelude.{◌≡◌, None, Some, option_map};
ghost use Rattle.st_rules.specs.declared.observation.WorldRefusal.TheVariants as refusals;
ghost use Rattle.st_rules.specs.Admissible.{refusal};
ghost use Rattle.st_rules.specs.Generator.{candidate, choice, fallback, generator_world, drawn_node};

/// From 0 the first candidate is the start of a node, which is not admissible, since every node
/// runs.
#[tactic(auto, unfolding(crate::specs::GeneratedWords::rows_open))]
pub fn first_candidate_of_0()
    ensures { option_map (refusal generator_world) (candidate 0 0 0).0 ≡ Some (Some (refusals.Running (drawn_node 2))) }
{}

/// Without a try the fallback is chosen, and nothing is drawn. It is admissible at the start.
#[tactic(auto, unfolding(crate::specs::GeneratedWords::rows_open))]
pub fn fallback_is_chosen()
    ensures choice { choice 0 generator_world 5 ≡ (fallback, 5) }
    ensures admissible { refusal generator_world fallback ≡ None }
{}
