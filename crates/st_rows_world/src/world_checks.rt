ghost use Rattle.std.specs.Prelude.{◌≡◌, ◌∷◌, [], Some, None, true, false};
ghost use Rattle.st_messages.specs.declared.ask.Ask.TheVariants as asks;
ghost use Rattle.st_messages.specs.declared.event.Event.TheVariants as events;
ghost use Rattle.st_rules.specs.Admissible.{refusal};
ghost use Rattle.st_rules.specs.declared.observation.WorldRefusal.TheVariants as refusals;
ghost use Rattle.st_rows_world.specs.CheckWords.{after, filled_to, with_bytes, with_command};
ghost use Rattle.st_rows.specs.ClientWords.{on};
ghost use Rattle.st_rows.specs.Words.{page};
ghost use Rattle.st_rows_world.specs.WorldWords.{ask, client_node, grainy_world, server_node, world_of};

/// A full network takes no step that may send; the node is looked at first. One byte less is not
/// full, and other events go on.
#[tactic(auto, unfolding(crate::specs::WorldWords::world_words_open))]
pub fn a_full_network_takes_no_step()
    ensures tick { refusal (filled_to 536870912) (events.Tick (client_node 1)) ≡ Some (refusals.NetFull 536870912) }
    ensures more { refusal (filled_to 536870913) (events.Tick (server_node 1)) ≡ Some (refusals.NetFull 536870913) }
    ensures less { refusal (filled_to 536870911) (events.Tick (client_node 1)) ≡ None }
    ensures asked { refusal (filled_to 536870912) (ask 2 (asks.Read (on 1 2) (page 0))) ≡ Some (refusals.NetFull 536870912) }
    ensures no_node { refusal (filled_to 536870912) (events.Tick (client_node 3)) ≡ Some (refusals.NoNode (client_node 3)) }
    ensures stopped { refusal (with_bytes 536870912 (after (events.Crash (client_node 1) ∷ []))) (events.Tick (client_node 1))
        ≡ Some (refusals.NotRunning (client_node 1)) }
    ensures delivered { refusal (with_bytes 536870912 (after (ask 1 (asks.Read (on 1 2) (page 0)) ∷ []))) (events.Deliver 1)
        ≡ Some (refusals.NetFull 536870912) }
    ensures lost { refusal (with_bytes 536870912 (after (ask 1 (asks.Read (on 1 2) (page 0)) ∷ []))) (events.Lose 1) ≡ None }
    ensures failed { refusal (with_command (filled_to 536870912)) (events.Report 1 false) ≡ Some (refusals.NetFull 536870912) }
    ensures advanced { refusal (filled_to 536870912) (events.Advance (1 ∷ 1 ∷ 1 ∷ [])) ≡ None }
    ensures crashed { refusal (filled_to 536870912) (events.Crash (client_node 1)) ≡ None }
{}

/// A delivery is refused for the message before its direction, and for its direction before its
/// receiver; a cut for its first node before its second; a report for its command before the
/// network. Nodes that are not there, and one that doesn't run.
#[tactic(auto, unfolding(crate::specs::WorldWords::world_words_open))]
pub fn checks_have_an_order()
    ensures lost { refusal (after (ask 1 (asks.Read (on 1 2) (page 0)) ∷ (events.Crash (server_node 1)) ∷ (events.Cut (client_node 1) (server_node 1))
        ∷ (events.Lose 1) ∷ [])) (events.Deliver 1) ≡ Some (refusals.LostMessage 1) }
    ensures cut { refusal (after (ask 1 (asks.Read (on 1 2) (page 0)) ∷ (events.Crash (server_node 1)) ∷ (events.Cut (client_node 1) (server_node 1))
        ∷ [])) (events.Deliver 1) ≡ Some (refusals.LinkCut (client_node 1) (server_node 1)) }
    ensures other_way { refusal (after (ask 1 (asks.Read (on 1 2) (page 0)) ∷ (events.Cut (server_node 1) (client_node 1)) ∷ [])) (events.Deliver 1) ≡ None }
    ensures from { refusal (world_of 2 1 1 8) (events.Cut (client_node 9) (server_node 8)) ≡ Some (refusals.NoNode (client_node 9)) }
    ensures to { refusal (world_of 2 1 1 8) (events.Heal (client_node 2) (server_node 2)) ≡ Some (refusals.NoNode (server_node 2)) }
    ensures zero { refusal (world_of 2 1 1 8) (events.Lose 0) ≡ Some (refusals.NoMessage 0) }
    ensures state { refusal (with_command (filled_to 536870912)) (events.Report 1 true) ≡ Some (refusals.DiskState 1) }
    ensures no_command { refusal (with_command (filled_to 536870912)) (events.Report 2 false) ≡ Some (refusals.NoCommand 2) }
    ensures started { refusal (world_of 2 1 1 8) (events.Start (client_node 3)) ≡ Some (refusals.NoNode (client_node 3)) }
    ensures crashed { refusal (world_of 2 1 1 8) (events.Crash (server_node 2)) ≡ Some (refusals.NoNode (server_node 2)) }
    ensures asked { refusal (after ((events.Crash (client_node 1)) ∷ [])) (ask 1 (asks.Read (on 1 2) (page 0))) ≡ Some (refusals.NotRunning (client_node 1)) }
{}

/// Clocks that all stand still are refused only under the first form.
#[tactic(auto, unfolding(crate::specs::WorldWords::world_words_open))]
pub fn an_advance_of_nothing()
    ensures first { refusal (world_of 2 1 1 8) (events.Advance (0 ∷ 0 ∷ 0 ∷ [])) ≡ Some (refusals.ClockRate 0 0) }
    ensures one { refusal (world_of 2 1 1 8) (events.Advance (1 ∷ 0 ∷ 1 ∷ [])) ≡ Some (refusals.ClockRate 1 0) }
    ensures second { refusal (grainy_world 5 2 1 1 8) (events.Advance (0 ∷ 0 ∷ 0 ∷ [])) ≡ None }
{}
