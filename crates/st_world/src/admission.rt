// The test of an event.
ghost use Rattle.std.specs.Prelude.{◌≡◌, ◌≤◌, List, ℕ, length};
ghost use Rattle.std.specs.Option.{option_or};
ghost use Rattle.st_messages.specs.declared.event.Event.TheVariants as events;
ghost use Rattle.st_rules.specs.Admissible as admissible;
ghost use Rattle.st_world.specs.AdvanceTests.{IsTimed};

use crate::checks::{
    cannot_step, no_node, not_running, refused_delivery, refused_effect, refused_loss,
    refused_report, still_running,
};
use crate::clocks::clocks_refused;
use crate::missed_flushes::flush_missed;
use st_base::NodeId;
use st_messages::Event;
use st_rules::WorldRefusal;
use st_world_events::WorldTurn;

/// A tick or an ask of a node.
fn step_refused(machine: &WorldTurn, node: NodeId) -> Option<WorldRefusal>
    ensures { result ≡ option_or (admissible.no_node machine.now.world node) (admissible.cannot_step machine.now.world node) }
{
    match no_node(machine, node) {
        Some(refusal) => Some(refusal),
        None => cannot_step(machine, node),
    }
}

/// A cut or a heal of a direction.
fn link_refused(machine: &WorldTurn, from: NodeId, to: NodeId) -> Option<WorldRefusal>
    ensures { result ≡ option_or (admissible.no_node machine.now.world from) (admissible.no_node machine.now.world to) }
{
    match no_node(machine, from) {
        Some(refusal) => Some(refusal),
        None => no_node(machine, to),
    }
}

/// Returns the first refusal of an event that applies. It changes nothing and takes no memory.
#[tactic(auto, unfolding(st_rules::specs::Admissible::refusal))]
pub(crate) fn refusal(machine: &WorldTurn, event: &Event) -> Option<WorldRefusal>
    requires clients { length machine.now.world.clients ≤ 16 }
    requires servers { length machine.now.world.servers ≤ 4 }
    requires timed { (steps : List ℕ) → event.now ≡ events.Advance steps → IsTimed machine.now.world steps }
    ensures { result ≡ admissible.refusal machine.now.world event.now }
{
    match event {
        Event::Tick(node) => step_refused(machine, *node),
        Event::App { client, .. } => step_refused(machine, NodeId::Client(*client)),
        Event::Deliver(k) => refused_delivery(machine, *k),
        Event::Lose(k) => refused_loss(machine, *k),
        Event::Cut(from, to) => link_refused(machine, *from, *to),
        Event::Heal(from, to) => link_refused(machine, *from, *to),
        Event::Advance(steps) => match clocks_refused(machine, steps.as_slice()) {
            Some(refusal) => Some(refusal),
            None => flush_missed(machine, steps.as_slice()),
        },
        Event::Effect(k) => refused_effect(machine, *k),
        Event::Report { k, ok } => refused_report(machine, *k, *ok),
        Event::Crash(node) => match no_node(machine, *node) {
            Some(refusal) => Some(refusal),
            None => not_running(machine, *node),
        },
        Event::Start(node) => match no_node(machine, *node) {
            Some(refusal) => Some(refusal),
            None => still_running(machine, *node),
        },
    }
}
