// Steps of the world.
ghost use Rattle.std.specs.Prelude.{◌≡◌, ◌<◌, ◌^◌, [], true, None, length};
ghost use Rattle.st_rules.specs.Admissible as admissible;
ghost use Rattle.st_rules.specs.Events as events;
ghost use Rattle.st_rules.specs.Safety.{is_event};
ghost use Rattle.st_world.specs.Counters.{CountersHaveRoom};
ghost use Rattle.st_world.specs.Steps.{StepsAs};
ghost use Rattle.st_world.specs.AdvanceTests.{IsLaid};

use crate::fault::WorldFault;
use st_messages::Event;
use st_rules::Observation;
use st_world_events::WorldTurn;

/// Runs one event that is not refused, and returns what is observed of it. The room of the spare
/// list is used for what is observed next.
#[tactic(auto, using(crate::proofs::Stepped::admitted_is))]
pub(crate) fn step_admitted(
    machine: &mut WorldTurn,
    event: &Event,
    spare: Vec<Observation>,
) -> Result<Vec<Observation>, WorldFault>
    requires begins { machine.old.seen ≡ [] }
    requires laid { IsLaid machine.old.world }
    requires event { is_event (length machine.old.world.clocks) event.now ≡ true }
    requires room { machine.old.world.tally.events < 2 ^ 29 }
    requires admitted { admissible.refusal machine.old.world event.now ≡ None }
    requires counters { CountersHaveRoom machine.old.world }
    ensures machine { StepsAs (λ seen. seen.items) machine.old.world machine.new.world result (events.world_step machine.old.world event.now) }
    ensures ends { machine.new.seen ≡ [] }
{
    machine.count_event();
    let happened = machine.happen(event);
    let seen = machine.take_seen(spare);
    match happened {
        Err(_) => Err(WorldFault::Memory),
        Ok(()) => Ok(seen),
    }
}
