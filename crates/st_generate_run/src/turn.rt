// A turn: the next event is chosen, and runs in the world.
ghost use Rattle.std.specs.Prelude.{◌≡◌, ◌+◌, ◌<◌, ◌^◌, true, None, IfOk, OnOk, length};
ghost use Rattle.st_rules.specs.Admissible.{refusal};
ghost use Rattle.st_rules.specs.Generator as generator;
ghost use Rattle.st_rules.specs.Safety.{is_event};
ghost use Rattle.st_generate_run.specs.Turns.{IsReady, IsTurn, Leads};

use crate::Draws;
use crate::choice::{choose, fallback_event};
use st_base::Config;
use st_messages::Event;
use st_rules::Observation;
use st_world::{World, WorldFault};
use std::alloc::{AllocError, Global};
use std::mem;

/// The settings of a generated schedule.
const SETTINGS: Config = Config {
    lease: 1000,
    renew: 500,
    quiesce: 700,
    flush: 850,
    demand: 100,
    retry: 50,
    num: 101,
    den: 100,
    grain: 0,
};

/// The world in which a generated schedule begins: three clients and two servers, with two disks of
/// 64 blocks.
#[tactic(auto, unfolding(st_rules::specs::Generator::generator_world))]
pub(crate) fn fresh(alloc: Global) -> Result<World, AllocError>
    ensures { IfOk result (λ w. w ≡ generator.generator_world) }
{
    World::new(alloc, &SETTINGS, 3, 2, 2, 64, 1)
}

/// Runs an event that is admissible. What was observed of the one before makes room for what is
/// observed of this one.
pub(crate) fn run_event(
    alloc: Global,
    world: &mut World,
    event: &Event,
    seen: &mut Vec<Observation>,
) -> Result<(), AllocError>
    requires event { is_event (length world.old.clocks) event.now ≡ true }
    requires room { world.old.tally.events < 2 ^ 29 }
    requires admissible { refusal world.old event.now ≡ None }
    ensures leads { OnOk result (Leads world.old event.now world.new) }
    ensures events { OnOk result (world.new.tally.events ≡ world.old.tally.events + 1) }
    ensures clocks { OnOk result (length world.new.clocks ≡ length world.old.clocks) }
{
    let spare = mem::replace(seen, Vec::new(alloc));
    match world.run(event, spare) {
        Ok(observed) => {
            *seen = observed;
            Ok(())
        }
        Err(WorldFault::Refused(_)) => unreachable!(),
        Err(WorldFault::Memory) => Err(AllocError),
    }
}

/// Chooses the next event and runs it.
pub(crate) fn advance(
    alloc: Global,
    world: &mut World,
    draws: &mut Draws,
    seen: &mut Vec<Observation>,
) -> Result<(), AllocError>
    requires ready { IsReady world.old }
    requires room { world.old.tally.events < 2 ^ 29 }
    ensures turn { OnOk result (IsTurn world.old draws.old world.new draws.new) }
    ensures ready { OnOk result (IsReady world.new) }
    ensures events { OnOk result (world.new.tally.events ≡ world.old.tally.events + 1) }
{
    let mut event = fallback_event();
    choose(draws, &mut event, &*world, alloc)?;
    run_event(alloc, world, &event, seen)
}
