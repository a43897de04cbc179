// The counts of the run of a generated schedule.
ghost use Rattle.std.specs.Prelude.{◌≡◌, ◌+◌, ◌≤◌, ◌^◌, IfOk, OnOk, OnErr};
ghost use Rattle.std.specs.Io.KnownBytes.{Appends};
ghost use Rattle.st_generate.specs.GeneratedText.{work_text};
ghost use Rattle.st_link.specs.Prefixes.{AppendsPrefix};
ghost use Rattle.st_rules.specs.Generator as generator;
ghost use Rattle.st_rules.specs.Run.{run};
ghost use Rattle.st_generate_run.specs.Pieces.{HasCauses};
ghost use Rattle.st_generate_run.specs.Turns.{IsReady};

use crate::Draws;
use crate::fault::WorkFault;
use crate::turn::{advance, fresh};
use st_link::{Sink, put_all};
use st_report::put_ended;
use st_rules::Summary;
use st_world::World;
use std::alloc::{AllocError, Global};

/// Chooses and runs `n` events.
fn run_events(alloc: Global, world: &mut World, draws: &mut Draws, n: u32) -> Result<(), AllocError>
    requires ready { IsReady world.old }
    requires room { world.old.tally.events + n ≤ 2 ^ 29 }
    ensures { OnOk result (world.new ≡ (run (generator.generated n world.old draws.old) world.old).world) }
{
    let mut seen = Vec::new(alloc);
    for _i in 0..n {
        advance(alloc, world, draws, &mut seen)?;
    }
    Ok(())
}

/// Runs the schedule of `n` events that this seed gives, and returns what its run counts. No text
/// is made.
#[tactic(auto, unfolding(st_rules::specs::Generator::work, st_rules::specs::Generator::generate))]
pub fn work(alloc: Global, seed: u64, n: u32) -> Result<Summary, AllocError>
    requires { n ≤ 2 ^ 29 }
    ensures { IfOk result (λ s. s ≡ generator.work n seed) }
{
    let mut world = fresh(alloc)?;
    let mut draws = Draws::new(seed);
    run_events(alloc, &mut world, &mut draws, n)?;
    Ok(world.summary())
}

/// Runs the schedule of `n` events that this seed gives, writes the last line of its report, and
/// returns what the line tells.
///
/// It returns `Write` if a write failed, and `Memory` if memory ran out.
#[tactic(auto, unfolding(st_generate::specs::GeneratedText::work_text))]
pub fn put_work<O: Sink>(
    alloc: Global,
    seed: u64,
    n: u32,
    out: &mut O,
) -> Result<Summary, WorkFault>
    requires { n ≤ 2 ^ 29 }
    ensures counts { IfOk result (λ s. s ≡ generator.work n seed) }
    ensures text { OnOk result (Appends (O.written out.old) (O.written out.new) (work_text n seed)) }
    // After an error a prefix of the line was written, maybe nothing.
    ensures front { OnErr result (AppendsPrefix (O.written out.old) (O.written out.new) (work_text n seed)) }
    // `Write` comes only if the count of faults rose; it stays at `Ok` and at `Memory`.
    ensures causes { HasCauses result (O.faults out.old) (O.faults out.new) }
{
    let summary = work(alloc, seed, n)?;
    let mut text = Vec::new(alloc);
    put_ended(&mut text, summary)?;
    put_all(out, text.as_slice())?;
    Ok(summary)
}
