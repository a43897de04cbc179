// Writing a generated schedule.
ghost use Rattle.std.specs.Prelude.{◌≡◌, ◌+◌, ◌<◌, ◌≤◌, ◌++◌, ◌^◌, [], OnOk, OnErr};
ghost use Rattle.std.specs.Io.KnownBytes.{Appends};
ghost use Rattle.st_generate.specs.GeneratedText.{event_line, generate_text, schedule_text};
ghost use Rattle.st_link.specs.Prefixes.{AppendsPrefix};
ghost use Rattle.st_rules.specs.Generator.{chosen, generated, generator_world};
ghost use Rattle.st_generate_run.specs.Pieces.{HasCauses, Writes};
ghost use Rattle.st_generate_run.specs.Turns.{IsReady, IsTurn, lines};

use crate::Draws;
use crate::choice::{choose, fallback_event};
use crate::fault::WorkFault;
use crate::text::{LONG, flush, put_end, put_event, put_head};
use crate::turn::{fresh, run_event};
use st_link::Sink;
use st_rules::Observation;
use st_world::World;
use std::alloc::{AllocError, Global};

/// Chooses the next event, appends its line and runs it.
fn put_next(
    alloc: Global,
    world: &mut World,
    draws: &mut Draws,
    seen: &mut Vec<Observation>,
    text: &mut Vec<u8>,
) -> Result<(), AllocError>
    requires ready { IsReady world.old }
    requires room { world.old.tally.events < 2 ^ 29 }
    ensures turn { OnOk result (IsTurn world.old draws.old world.new draws.new) }
    ensures ready { OnOk result (IsReady world.new) }
    ensures events { OnOk result (world.new.tally.events ≡ world.old.tally.events + 1) }
    ensures text { OnOk result (text.new.items ≡ text.old.items ++ event_line (chosen world.old draws.old).0) }
{
    let mut event = fallback_event();
    choose(draws, &mut event, &*world, alloc)?;
    put_event(text, &event)?;
    run_event(alloc, world, &event, seen)
}

/// Chooses the next event, appends its line and runs it, and writes the text if it is long.
fn write_next<O: Sink>(
    alloc: Global,
    world: &mut World,
    draws: &mut Draws,
    seen: &mut Vec<Observation>,
    text: &mut Vec<u8>,
    out: &mut O,
) -> Result<(), WorkFault>
    requires ready { IsReady world.old }
    requires room { world.old.tally.events < 2 ^ 29 }
    ensures turn { OnOk result (IsTurn world.old draws.old world.new draws.new) }
    ensures ready { OnOk result (IsReady world.new) }
    ensures events { OnOk result (world.new.tally.events ≡ world.old.tally.events + 1) }
    ensures wrote { OnOk result (Writes (O.written out.old) (O.written out.new)
        (text.old.items ++ event_line (chosen world.old draws.old).0) text.new.items) }
    ensures front { OnErr result (AppendsPrefix (O.written out.old) (O.written out.new) (text.old.items ++ event_line (chosen world.old draws.old).0)) }
    ensures causes { HasCauses result (O.faults out.old) (O.faults out.new) }
{
    put_next(alloc, world, draws, seen, text)?;
    if text.len() < LONG {
        return Ok(());
    }
    flush(out, text)?;
    Ok(())
}

/// Chooses, prints and runs `n` events.
fn write_events<O: Sink>(
    alloc: Global,
    world: &mut World,
    draws: &mut Draws,
    n: u32,
    text: &mut Vec<u8>,
    out: &mut O,
) -> Result<(), WorkFault>
    requires ready { IsReady world.old }
    requires room { world.old.tally.events + n ≤ 2 ^ 29 }
    ensures wrote { OnOk result (Writes (O.written out.old) (O.written out.new) (text.old.items ++ lines n world.old draws.old) text.new.items) }
    ensures front { OnErr result (AppendsPrefix (O.written out.old) (O.written out.new) (text.old.items ++ lines n world.old draws.old)) }
    ensures causes { HasCauses result (O.faults out.old) (O.faults out.new) }
{
    let mut seen = Vec::new(alloc);
    for _i in 0..n {
        write_next(alloc, world, draws, &mut seen, text, out)?;
    }
    Ok(())
}

/// Writes the head, the lines of the next `n` events, and the end.
fn write_schedule<O: Sink>(
    alloc: Global,
    world: &mut World,
    draws: &mut Draws,
    n: u32,
    out: &mut O,
) -> Result<(), WorkFault>
    requires ready { IsReady world.old }
    requires room { world.old.tally.events + n ≤ 2 ^ 29 }
    ensures text { OnOk result (Appends (O.written out.old) (O.written out.new) (schedule_text (generated n world.old draws.old))) }
    ensures front { OnErr result (AppendsPrefix (O.written out.old) (O.written out.new) (schedule_text (generated n world.old draws.old))) }
    ensures causes { HasCauses result (O.faults out.old) (O.faults out.new) }
{
    let mut text = Vec::new(alloc);
    put_head(&mut text)?;
    write_events(alloc, world, draws, n, &mut text, out)?;
    put_end(&mut text)?;
    flush(out, &mut text)?;
    Ok(())
}

/// Writes the schedule of `n` events that this seed gives. It is written in pieces of some
/// kilobytes as it is made, and not kept.
///
/// It returns `Write` if a write failed, and `Memory` if memory ran out.
pub fn generate<O: Sink>(alloc: Global, seed: u64, n: u32, out: &mut O) -> Result<(), WorkFault>
    requires { n ≤ 2 ^ 29 }
    ensures text { OnOk result (Appends (O.written out.old) (O.written out.new) (generate_text n seed)) }
    // After an error a prefix of the text was written, maybe nothing.
    ensures front { OnErr result (AppendsPrefix (O.written out.old) (O.written out.new) (generate_text n seed)) }
    // `Write` comes only if the count of faults rose; it stays at `Ok` and at `Memory`.
    ensures causes { HasCauses result (O.faults out.old) (O.faults out.new) }
{
    let mut world = fresh(alloc)?;
    let mut draws = Draws::new(seed);
    write_schedule(alloc, &mut world, &mut draws, n, out)
}
