ghost use Rattle.std.specs.Prelude.{◌≡◌, ◌+◌, ◌<◌, ◌≤◌, ◌∷◌, ◌++◌, ◌^◌, ℕ, List, Ok, IfOk, OnOk, true, length};
ghost use Rattle.st_rules.specs.Report.{opening};
ghost use Rattle.st_rules.specs.Safety.{IsHead, is_event};
ghost use Rattle.st_rules.specs.World.{fresh_world};
ghost use Rattle.st_schedule.specs.Reader.{HasNodes, SpellsLine, read_line};
ghost use Rattle.st_schedule.specs.declared.reader.Progress.TheVariants.{Nothing};
ghost use Rattle.st_runs.specs.Schedule.{Schedule, begin, schedule_of};
ghost use Rattle.st_runs.specs.Replay.{behind, replay_lines};
ghost use Rattle.st_replay.specs.States.{EndsAt, IsPlaying, IsUnread, OnStop, from_line, from_world, needs};

use crate::fault::Stop;
use st_base::Config;
use st_messages::{Counts, Event};
use st_report::{put_lines, put_opening};
use st_rules::Observation;
use st_runs::LineRefusal;
use st_schedule::{Line, ScheduleReader, ScheduleRefusal};
use st_world::{World, WorldFault};
use std::alloc::Global;
use std::mem;

/// Runs the event in the line of this number, and appends what is observed of it. What was observed
/// of the event before it makes room for that.
fn play_event(
    alloc: Global,
    text: &mut Vec<u8>,
    world: &mut World,
    seen: &mut Vec<Observation>,
    line: u64,
    event: &Event,
) -> Result<(), Stop>
    requires event { is_event (length world.old.clocks) event.now ≡ true }
    requires room { world.old.tally.events < 2 ^ 29 }
    requires number { line ≡ world.old.tally.events + 2 }
    ensures goes { OnOk result ((rest : Schedule) →
        behind text.new.items (from_world world.new rest) ≡ behind text.old.items (from_world world.old (begin event.now rest))) }
    ensures stops { OnStop result (λ n f. (rest : Schedule) → EndsAt text.new.items n f (behind text.old.items (from_world world.old (begin event.now rest)))) }
    ensures events { OnOk result (world.new.tally.events ≡ world.old.tally.events + 1) }
    ensures clocks { OnOk result (length world.new.clocks ≡ length world.old.clocks) }
{
    if let Some(refusal) = world.refusal(event) {
        return Err(Stop::Line(line, LineRefusal::World(refusal)));
    }
    let spare = mem::replace(seen, Vec::new(alloc));
    match world.run(event, spare) {
        Ok(observed) => {
            put_lines(text, line - 1, observed.as_slice())?;
            *seen = observed;
            Ok(())
        }
        Err(WorldFault::Refused(_)) => unreachable!(),
        Err(WorldFault::Memory) => Err(Stop::Memory),
    }
}

/// Reads the line of this number.
fn read(reader: &mut ScheduleReader, line: u64, bytes: &[u8]) -> Result<Line, Stop>
    ensures exact { IfOk result (λ said. read_line reader.old bytes.now ≡ Ok (said, reader.new)) }
    ensures spelled { HasNodes reader.old → IfOk result (λ said. SpellsLine reader.old bytes.now said) }
    ensures stops { OnStop result (λ n f. (n ≡ line) × IsUnread (read_line reader.old bytes.now) f) }
{
    match reader.line(bytes) {
        Ok(said) => Ok(said),
        Err(ScheduleRefusal::Memory) => Err(Stop::Memory),
        Err(refusal) => Err(Stop::Line(line, LineRefusal::Schedule(refusal))),
    }
}

/// Reads the line of this number, after the head, and runs its event.
pub(crate) fn play_line(
    alloc: Global,
    text: &mut Vec<u8>,
    world: &mut World,
    seen: &mut Vec<Observation>,
    reader: &mut ScheduleReader,
    line: u64,
    bytes: &[u8],
) -> Result<(), Stop>
    requires playing { IsPlaying world.old reader.old line }
    ensures goes { OnOk result ((ls : List (List ℕ)) → behind text.new.items (from_line world.new reader.new (line + 1) ls)
        ≡ behind text.old.items (from_line world.old reader.old line (bytes.now ∷ ls))) }
    ensures stops { OnStop result (λ n f. (ls : List (List ℕ)) → EndsAt text.new.items n f
        (behind text.old.items (from_line world.old reader.old line (bytes.now ∷ ls)))) }
    ensures playing { OnOk result (IsPlaying world.new reader.new (line + 1)) }
    ensures room { OnOk result (length bytes.now + 1 + needs reader.new ≤ needs reader.old) }
{
    match read(reader, line, bytes) {
        Ok(Line::Event(event)) => play_event(alloc, text, world, seen, line, &event),
        Ok(Line::Head(..)) => Ok(()),
        Ok(Line::End) => Ok(()),
        Err(stop) => Err(stop),
    }
}

/// The world of a head. Appends the line that opens a report.
fn open(
    alloc: Global,
    text: &mut Vec<u8>,
    config: Config,
    counts: Counts,
    form: u8,
) -> Result<World, Stop>
    requires head { IsHead config counts.clients counts.servers counts.disks counts.blocks form }
    ensures world { IfOk result (λ w. w ≡ fresh_world config counts.clients counts.servers counts.disks counts.blocks form) }
    ensures opening { OnOk result (text.new.items ≡ text.old.items ++ opening) }
    ensures unread { OnStop result (λ n f. ⊥) }
{
    put_opening(text)?;
    let world = World::new(
        alloc,
        &config,
        counts.clients,
        counts.servers,
        counts.disks,
        counts.blocks,
        form,
    )?;
    Ok(world)
}

/// Reads the first line, and makes the world of its head.
pub(crate) fn play_head(
    alloc: Global,
    text: &mut Vec<u8>,
    reader: &mut ScheduleReader,
    bytes: &[u8],
) -> Result<World, Stop>
    requires first { reader.old ≡ Nothing }
    ensures goes { IfOk result (λ w. (ls : List (List ℕ)) →
        behind text.new.items (from_line w reader.new 2 ls) ≡ behind text.old.items (replay_lines (bytes.now ∷ ls))) }
    ensures stops { OnStop result (λ n f. (ls : List (List ℕ)) → EndsAt text.new.items n f (behind text.old.items (replay_lines (bytes.now ∷ ls)))) }
    ensures playing { IfOk result (λ w. IsPlaying w reader.new 2) }
    ensures room { IfOk result (λ w. length bytes.now + 1 + needs reader.new ≤ needs Nothing) }
{
    match read(reader, 1, bytes) {
        Ok(Line::Head(config, counts, form)) => open(alloc, text, config, counts, form),
        Ok(_) => Err(Stop::Line(1, LineRefusal::Schedule(ScheduleRefusal::NoHead))),
        Err(stop) => Err(stop),
    }
}
