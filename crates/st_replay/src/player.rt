ghost use Rattle.std.specs.Prelude.{◌≡◌, ◌+◌, ◌≤◌, ◌∷◌, [], ℕ, List, OnOk, None, Some, length};
ghost use Rattle.st_schedule.specs.declared.reader.Progress.TheVariants.{Nothing};
ghost use Rattle.st_runs.specs.Replay.{behind};
ghost use Rattle.st_replay.specs.States.{EndsAt, Goes, IsHere, OnStop, from_here, needs};

use crate::fault::Stop;
use crate::play::{play_head, play_line};
use st_rules::Observation;
use st_schedule::ScheduleReader;
use st_world::World;
use std::alloc::Global;

/// A replay on its way: the reader, the world once the head was read, the number of the next line,
/// the text that was not written yet, and what was observed of the last event.
#[derive(Drop)]
pub(crate) struct Player {
    pub(crate) alloc: Global,
    pub(crate) reader: ScheduleReader,
    pub(crate) world: Option<World>,
    pub(crate) line: u64,
    pub(crate) text: Vec<u8>,
    pub(crate) seen: Vec<Observation>,
}

/// Keeps the world of a head.
fn keep(place: &mut Option<World>, world: World)
    ensures { place.new ≡ Some world }
{
    *place = Some(world);
}

impl Player {
    /// A replay that has read nothing.
    pub(crate) fn new(alloc: Global) -> Player
        ensures reader { result.reader ≡ Nothing }
        ensures world { result.world ≡ None }
        ensures line { result.line ≡ 1 }
        ensures text { result.text.items ≡ [] }
    {
        Player {
            alloc,
            reader: ScheduleReader::new(alloc),
            world: None,
            line: 1,
            text: Vec::new(alloc),
            seen: Vec::new(alloc),
        }
    }

    /// Reads the next line and runs its event.
    pub(crate) fn play(&mut self, bytes: &[u8]) -> Result<(), Stop>
        requires here { IsHere self.old.world self.old.reader self.old.line }
        ensures goes { OnOk result (Goes self.old.text.items self.old.world self.old.reader self.old.line
            self.new.text.items self.new.world self.new.reader self.new.line (bytes.now ∷ [])) }
        ensures stops { OnStop result (λ n f. (ls : List (List ℕ)) → EndsAt self.new.text.items n f
            (behind self.old.text.items (from_here self.old.world self.old.reader self.old.line (bytes.now ∷ ls)))) }
        ensures number { OnOk result (self.new.line ≡ self.old.line + 1) }
        ensures here { OnOk result (IsHere self.new.world self.new.reader self.new.line) }
        ensures room { OnOk result (length bytes.now + 1 + needs self.new.reader ≤ needs self.old.reader) }
    {
        match &mut self.world {
            Some(world) => {
                play_line(
                    self.alloc,
                    &mut self.text,
                    world,
                    &mut self.seen,
                    &mut self.reader,
                    self.line,
                    bytes,
                )?;
                self.line += 1;
                Ok(())
            }
            None => {
                let world = play_head(self.alloc, &mut self.text, &mut self.reader, bytes)?;
                keep(&mut self.world, world);
                self.line += 1;
                Ok(())
            }
        }
    }
}
