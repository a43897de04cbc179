//! Replaying: a schedule is read from a source in pieces, its events are run in a world, and the
//! report is written to a sink as the run goes on. The calls of `st_generate_run`, which make a
//! schedule and count its run, are handed on. `docs/PROTOCOL.md`, "Schedules" and "The report".
#![tactic(auto)]

ghost use Rattle.st_replay.specs.VolumeRuns.{EveryScheduleRunsInTheVolume};
ghost use Rattle.st_runs.specs.Safe.{EveryScheduleRunsSafely};

mod fault;
mod last_lines;
mod lines;
mod pieces;
mod play;
mod player;
mod report_end;
mod sinks;
mod source;

pub use fault::ReplayFault;
pub use source::replay;
pub use st_generate_run::{WorkFault, generate, put_work, work};
pub use st_laws_safe::all_is_promised;
pub use st_rules::Summary;
pub use st_runs::LineRefusal;
pub use st_world::World;

/// Every schedule runs safely: if its first line is read as a head, its replay is that of the
/// run of the events after that head, from the head's world, and each step of this run keeps every
/// promise. Nothing is owed: the reader lets no other head and no other event through than those of
/// which the promises speak.
pub fn schedules_run_safely()
    ensures { EveryScheduleRunsSafely }
{}

/// Every schedule runs in the volume: if its first line is read as a head, the run of the events
/// after that head, up to the first that is refused, is a run of the volume. What applications see
/// of it is what they see of one sequential file system. `docs/PROTOCOL.md`, "The volume".
pub fn schedules_run_in_the_volume()
    ensures { EveryScheduleRunsInTheVolume }
{}
