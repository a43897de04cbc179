//! The runs of schedules: which run the lines of a schedule describe, its report, and what it means
//! that it is safe. `docs/PROTOCOL.md`, "Schedules", "The report" and "What is promised".
#![tactic(auto)]

ghost use Rattle.std.specs.Prelude.{◌≡◌, List};
ghost use Rattle.st_messages.specs.declared.event.Event.{Event};
ghost use Rattle.st_rules.specs.Report.{opening, report};
ghost use Rattle.st_rules.specs.Run.{run};
ghost use Rattle.st_rules.specs.World.{World};
ghost use Rattle.st_runs.specs.Replay.{behind, replay_from, text};
ghost use Rattle.st_runs.specs.Schedule.{Whole};

mod fault;

pub use fault::LineRefusal;

/// The report of a schedule whose lines are all read is the report of the run of its events.
pub fn reports_are_those_of_runs()
    ensures { (es : List Event) (w : World) → text (behind opening (replay_from 1 w (record { events = es; ending = Whole }))) ≡ report (run es w) }
{}
