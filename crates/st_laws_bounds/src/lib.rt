//! Bounds on every counter of a run by the number of its events, and on generated schedules.
#![tactic(auto)]

ghost use Rattle.st_laws_bounds.specs.Counters.Counts.{ClientsFew, LocksFew, ReadsFew, ServersFew, TheftsFew};
ghost use Rattle.st_laws_bounds.specs.Counters.Rises.{ClientsWithin, FreshClientsBegin, StepsRaiseLittle};
ghost use Rattle.st_laws_bounds.specs.Counters.ReachedWorlds.{InEveryReached};
ghost use Rattle.st_laws_bounds.specs.FewMessages.Few.{EventsHaveLines, RunsAreFew};
ghost use Rattle.st_laws_bounds.specs.Generated.ReadBack.{HeadIsRead, TextIsRead, TextIsReplayed, TextIsReported};

use st_generate::{
    events_have_lines, messages_are_few, runs_come_to_the_end, schedules_are_long_enough,
};
use st_runs::reports_are_those_of_runs;

/// In every reached world no client has more asks or starts than there were events, and its
/// counters of commands, versions, lives and requests are no further than the world's commands, log
/// entries, ended lives and messages.
pub fn clients_count_few()
    ensures { InEveryReached ClientsFew }
{}

/// In every reached world a server has at most one epoch and one inode more than at the start for
/// each event, and for each event at most as many births as eight disks have blocks.
pub fn servers_count_few()
    ensures { InEveryReached ServersFew }
{}

/// In every reached world the grants of a server's epoch, and the waits that may still become
/// grants, are at most 2^29.
pub fn locks_are_few()
    ensures { InEveryReached LocksFew }
{}

/// In every reached world no more reads were answered than there were events.
pub fn reads_are_few()
    ensures { InEveryReached ReadsFew }
{}

/// In every reached world there were at most sixteen thefts for each event.
pub fn thefts_are_few()
    ensures { InEveryReached TheftsFew }
{}

/// A step raises no counter of a client by more than 2^15, whatever its input is: those of its
/// commands, and of its page versions, lives and requests at each server (`steps`). The counters of
/// a fresh client are 1 (`fresh`).
pub fn client_steps_raise_little()
    ensures steps { StepsRaiseLittle }
    ensures fresh { FreshClientsBegin }
{}

/// In every reached world the counters of each client are within 1 and 2^15 for each event.
pub fn clients_stay_within()
    ensures { InEveryReached ClientsWithin }
{}

/// The run of a generated schedule of at most 100,000 events sends at most 4,294,967,295 messages
/// and submits at most as many commands.
pub fn runs_are_few()
    ensures { RunsAreFew }
{
    schedules_are_long_enough();
    messages_are_few();
}

/// Each event of a generated schedule of at most 100,000 events has a line.
pub fn generated_events_have_lines()
    ensures { EventsHaveLines }
{
    events_have_lines();
    runs_are_few();
}

/// The reader reads the first line of a generated schedule as its head (`head`), and the whole text
/// as the events, to the end, if at most 100,000 events were asked for (`text`).
pub fn texts_are_read_back()
    ensures head { HeadIsRead }
    ensures text { TextIsRead }
{
    events_have_lines();
    generated_events_have_lines();
    schedules_are_long_enough();
}

/// If at most 100,000 events were asked for, the replay of a generated text refuses no line and
/// goes through the end (`end`), and its report is that of the run of the events (`report`).
pub fn texts_are_replayed()
    ensures end { TextIsReplayed }
    ensures report { TextIsReported }
{
    events_have_lines();
    generated_events_have_lines();
    schedules_are_long_enough();
    runs_come_to_the_end();
    reports_are_those_of_runs();
}
