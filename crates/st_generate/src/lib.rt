//! Generated schedules: the definition of their events and text, and what is promised about them,
//! over all lengths and seeds.
#![tactic(auto)]

ghost use Rattle.st_generate.specs.Law.{Begins_with_a_head, Each_has_a_line, Each_is_admissible, Each_is_in_range, Has_length, Head_has_a_line, Is_reported_whole, Runs_to_the_end, Sent_is_bounded};

/// A generated schedule has as many events as were asked for, and begins with a head of schedules.
pub fn schedules_are_long_enough()
    ensures length { Has_length }
    ensures head { Begins_with_a_head }
{}

/// Each event of a generated schedule is admissible in the run so far (`admissible`) and in its
/// ranges (`range`).
pub fn events_are_admissible()
    ensures admissible { Each_is_admissible }
    ensures range { Each_is_in_range }
{}

/// The run of a generated schedule reaches its end (`end`), and its report has no refusal: its last
/// line is what `work` writes (`told`).
pub fn runs_come_to_the_end()
    ensures end { Runs_to_the_end }
    ensures told { Is_reported_whole }
{}

/// The head has a line (`head`), and so has each event, if at most 4,294,967,295 messages were
/// sent and as many commands submitted (`events`).
pub fn events_have_lines()
    ensures head { Head_has_a_line }
    ensures events { Each_has_a_line }
{}

/// A run sends at most 14,128,181 messages, and as many as one of its events sends at most.
pub fn messages_are_few()
    ensures { Sent_is_bounded }
{}
