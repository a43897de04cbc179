//! The text of a schedule: its lines are read with exact refusals, and events are printed back.
#![tactic(auto)]

mod ask_line;
mod event_line;
mod fault;
mod head;
mod law;
mod next_word;
mod printer;
mod reader;
mod verb;

pub use fault::{Fault, ReadError, ScheduleRefusal};
pub use law::{
    lines_are_read_as_they_are_spelled, printed_lines_are_read_back, what_is_read_is_spelled_so,
    what_spells_an_event_is_read_so, words_spell_one_event,
};
pub use next_word::{ends, name_at, number_at, result_at, unknown_word, word_at};
pub use printer::{print, put_line};
pub use reader::{Line, Progress, ScheduleReader};
pub use st_messages::{Counts, Event, Steps};
pub use st_schedule_words::{is_long, split_word, take_line};
