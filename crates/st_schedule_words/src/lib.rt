//! The words of a line and their values: numbers, nodes, files and names; and the lines of some
//! bytes. `docs/PROTOCOL.md`, "Schedules".
#![tactic(auto)]

mod lines;
mod word_values;

pub use lines::take_line;
pub use word_values::{
    MOST_NUMBER, client_word, file_word, in_range, is, is_long, is_name, is_number, node_of,
    split_word,
};
