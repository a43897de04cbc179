//! The top call of the program: the words, the replay, generated schedules, a node over a stream,
//! the status, and what the error sink gets. `docs/PROTOCOL.md`, "The program", has the rules.
#![tactic(auto)]

mod node_ends;
mod node_service;
mod node_words;
mod program;
mod words;

pub use program::run;
