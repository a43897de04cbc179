//! The text of a report: each observation, each refusal of the world and the last line, appended to
//! a buffer of bytes. The texts are those of `st_rules/specs/Report.antt`; `docs/PROTOCOL.md`, "The
//! report", shows them.
#![tactic(auto)]

mod answers;
mod bodies;
mod commands;
mod last_line;
mod messages;
mod names;
mod observations;
mod refusals;
mod runs;
mod words;

pub use last_line::put_ended;
pub use observations::{put_lines, put_opening};
pub use refusals::{put_refusal, put_refused};
pub use runs::put_page;
pub use words::{put_field, put_number, put_text};
