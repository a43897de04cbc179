//! Scripts: a command reads the lines of a script from a source, plays its events one after
//! another, and writes their answers to a sink. `docs/PROTOCOL.md`, "Scripts".
#![tactic(auto)]

mod answers;
mod fault;
mod lines;
mod pieces;
mod play;
mod runner;
mod script;

pub use answers::{begin_answer, end_answer, put_answer};
pub use fault::ScriptFault;
pub use runner::{run, run_headed};
pub use script::Script;
