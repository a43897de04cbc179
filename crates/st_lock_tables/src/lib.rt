//! The lock table of a server as the rules say it: rows, waits, and the demands that wait for an
//! answer. `docs/PROTOCOL.md`, "Locks", has the rules. Each call leaves the table that the
//! definition of its rule gives.
#![tactic(auto)]

mod due;
mod installation;
mod passes;
mod refusal;
mod release;
mod rows;
mod table;
mod unanswered;

pub use passes::{Pass, Sent};
pub use refusal::LockRefusal;
pub use table::PlainTable;
pub use unanswered::{Unanswered, passed};
