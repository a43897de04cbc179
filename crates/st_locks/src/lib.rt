//! The lock table of a server: who has a lock of which file, who waits, and what is demanded of
//! whom, with a note of the files that its passes have to look at. `docs/PROTOCOL.md`, "Locks", has
//! the rules.
#![tactic(auto)]

mod demands;
mod lock_table;
mod parts;
mod touched_files;
mod wake_times;

pub use lock_table::LockTable;
pub use st_lock_tables::{LockRefusal, Sent, Unanswered};
pub use st_rules::{LockRow, RowDemand, Verdict, Waiter};
