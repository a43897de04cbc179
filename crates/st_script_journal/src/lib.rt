//! The scripts of a journal: what their lines spell, what each event makes of the journal and its
//! store, and what it is answered. `docs/PROTOCOL.md`, "Scripts".
#![tactic(auto)]

mod journal_event;
mod journal_run;
mod journal_script;
mod journal_text;

pub use journal_event::{JournalEvent, RangedChange, SetStop};
pub use journal_script::journal;
pub use st_journal::MemoryStore;
