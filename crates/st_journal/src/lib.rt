//! A journal of the changes to a server's stable part, over a store that may crash.
//! `docs/PROTOCOL.md`, "A metadata journal", has the rules.
#![tactic(auto)]

mod change;
mod decoder;
mod fault;
mod journal;
mod laws;
mod record;
mod scan;
mod stable;

pub use change::Change;
pub use decoder::decode;
pub use fault::JournalFault;
pub use journal::Journal;
pub use laws::{
    a_stop_keeps_by_its_byte, appends_survive_crashes, bytes_have_one_journal,
    zeros_are_an_empty_journal,
};
pub use record::record_of;
pub use scan::Scanned;
pub use st_link::Failed;
pub use st_store::{MemoryStore, Piece, Store, StoreCall};
pub use stable::{ChangeRefusal, Stable};
