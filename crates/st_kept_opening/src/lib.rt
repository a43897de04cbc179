//! A server that is opened on the bytes of its journal's file, in its next epoch.
#![tactic(auto)]

mod begun;
mod opening;
mod told;

pub use opening::{Opening, open_server};
pub use st_durable::DurableServer;
pub use st_journal_bytes::Identity;
pub use st_kept_histories::KeptFault;
pub use st_kept_journal::JournalKeeper;
