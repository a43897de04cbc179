//! Shared writing without caches: one file that several clients read and write at once, each read
//! and each write by a disk command of its own. `docs/PROTOCOL.md`, "Shared writing without
//! caches", has the rules.
#![tactic(auto)]

mod answer;
mod commands;
mod file;
mod issuers;
mod law;
mod members;
mod refusal;
mod rows;
mod state;

pub use answer::SharedAnswer;
pub use file::SharedFile;
pub use issuers::Issuer;
pub use law::every_history_is_right;
pub use members::Member;
pub use refusal::SharedRefusal;
pub use st_base::{ClientId, PageBytes, PageNo};
pub use st_disk::DiskRefusal;
