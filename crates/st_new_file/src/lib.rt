//! The file of a journal as it is made: what is written at its beginning, and the law that this
//! begins the file's histories.
#![tactic(auto)]

mod file;
mod law;

pub use file::new_file;
pub use law::new_files_begin_histories;
pub use st_journal_bytes::{Header, Identity, MADE_PLACE};
pub use st_kept_journal::KeepFault;
pub use st_stable_file::Stable;
