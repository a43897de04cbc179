//! A server whose changes are kept in groups in the file of a journal. Steps go on while changes
//! wait; what a step gave is taken once its change is kept.
#![tactic(auto)]

mod checks;
mod records;
mod server;

pub use server::KeptServer;
pub use st_kept_histories::{KeptFault, KeptRefusal, Stage};
pub use st_kept_journal::Write;
pub use st_kept_opening::Identity;
pub use st_messages::Outputs;
