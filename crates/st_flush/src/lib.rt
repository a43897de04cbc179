//! The outstanding disk commands of a client for one server's files.
//! `docs/PROTOCOL.md`, "Leases, locks, pages and commands", has the rules.
#![tactic(auto)]

mod flusher;
mod picks;

pub use flusher::Flusher;
pub use st_base::{PageNo, ServerId};
pub use st_lease_client::{CommandLoss, CommandsGone, DrainPermit, Receipt, SubmitPermit};
pub use st_rules::{Ended, IoKind, PageCommand};
