//! The flat log: every write, patch and cut that was accepted, with its fate. Every read is
//! measured against it. `docs/PROTOCOL.md`, "The flat log".
#![tactic(auto)]

mod client_pages;
mod file_pages;
mod log;
mod marking;
mod marks;
mod pages;

pub use client_pages::ClientPage;
pub use file_pages::{FilePage, Places};
pub use log::FlatLog;
pub use marking::{Crashing, Hardening, Losing, Marking, Spare};
pub use st_rules::{Cause, Change, EntryHead, Fate, LogEntry, LogOwner};
