//! The directories of a server, and their entries. `docs/PROTOCOL.md`, "Names".
#![tactic(auto)]

mod entries;
mod listing;
mod name_bytes;
mod names;
mod restored;

pub use names::Names;
pub use restored::RestoreRefusal;
pub use st_base::{Name, NameRefusal, NameRow};
pub use st_rules::NameEntry;
