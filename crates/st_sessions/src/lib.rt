//! Sessions: which life of each client a server serves in this epoch, and up to which request.
//! `docs/PROTOCOL.md`, "Sessions", has the rules.
#![tactic(auto)]

mod greeting;
mod requests;
mod seats;
mod sessions;
mod table;

pub use sessions::Sessions;
pub use st_base::{ClientId, Epoch, Life};
pub use st_rules::{Hello, Session, SessionState, Taken};
