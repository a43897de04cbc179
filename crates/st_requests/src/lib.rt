//! A client's requests to a server: their numbers, and the one that was sent and not answered yet.
//! `docs/PROTOCOL.md`, "Requests", has the rules.
#![tactic(auto)]

mod outstanding_request;
mod requests;

pub use requests::{Reply, Requests};
pub use st_base::{ClientId, Epoch, Life, ServerId, Stamp};
pub use st_messages::{Body, Message};
