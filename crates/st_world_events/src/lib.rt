//! What each event does to a world: its clocks, clients and servers, the network, the disks and the
//! log. `docs/PROTOCOL.md`, "The world", has the rules.
#![tactic(auto)]

mod advances;
mod answers;
mod asks;
mod changes;
mod client;
mod crashes;
mod dispatch;
mod events;
mod flushes;
mod index;
mod lease_ends;
mod node_steps;
mod notes;
mod outputs;
mod summary;
mod turn;

pub use client::WorldClient;
pub use events::node_of_number;
pub use turn::{WorldTurn, node_at, site_at};
