//! The parts of a world: the clocks and the lives that ended, the disk commands with who issued
//! each, and the network. `docs/PROTOCOL.md`, "The world", has the rules.
#![tactic(auto)]

mod clocks;
mod commands;
mod counts;
mod cuts;
mod firsts;
mod issued_row;
mod lease_ends;
mod lives;
mod network;
mod outstanding;
mod owners;
mod places;
mod reached_ends;
mod refusals;
mod spares;

pub use commands::Commands;
pub use counts::{Sort, count_of};
pub use firsts::LifeKey;
pub use lease_ends::Ending;
pub use lives::Lives;
pub use network::Network;
pub use owners::OwnerKey;
pub use places::{MessageEnds, SentPlace};
pub use refusals::{is_done, is_told, late_at, stands};
pub use st_disk::CommandState;
