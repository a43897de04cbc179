//! A client's association with one server, and a step at it. `docs/PROTOCOL.md`, "The client", has
//! the rules.
#![tactic(auto)]

mod association;
mod busy_files;
mod command_ends;
mod counts;
mod dirty_row;
mod disks;
mod lease_loss;
mod outputs;
mod pending_operations;
mod readers;
mod session_turn;
mod sessions;
mod stores;
mod turn;
mod turn_view;

pub use association::Association;
pub use busy_files::{is_busy, is_open};
pub use dirty_row::DirtyRow;
pub use session_turn::SessionTurn;
pub use turn::Turn;
pub use turn_view::TurnView;
