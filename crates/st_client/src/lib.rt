//! The client of a world: its rules at each server, and the node that runs or is crashed.
//! `docs/PROTOCOL.md`, "The client", has the rules.
#![tactic(auto)]

mod counts;
mod ends;
mod fresh_client;
mod lives;
mod node;
mod parts;
mod rule;
mod rules;
mod state;
mod step;
mod turn;
mod views;

pub use counts::ClientCounts;
pub use ends::LeaseEnds;
pub use node::ClientNode;
pub use st_base::{LostRow, LostRows, NameAsk, NameRow, NameRows};
pub use st_messages::{AppAnswer, Ask, NameOp, Note, Output, Outputs, StepFault};
pub use st_rules::{ClientInput, Phase};
pub use state::ClientState;
pub use turn::ClientTurn;
