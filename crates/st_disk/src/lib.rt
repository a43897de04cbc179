//! Shared disks: blocks with their tags, and the commands that read and write them.
//! `docs/PROTOCOL.md`, "Disks", has the rules.
#![tactic(auto)]

mod blocks;
mod commands;
mod disks;
mod kept;
mod refusal;

pub use commands::CommandState;
pub use disks::Disks;
pub use refusal::DiskRefusal;
pub use st_base::{BlockAt, Command, Tag};
pub use st_rules::{Block, DiskCommand, Report};
