//! The scripts of containers: of those that move from one server to another, and of images of one.
//! `docs/PROTOCOL.md`, "Scripts".
#![tactic(auto)]

mod move_event;
mod move_script;
mod snap_event;
mod snap_script;

pub use move_script::move_containers;
pub use snap_event::SnapEvent;
pub use snap_script::snap;
