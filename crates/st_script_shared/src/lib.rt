//! The scripts of a file that several clients share without caches. `docs/PROTOCOL.md`, "Scripts".
#![tactic(auto)]

mod shared_answers;
mod shared_event;
mod shared_script;

pub use shared_event::{ClientAct, SharedEvent, SharedHead};
pub use shared_script::{every_script_is_right, shared};
