//! A server that tells what each step changes in its stable part, so that the change can be kept in
//! a journal before the step's messages are sent. `docs/PROTOCOL.md`, "A metadata journal", has the
//! rules.
#![tactic(auto)]

mod durable;

pub use durable::DurableServer;
pub use st_journal::Change;
pub use st_messages::{Outputs, StepFault};
pub use st_rules::ServerInput;
pub use st_server::{ServerNode, ServerStable};
