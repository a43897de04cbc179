//! The server of a world: its rules over the parts, and the node that runs or is crashed.
//! `docs/PROTOCOL.md` has the rules.
#![tactic(auto)]

mod counts;
mod due;
mod greetings;
mod lock_requests;
mod name_requests;
mod node;
mod outputs;
mod page_requests;
mod passes;
mod reassertions;
mod requests;
mod restart;
mod stable;
mod step;
mod suspicion;
mod turn;

pub use counts::ServerCounts;
pub use node::{ServerNode, answers_are_named};
pub use st_messages::{Note, Output, Outputs, StepFault};
pub use st_rules::ServerInput;
pub use stable::ServerStable;
