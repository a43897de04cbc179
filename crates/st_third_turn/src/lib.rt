//! A step of a client of the third form at one server: a step of the first two forms, and what is
//! beside it. `docs/PROTOCOL.md`, "The third form", has the rules.
#![tactic(auto)]

mod activity;
mod aside;
mod beside;
mod greeting;
mod opening;
mod owed_uses;
mod owing;
mod step;
mod words;

pub use activity::is_active;
pub use aside::Aside;
pub use beside::Beside;
pub use step::{SessionStep, Step};
pub use words::Word;
