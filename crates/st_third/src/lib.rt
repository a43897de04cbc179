//! The third form: its limits, and what its clients, servers and worlds have beside those of the
//! first two forms. `specs/` states its rules over the words of `st_rules`; docs/PROTOCOL.md tells
//! them in "The third form".
#![tactic(auto)]

mod beside;
mod event;
mod limits;
mod message;
mod observation;
mod output;

pub use beside::{Leave, OwedUse};
pub use event::{ThirdEvent, ThirdInput};
pub use limits::Limits;
pub use message::ThirdMessage;
pub use observation::ThirdObservation;
pub use output::ThirdOutput;
