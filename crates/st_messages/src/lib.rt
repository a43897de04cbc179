//! The messages of the protocol, with the ranges of their fields and their sizes, and the events of
//! a world. `docs/PROTOCOL.md`, "Wire" and "Schedules", says what each stands for. The bytes that
//! spell a message are `st_codec`'s.
#![tactic(auto)]

mod answer;
mod ask;
mod event;
mod field_ranges;
mod kind;
mod message;
mod output;
mod patch;
pub mod range;
pub mod row;

pub use answer::AppAnswer;
pub use ask::Ask;
pub use event::{Counts, Event, Steps};
pub use kind::{Kind, Need, Party};
pub use message::{Body, DiskResult, Header, Message, NameOp, NameReply, Why};
pub use output::{Note, Output, Outputs, StepFault};
pub use patch::PatchBytes;
