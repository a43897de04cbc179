//! Frames of a node's own surroundings, for the program around it: asks, ticks and ends of disk
//! commands from plain structs, and answers and disk commands to plain structs. `docs/PROTOCOL.md`,
//! "Building on it", says what the program does with them.
#![tactic(auto)]

mod answer;
mod answer_rows;
mod ask;
mod ask_fields;
mod command;
mod done;
mod fault;
mod frame;
mod front;
mod law;
mod page_room;
mod tag;
mod written;

pub use answer::{TankAnswer, decode_answer};
pub use answer_rows::{TankEntry, TankLostPage, decode_entries, decode_lost_pages};
pub use ask::encode_ask;
pub use ask_fields::TankAsk;
pub use command::{TankCommand, decode_command};
pub use done::{TankDone, encode_done, encode_tick};
pub use fault::{FrameFault, HostFault};
pub use frame::read_frame;
pub use front::{TankFrame, front_of};
pub use law::{frames_are_received, fronts_are_of_messages};
pub use tag::TankTag;
