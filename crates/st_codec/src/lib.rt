//! The bytes that spell the messages of `st_messages`, both ways, and frames. `docs/PROTOCOL.md`,
//! "Wire", has the tables.
#![tactic(auto)]

mod decoder;
mod encoder;
mod frames;
mod kind_bytes;
mod law;
mod local_decoder;
mod local_encoder;
mod refusal;

pub use decoder::decode;
pub use encoder::{encode, put_message};
pub use frames::{FrameReader, Front, front_of};
pub use law::{bytes_that_follow, fits_a_frame, frames_in_any_pieces, one_spelling, spelled_size};
pub use refusal::CodecRefusal;
pub use st_messages::{
    AppAnswer, Ask, Body, Counts, DiskResult, Event, Header, Kind, Message, NameOp, NameReply,
    Need, Note, Output, Outputs, Party, PatchBytes, StepFault, Steps, Why,
};
