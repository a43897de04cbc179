//! The bytes that spell the messages of version 3, both ways. `docs/PROTOCOL.md`, "Messages of
//! version 3", has what differs from version 1. Bodies that version 1 or 2 has too are those of
//! `st_codec`.
#![tactic(auto)]

mod decoder;
mod encoder;
mod kind_bytes;
mod law;
mod plain_body;
mod row;

pub use decoder::decode;
pub use encoder::{encode, put_message};
pub use law::{bytes_that_follow, fits_a_frame, one_spelling, versions_are_apart};
pub use st_codec::CodecRefusal;
pub use st_third::ThirdMessage;
