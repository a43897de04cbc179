//! The fields of messages as bytes, both ways: numbers, places, names, rows, and what is asked of
//! names. `docs/PROTOCOL.md`, "Wire".
#![tactic(auto)]

mod fault;
mod field;
mod field_encoder;
mod name_decoder;
mod name_encoder;
mod row;

pub use fault::{Fault, ReadError};
pub use field::{
    out_of_range, read_any_block, read_byte, read_file, read_grant, read_ino, read_mode, read_page,
    read_patch_bytes, read_tag, read_whole_page, read_word16, read_word16_in, read_word32,
    read_word64,
};
pub use field_encoder::{
    put_block, put_byte, put_file, put_grant, put_mode, put_tag, put_word16, put_word32, put_word64,
};
pub use name_decoder::{read_name_ask, read_name_op, read_name_reply};
pub use name_encoder::{put_name_ask, put_name_op, put_name_reply};
pub use row::{
    put_extents, put_locks, put_lost, put_names, read_extents, read_locks, read_lost, read_names,
};
