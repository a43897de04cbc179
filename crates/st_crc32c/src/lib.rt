//! CRC-32C, the checksum of storage protocols (Castagnoli's polynomial), and what it is good for:
//! it always shows that one byte has changed.
#![tactic(auto)]

mod crc;
mod law;

pub use crc::{after, crc32c};
pub use law::{another_byte_is_told, known_sums};
