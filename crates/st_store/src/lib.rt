//! A store of bytes that may crash, and one in memory. `docs/PROTOCOL.md`, "A metadata journal",
//! has the rules.
#![tactic(auto)]

mod contents;
mod history;
mod memory;
mod plan;
mod store;

pub use history::{Piece, StoreCall};
pub use memory::MemoryStore;
pub use store::Store;
