//! A server whose changes are kept in groups in the file of a journal: what each of its calls
//! leaves, as definitions, and a law. Each call, with the write or the sync that the program does
//! then, is a move of the file's histories.
#![tactic(auto)]

mod fault;
mod law;
mod stage;

pub use fault::{KeptFault, KeptRefusal};
pub use law::a_kept_server_outlives_crashes;
pub use stage::Stage;
