//! A journal's file while a server runs: records wait and are kept in groups; a snapshot in the
//! other area takes their place when the area is half full. The program around it writes and syncs
//! what it is told, in the order that the law about the file's histories requires.
#![tactic(auto)]

mod keeper;
mod law;
mod task;

pub use keeper::JournalKeeper;
pub use law::a_keeper_keeps_the_file;
pub use task::{KeepFault, Task, Write};
