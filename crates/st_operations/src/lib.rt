//! The operations of a client: what its applications asked and haven't been answered yet, in the
//! order in which they asked. `docs/PROTOCOL.md`, "The client", has the rules.
#![tactic(auto)]

mod asks;
mod operations;
mod picks;
mod stages;

pub use asks::{file_of, is_cut_or_name, is_file, is_of, is_sent, is_sync, server_of};
pub use operations::Operations;
pub use picks::{
    Awaiting, ChangesPage, CutOn, OfServer, OnFile, ReadsPage, RequestingOperation, SentOn, SyncOn,
    WorksOn,
};
pub use st_rules::{LockWait, Operation, Release, Stage};
pub use st_tables::Test;
