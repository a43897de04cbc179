//! Snapshots: a server's stable part as bytes, which are read back as they were written.
//! `docs/PROTOCOL.md`, "A metadata journal", has what the stable part is.
#![tactic(auto)]

mod counters;
mod entry;
mod fault;
mod page;
mod snapshot;

pub use fault::SnapshotFault;
pub use snapshot::{read_snapshot, snapshot_of};
pub use st_journal::Stable;
