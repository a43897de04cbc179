//! The areas of a journal's file whose snapshots are of a server's stable part, and whose records
//! are its changes: what an area stands for is read.
#![tactic(auto)]

mod area;
mod change;
mod fault;
mod file;
mod law;
mod written;

pub use area::{ChangesEnd, OpenedArea, open_area};
pub use fault::StableFault;
pub use file::{OpenFault, OpenedFile, open_file};
pub use law::a_stable_file_outlives_crashes;
pub use st_journal::Stable;
pub use st_snapshot::SnapshotFault;
pub use written::{change_bytes, snapshot_bytes};
