//! On which block of its server's disks each page of a file lies, and under which birth.
//! `docs/PROTOCOL.md`, "Extents".
#![tactic(auto)]

mod extents;
mod free_runs;
mod layout;
mod mapping;
mod refusal;
mod restored;
mod run_map;
mod runs;
mod taken_blocks;

pub use extents::Extents;
pub use refusal::ExtentRefusal;
pub use restored::RestoreRefusal;
pub use run_map::{Run, RunKey};
pub use st_rules::Extent;
