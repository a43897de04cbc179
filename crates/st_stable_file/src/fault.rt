use st_snapshot::SnapshotFault;
use thiserror::Error;

/// Why an area is not opened. A place is counted from the first byte of the area.
#[derive(Clone, Copy, Debug, PartialEq, Eq, Error)]
pub enum StableFault {
    /// The snapshot is none of a stable part.
    #[error("{0}")]
    Snapshot(SnapshotFault),
    /// Neither a closed gate nor a record after an open one is there, or the record isn't a change
    /// that applies.
    #[error("the journal is damaged at {at}")]
    Damaged { at: u64 },
    #[error("out of memory")]
    Memory,
}
