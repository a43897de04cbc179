use st_extents::RestoreRefusal as ExtentsRefusal;
use st_namespace::RestoreRefusal as NamesRefusal;
use thiserror::Error;

/// Why bytes are not read as a snapshot, in the order of the checks. A place is counted from the
/// first byte.
#[derive(Clone, Copy, Debug, PartialEq, Eq, Error)]
pub enum SnapshotFault {
    #[error("the snapshot is shorter than its counters")]
    NoCounters,
    #[error("the snapshot has no entry at {at}")]
    NoEntry { at: u64 },
    #[error("the snapshot has no mapped page at {at}")]
    NoPage { at: u64 },
    #[error("the snapshot ends at {at}, and more bytes follow")]
    Longer { at: u64 },
    #[error("the entries of the snapshot are not those of a server")]
    Names(NamesRefusal),
    #[error("the mapped pages of the snapshot are not those of a server")]
    Extents(ExtentsRefusal),
    #[error("out of memory")]
    Memory,
}
