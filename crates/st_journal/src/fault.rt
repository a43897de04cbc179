use thiserror::Error;

/// Why a journal is not opened, or a change not appended.
#[derive(Clone, Copy, Debug, PartialEq, Eq, Error)]
pub enum JournalFault {
    #[error("no change that applies lies behind the open gate at {at}")]
    Damaged { at: u64 },
    #[error("{free} bytes are free, and a change takes {asked}")]
    Full { free: u64, asked: u64 },
    #[error("the store failed")]
    Store,
    #[error("the store failed earlier")]
    Broken,
    #[error("out of memory")]
    Memory,
}
