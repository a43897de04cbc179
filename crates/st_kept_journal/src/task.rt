use thiserror::Error;

/// What is under way with a journal's file.
#[derive(Clone, Copy, Debug, PartialEq, Eq)]
pub enum Task {
    /// Nothing.
    Rest,
    /// This many bytes of records are written as a group.
    Group { count: u64 },
    /// A snapshot with this many bytes of records is written, with its closed gate at this place of
    /// the other area.
    Switch { count: u64, gate: u64 },
}

/// Bytes that the program writes at a place of the file.
#[derive(Drop)]
pub struct Write {
    pub at: u64,
    pub bytes: Vec<u8>,
}

/// Why a record doesn't wait, or a snapshot is not written. Nothing is changed.
#[derive(Clone, Copy, Debug, PartialEq, Eq, Error)]
pub enum KeepFault {
    #[error("the area has too little room")]
    Full,
    #[error("out of memory")]
    Memory,
}
