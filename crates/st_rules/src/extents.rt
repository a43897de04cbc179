use st_base::{BlockAt, FileId, PageNo};

/// The block on which a page of a file lies. The birth tells this mapping from every other mapping
/// of its server.
#[derive(Clone, Copy, Debug, PartialEq, Eq)]
pub struct Extent {
    pub file: FileId,
    pub page: PageNo,
    pub at: BlockAt,
    pub birth: u64,
}

/// Why pages are not mapped.
#[derive(Clone, Copy, Debug, PartialEq, Eq)]
pub enum AllocateRefusal {
    /// The number of free blocks, and the number of pages that need one.
    NoSpace { free: u64, asked: u64 },
}
