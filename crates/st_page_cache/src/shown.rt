use st_base::PageBytes;

/// What a read of a page finds.
#[derive(Clone, Copy)]
pub enum Page<'a> {
    Hit(&'a PageBytes),
    /// The page is neither dirty nor clean.
    Miss,
}

/// A dirty page: its bytes, the version of its last change, and the last command for these bytes
/// that failed.
#[derive(Clone, Copy)]
pub struct Dirty<'a> {
    pub bytes: &'a PageBytes,
    pub version: u64,
    pub failed: Option<u64>,
}
