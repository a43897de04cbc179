// How much the node of a handle has.

/// How much a client has of a server: the files with a lock, and those with a wait that was
/// reported; the dirty and the clean pages; the outstanding disk commands; and the pending
/// operations.
#[repr(C)]
#[derive(Clone, Copy)]
pub struct TankClientCounted {
    pub locks: u64,
    pub waits: u64,
    pub dirty: u64,
    pub clean: u64,
    pub commands: u64,
    pub pending: u64,
}

/// How much a server has: the clients with a session in this epoch; the locks and the waits of all
/// clients; the suspects; the entries of all directories; the mapped pages, and the free blocks;
/// the bytes of the records that are kept in its journal, and the bytes of the journal.
#[repr(C)]
#[derive(Clone, Copy)]
pub struct TankServerCounted {
    pub sessions: u64,
    pub locks: u64,
    pub waits: u64,
    pub suspects: u64,
    pub names: u64,
    pub mapped: u64,
    pub free: u64,
    pub journal: u64,
    pub journal_size: u64,
}
