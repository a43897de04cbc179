/// The limits of a world.
#[derive(Clone, Copy, Debug, PartialEq, Eq)]
pub struct Limits {
    /// How many inodes of a server may live, the root among them.
    pub inodes: u64,
    /// Of how many files of a server a client may have a row or a wait there; and how many locks of
    /// a server it may hold.
    pub locks: u64,
    /// How many pages of a server may be dirty at a client.
    pub dirty: u64,
    /// How many pages of a server may be clean at a client.
    pub clean: u64,
    /// How many operations of a client may be pending.
    pub operations: u64,
}
