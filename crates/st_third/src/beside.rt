use st_base::ServerId;

/// A pending leave of a server: the number of the ask. It is an operation among the client's
/// others, in the order of their numbers.
#[derive(Clone, Copy, Debug, PartialEq, Eq)]
pub struct Leave {
    pub op: u32,
    pub server: ServerId,
}

/// A file owes an operation a use of its lock: the inode, and the number of the ask.
#[derive(Clone, Copy, Debug, PartialEq, Eq)]
pub struct OwedUse {
    pub ino: u32,
    pub op: u32,
}
