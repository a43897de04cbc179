ghost use Rattle.std.specs.Prelude.{◌≡◌};
ghost use Rattle.st_base.specs.Nodes.{HasNode, server_node};

/// The number of a client, from 1.
#[derive(Clone, Copy, Debug, PartialEq, Eq, PartialOrd, Ord)]
pub struct ClientId(pub u16);

/// The number of a metadata server, from 1.
#[derive(Clone, Copy, Debug, PartialEq, Eq, PartialOrd, Ord)]
pub struct ServerId(pub u16);

impl ServerId {
    /// What is added to a server's own number to make its number as a node. Numbers below it are of
    /// clients.
    pub const BASE: u16 = 32_768;

    /// The number of the server as a node, as messages have it.
    pub fn node(self) -> u16
        requires { HasNode self }
        ensures { result ≡ server_node self }
    {
        ServerId::BASE + self.0
    }

    /// The number of the server as a node, whatever the server's own number is. It has sixteen bits
    /// if that is below 32,768.
    pub fn node_as_u32(self) -> u32
        ensures { result ≡ server_node self }
    {
        u32::from(ServerId::BASE) + u32::from(self.0)
    }
}

/// The number of a shared disk, from 1.
#[derive(Clone, Copy, Debug, PartialEq, Eq, PartialOrd, Ord)]
pub struct DiskId(pub u16);

/// A file: its server, and its inode number on that server.
#[derive(Clone, Copy, Debug, PartialEq, Eq, PartialOrd, Ord)]
pub struct FileId {
    pub server: ServerId,
    pub ino: u32,
}

/// The number of a page in its file, from 0 to 1,048,575.
#[derive(Clone, Copy, Debug, PartialEq, Eq, PartialOrd, Ord)]
pub struct PageNo(pub u32);

/// The number of a client's life at one server, from 1. A life ends when the lease expires or the
/// client crashes.
#[derive(Clone, Copy, Debug, PartialEq, Eq)]
pub struct Life(pub u64);

/// The number of a server's epoch, from 1. Each start of the server begins a new epoch.
#[derive(Clone, Copy, Debug, PartialEq, Eq)]
pub struct Epoch(pub u64);

/// The number of a grant. The grants of an epoch are numbered from `epoch * 2^32 + 1`.
#[derive(Clone, Copy, Debug, PartialEq, Eq)]
pub struct GrantNo(pub u64);

/// A reading of a clock, in ticks.
#[derive(Clone, Copy, Debug, PartialEq, Eq, PartialOrd, Ord)]
pub struct Stamp(pub u64);

/// A client or a server.
#[derive(Clone, Copy, Debug, PartialEq, Eq)]
pub enum NodeId {
    Client(ClientId),
    Server(ServerId),
}
