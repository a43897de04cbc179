// How much a server has.
ghost use Rattle.std.specs.Prelude.{◌≡◌};
ghost use Rattle.st_server.specs.Counts.{counts_of};

use crate::turn::ServerTurn;

/// How much a server has: the clients with a session in this epoch; the locks and the waits of all
/// clients; the suspects; the entries of all directories; the mapped pages, and the free blocks of
/// its disks.
#[derive(Clone, Copy, Debug, PartialEq, Eq)]
pub struct ServerCounts {
    pub sessions: u64,
    pub locks: u64,
    pub waits: u64,
    pub suspects: u64,
    pub names: u64,
    pub mapped: u64,
    pub free: u64,
}

impl ServerTurn {
    /// How much the server has.
    pub(crate) fn counts(&self) -> ServerCounts
        ensures { result ≡ counts_of self.now.state }
    {
        ServerCounts {
            sessions: self.sessions.len() as u64,
            locks: self.locks.row_count() as u64,
            waits: self.locks.wait_count() as u64,
            suspects: self.authority.len() as u64,
            names: u64::from(self.stable.names.entries()),
            mapped: u64::from(self.stable.extents.mapped()),
            free: u64::from(self.stable.extents.free()),
        }
    }
}
