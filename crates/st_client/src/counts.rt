// How much a client has of a server, and whether one of its operations waits for a grant of a file.
ghost use Rattle.std.specs.Prelude.{◌≡◌, None, Some};
ghost use Rattle.st_client.specs.Counts.{counts_at, counts_with, is_awaited_with};

use crate::state::ClientState;
use st_base::ServerId;
use st_client_association::Association;
use st_operations::OfServer;

/// How much a client has of a server: the files with a lock, and those with a wait that was
/// reported; the dirty and the clean pages; the outstanding disk commands; and the pending
/// operations.
#[derive(Clone, Copy, Debug, PartialEq, Eq)]
pub struct ClientCounts {
    pub locks: u64,
    pub waits: u64,
    pub dirty: u64,
    pub clean: u64,
    pub commands: u64,
    pub pending: u64,
}

impl ClientCounts {
    /// Nothing of a server but these operations.
    pub(crate) fn without(pending: u64) -> ClientCounts
        ensures { result ≡ counts_at None pending }
    {
        ClientCounts {
            locks: 0,
            waits: 0,
            dirty: 0,
            clean: 0,
            commands: 0,
            pending,
        }
    }

    /// What an association has, and these operations.
    fn of(a: &Association, pending: u64) -> ClientCounts
        ensures { result ≡ counts_at (Some a.now.here) pending }
    {
        ClientCounts {
            locks: a.lock_count() as u64,
            waits: a.wait_count() as u64,
            dirty: a.dirty_count() as u64,
            clean: a.clean_count() as u64,
            commands: a.command_count() as u64,
            pending,
        }
    }
}

impl ClientState {
    /// How much the client has of a server.
    pub(crate) fn counts(&self, server: ServerId) -> ClientCounts
        ensures { result ≡ counts_with self.now server }
    {
        let pending = self.parts.operations.count(&OfServer { server }) as u64;
        match self.at(server) {
            Some(a) => ClientCounts::of(a, pending),
            None => ClientCounts::without(pending),
        }
    }

    /// Whether an operation waits for a grant of the file, or for what else it needs with the lock
    /// that is held.
    pub(crate) fn is_awaited(&self, server: ServerId, ino: u32) -> bool
        ensures { result ≡ is_awaited_with self.now server ino }
    {
        match self.at(server) {
            Some(a) => a.is_awaited(&self.parts.operations, server, ino),
            None => false,
        }
    }
}
