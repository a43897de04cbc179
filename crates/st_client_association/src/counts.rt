// How much an association has of its server, and whether an operation waits for a lock of a file.
ghost use Rattle.std.specs.Prelude.{◌≡◌, length};
ghost use Rattle.st_client_association.specs.AwaitedGrants.{is_awaited, is_awaited_by};
ghost use Rattle.st_client_association.specs.Counts.{locks_in, waits_in};

use crate::association::Association;
use crate::busy_files::is_open;
use st_base::ServerId;
use st_client_session::Session;
use st_operations::{Awaiting, Operations};

/// Whether an operation on an open file waits for a lock, or for what else it needs with the one
/// that is held.
fn is_awaited(operations: &Operations, server: ServerId, session: &Session, ino: u32) -> bool
    ensures { result ≡ is_awaited operations.now server ino session.now.session }
{
    let mode = session.mode(ino);
    is_open(operations, server, session, ino) && operations.any(&Awaiting { server, ino, mode })
}

impl Association {
    /// The number of files with a lock.
    pub fn lock_count(&self) -> usize
        ensures { result ≡ locks_in self.now.here.session }
    {
        match &self.here.session {
            Some(session) => session.lock_count(),
            None => 0,
        }
    }

    /// The number of files with a wait that was reported.
    pub fn wait_count(&self) -> usize
        ensures { result ≡ waits_in self.now.here.session }
    {
        match &self.here.session {
            Some(session) => session.wait_count(),
            None => 0,
        }
    }

    /// How many pages are dirty.
    pub fn dirty_count(&self) -> usize
        ensures { result ≡ length self.now.here.store.pages.dirty }
    {
        self.here.store.dirty_count()
    }

    /// How many pages are clean.
    pub fn clean_count(&self) -> usize
        ensures { result ≡ length self.now.here.store.pages.clean }
    {
        self.here.store.clean_count()
    }

    /// How many disk commands are outstanding.
    pub fn command_count(&self) -> usize
        ensures { result ≡ length self.now.here.store.commands }
    {
        self.here.store.command_count()
    }

    /// Whether one of these operations waits for a grant of the file of this server, or for what
    /// else it needs with the lock that is held. The server is the association's.
    pub fn is_awaited(&self, operations: &Operations, server: ServerId, ino: u32) -> bool
        ensures { result ≡ is_awaited_by operations.now server ino self.now.here.session }
    {
        match &self.here.session {
            Some(session) => is_awaited(operations, server, session, ino),
            None => false,
        }
    }
}
