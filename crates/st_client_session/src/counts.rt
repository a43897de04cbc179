// How many locks a session holds, and for how many it waits.
ghost use Rattle.std.specs.Prelude.{◌≡◌, length};
ghost use Rattle.st_rules.specs.ClientLocks as locks;

use crate::session::Session;

impl Session {
    /// The number of files with a lock.
    pub fn lock_count(&self) -> usize
        ensures { result ≡ locks.count self.now.session.locks }
    {
        self.locks.count()
    }

    /// The number of files with a wait that was reported.
    pub fn wait_count(&self) -> usize
        ensures { result ≡ length self.now.session.waits }
    {
        self.waits.len()
    }
}
