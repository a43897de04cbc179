// The lock row of a shared file.
ghost use Rattle.std.specs.Prelude.{◌≡◌, ◌<◌, ◌+◌, ◌^◌, true, Some, None, OnOk, OnErr};
ghost use Rattle.std.specs.Bool.{OnTrue, OnFalse};
ghost use Rattle.st_locks.specs.DemandStarts.{IsClient};
ghost use Rattle.st_shared.specs.Rows.{IsFileTable, holder_of};
ghost use Rattle.st_shared.specs.Shared as rules;

use crate::commands::FILE;
use st_base::{ClientId, Epoch, Life, Mode};
use st_locks::LockTable;
use std::alloc::{AllocError, Global};

/// The epoch of the lock table. Its server does not restart.
const EPOCH: Epoch = Epoch(1);

/// The life of each client: what a stop ends is kept with the commands.
const LIFE: Life = Life(1);

/// A lock table without rows.
pub fn new_table(alloc: Global) -> LockTable
    ensures table { IsFileTable result }
    ensures free { holder_of result.rows ≡ None }
    ensures room { result.grants ≡ 0 }
{
    LockTable::new(alloc, FILE.server, EPOCH)
}

/// The client that has the lock row. It takes no memory.
pub fn holder(locks: &LockTable) -> Option<ClientId>
    requires { IsFileTable locks.now }
    ensures { result ≡ holder_of locks.now.rows }
{
    for number in 1..17 {
        let client = ClientId(number);
        if locks.has_rows(client) {
            return Some(client);
        }
    }
    None
}

/// Whether the client is the one with the lock row.
pub fn is_holder(holder: Option<ClientId>, client: ClientId) -> bool
    ensures { result ≡ rules.is_holder holder client }
{
    match holder {
        None => false,
        Some(holder) => holder == client,
    }
}

/// Makes sure that one lock may be granted. A table whose grant numbers are used up is begun anew:
/// it has no rows, so none of these numbers is in use.
fn make_room(alloc: Global, locks: &mut LockTable)
    requires table { IsFileTable locks.old }
    requires free { holder_of locks.old.rows ≡ None }
    ensures table { IsFileTable locks.new }
    ensures free { holder_of locks.new.rows ≡ None }
    ensures room { locks.new.grants + 1 < 2 ^ 32 }
{
    if !locks.has_room() {
        *locks = new_table(alloc);
    }
}

/// Grants the exclusive lock to a client; false if memory runs out.
fn grant(locks: &mut LockTable, client: ClientId) -> bool
    requires client { IsClient client }
    requires table { IsFileTable locks.old }
    requires free { holder_of locks.old.rows ≡ None }
    requires room { locks.old.grants + 1 < 2 ^ 32 }
    ensures table { IsFileTable locks.new }
    ensures done { OnTrue result (holder_of locks.new.rows ≡ Some client) }
    ensures lacks { OnFalse result (holder_of locks.new.rows ≡ None) }
{
    locks.acquire(client, LIFE, FILE.ino, Mode::X, true).is_ok()
}

/// Grants the exclusive lock, which nobody has, to a client.
pub fn take_lock(alloc: Global, locks: &mut LockTable, client: ClientId) -> Result<(), AllocError>
    requires client { IsClient client }
    requires table { IsFileTable locks.old }
    requires free { holder_of locks.old.rows ≡ None }
    ensures table { IsFileTable locks.new }
    ensures ok { OnOk result (holder_of locks.new.rows ≡ Some client) }
    ensures err { OnErr result (holder_of locks.new.rows ≡ None) }
{
    make_room(alloc, locks);
    if grant(locks, client) {
        Ok(())
    } else {
        Err(AllocError)
    }
}

/// The client gives its lock back.
pub fn drop_lock(locks: &mut LockTable, client: ClientId)
    requires table { IsFileTable locks.old }
    requires held { rules.is_holder (holder_of locks.old.rows) client ≡ true }
    ensures table { IsFileTable locks.new }
    ensures free { holder_of locks.new.rows ≡ None }
{
    locks.forget(client);
}
