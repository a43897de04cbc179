// The held locks and the greatest grants seen, each found by its file.
ghost use Rattle.std.specs.Prelude.{◌≡◌, ◌++◌, true, None, OnOk, OnErr, find, is_some};
ghost use Rattle.std.specs.Option.{option_map, option_to_list};
ghost use Rattle.st_rules.specs.ClientInvariants.{same_lock};
ghost use Rattle.st_rules.specs.ClientLocks as locks;
ghost use Rattle.st_rules.specs.ServerInvariants.{are_once};

use crate::rows::{LockRow, SeenRow, key};
use st_base::{GrantNo, Mode};
use st_rules::{HeldLock, SeenGrant};
use st_tables::Table;
use std::alloc::AllocError;

/// Writes a lock over the one that is held on its file.
fn overwrite(rows: &mut Table<LockRow>, lock: HeldLock)
    requires once { are_once same_lock rows.old ≡ true }
    requires held { is_some (find (locks.is_lock_on lock.ino) rows.old) ≡ true }
    ensures { rows.new ≡ locks.with_lock lock rows.old }
{
    rows.change(LockRow { lock });
}

/// The greatest grant seen of a file.
pub fn seen_row(ino: u32, g: GrantNo) -> SeenRow
    ensures { result ≡ locks.seen_grant ino g }
{
    SeenRow {
        seen: SeenGrant { ino, g },
    }
}

/// The file's lock, if one is held.
pub fn lock_of(rows: &Table<LockRow>, ino: u32) -> Option<HeldLock>
    ensures { result ≡ find (locks.is_lock_on ino) rows.now }
{
    let row = rows.get(key(ino))?;
    Some(row.lock)
}

/// Puts a lock in place of the one that is held on its file; its grant is the greatest seen.
pub fn put_over(
    rows: &mut Table<LockRow>,
    seen: &mut Table<SeenRow>,
    lock: HeldLock,
) -> Result<(), AllocError>
    requires once { are_once same_lock rows.old ≡ true }
    requires held { is_some (find (locks.is_lock_on lock.ino) rows.old) ≡ true }
    ensures rows { OnOk result (rows.new ≡ locks.with_lock lock rows.old) }
    ensures seen { OnOk result (seen.new ≡ locks.with_seen lock.ino lock.g seen.old) }
    ensures err { OnErr result ((rows.new ≡ rows.old) × (seen.new ≡ seen.old)) }
{
    seen.put(seen_row(lock.ino, lock.g))?;
    overwrite(rows, lock);
    Ok(())
}

/// Puts a lock on a file without one; its grant is the greatest seen.
fn put_new(
    rows: &mut Table<LockRow>,
    seen: &mut Table<SeenRow>,
    lock: HeldLock,
) -> Result<(), AllocError>
    requires { find (locks.is_lock_on lock.ino) rows.old ≡ None }
    ensures rows { OnOk result (rows.new ≡ locks.with_lock lock rows.old) }
    ensures seen { OnOk result (seen.new ≡ locks.with_seen lock.ino lock.g seen.old) }
    ensures err { OnErr result ((rows.new ≡ rows.old) × (seen.new ≡ seen.old)) }
{
    rows.put(LockRow { lock })?;
    match seen.put(seen_row(lock.ino, lock.g)) {
        Ok(()) => Ok(()),
        Err(error) => {
            rows.remove(key(lock.ino));
            Err(error)
        }
    }
}

/// Puts a lock on its file; its grant is the greatest seen.
pub fn put_lock(
    rows: &mut Table<LockRow>,
    seen: &mut Table<SeenRow>,
    lock: HeldLock,
) -> Result<(), AllocError>
    requires { are_once same_lock rows.old ≡ true }
    ensures rows { OnOk result (rows.new ≡ locks.with_lock lock rows.old) }
    ensures seen { OnOk result (seen.new ≡ locks.with_seen lock.ino lock.g seen.old) }
    ensures err { OnErr result ((rows.new ≡ rows.old) × (seen.new ≡ seen.old)) }
{
    match lock_of(rows, lock.ino) {
        Some(_) => put_over(rows, seen, lock),
        None => put_new(rows, seen, lock),
    }
}

/// Takes out the file's lock, or makes it a shared one under its grant.
pub fn lower_rows(rows: &mut Table<LockRow>, ino: u32, lock: HeldLock, to: Mode)
    requires once { are_once same_lock rows.old ≡ true }
    requires held { is_some (find (locks.is_lock_on ino) rows.old) ≡ true }
    ensures { rows.new ≡ locks.lowered_rows rows.old ino lock to }
{
    let shared = HeldLock {
        ino,
        g: lock.g,
        mode: Mode::S,
    };
    match to {
        Mode::None => rows.remove(key(ino)),
        Mode::S => overwrite(rows, shared),
        Mode::X => overwrite(rows, shared),
    }
}

/// Adds a lock, if there is one, as it is reasserted.
pub fn push_lock(
    found: &mut Vec<(u32, GrantNo, Mode)>,
    lock: Option<HeldLock>,
) -> Result<(), AllocError>
    ensures { OnOk result (found.new.items ≡ found.old.items ++ option_to_list (option_map locks.lock_in_list lock)) }
{
    match lock {
        None => Ok(()),
        Some(lock) => {
            found.push((lock.ino, lock.g, lock.mode))?;
            Ok(())
        }
    }
}
