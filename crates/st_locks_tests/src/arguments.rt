// Clients, modes and rows of numbers, if they are what the calls require.
ghost use Rattle.std.specs.Prelude.{◌≡◌, IfSome, true, false};
ghost use Rattle.st_locks.specs.Calls.{is_lock, is_lock_row, is_old_row};
ghost use Rattle.st_locks.specs.DemandStarts.{IsClient};
ghost use Rattle.st_rules.specs.Locks as locks_of;

use st_base::{ClientId, Config, Epoch, GrantNo, Life, Mode};
use st_locks::{LockRefusal, LockTable};

/// Settings under which a demand waits 10 ticks for its answer and is sent again after 5.
pub const CONFIG: Config = Config {
    lease: 100,
    renew: 50,
    quiesce: 70,
    flush: 85,
    demand: 10,
    retry: 5,
    num: 3,
    den: 2,
    grain: 2,
};

/// A file, a grant number and a mode as plain numbers.
pub type Row = (u32, u64, u8);

/// The client of a number from 1 to 16.
pub fn client(number: u16) -> Option<ClientId>
    ensures { IfSome result (λ c. IsClient c) }
{
    if 1 <= number && number <= 16 {
        Some(ClientId(number))
    } else {
        None
    }
}

/// The mode of a lock, which is 1 if it is shared and 2 if it is exclusive.
pub fn lock(number: u8) -> Option<Mode>
    ensures { IfSome result (λ m. is_lock m ≡ true) }
{
    match number {
        1 => Some(Mode::S),
        2 => Some(Mode::X),
        _ => None,
    }
}

/// A row of a lock.
pub fn lock_row(row: Row) -> Option<(u32, GrantNo, Mode)>
    ensures ino { IfSome result (λ r. r.0 ≡ row.0) }
    ensures lock { IfSome result (λ r. is_lock_row r ≡ true) }
{
    let mode = lock(row.2)?;
    Some((row.0, GrantNo(row.1), mode))
}

/// A row of a lock whose grant number an earlier epoch gave.
pub fn old_row(epoch: Epoch, row: Row) -> Option<(u32, GrantNo, Mode)>
    ensures ino { IfSome result (λ r. r.0 ≡ row.0) }
    ensures lock { IfSome result (λ r. is_lock_row r ≡ true) }
    ensures earlier { IfSome result (λ r. is_old_row epoch r ≡ true) }
{
    let found = lock_row(row)?;
    if (found.1.0 as u128) < epoch.0 as u128 * 4_294_967_296 {
        Some(found)
    } else {
        None
    }
}

/// Installs three rows, if they are of locks on rising files and an earlier epoch gave their grant
/// numbers.
#[tactic(auto, using(crate::proofs::Files::three_files))]
pub fn install_three(
    locks: &mut LockTable,
    client: ClientId,
    life: Life,
    rows: [Row; 3],
) -> Option<Result<(), LockRefusal>>
    requires client { IsClient client }
    requires none { locks_of.has_rows locks.old client ≡ false }
{
    let epoch = locks.epoch();
    let a = old_row(epoch, rows[0])?;
    let b = old_row(epoch, rows[1])?;
    let c = old_row(epoch, rows[2])?;
    if a.0 < b.0 && b.0 < c.0 {
        Some(locks.install(client, life, &[a, b, c]))
    } else {
        None
    }
}
