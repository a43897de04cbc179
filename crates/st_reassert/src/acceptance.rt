// The refusals of a reassertion in grace, and what accepting it does.
ghost use Rattle.std.specs.Prelude.{◌≡◌, IfOk, Some, true, false, find, not};
ghost use Rattle.std.specs.List.{IsDistinct, list_all};
ghost use Rattle.st_base.specs.declared.ids.Life.{Life};
ghost use Rattle.st_locks.specs.Calls.{is_lock_row, is_old_row, same_file};
ghost use Rattle.st_locks.specs.DemandStarts.{IsClient};
ghost use Rattle.st_rules.specs.Grace as grace;
ghost use Rattle.st_rules.specs.Locks.{has_rows, install, is_earlier_grant};
ghost use Rattle.st_reassert.specs.Acceptance.{Accepts, is_older};

use crate::refusal::ReassertRefusal;
use st_base::{ClientId, Epoch, GrantNo, Life, Mode};
use st_locks::{LockRefusal, LockTable};
use st_sessions::Sessions;
use std::alloc::AllocError;

/// Whether an earlier epoch gave this grant number.
fn is_earlier(epoch: Epoch, g: GrantNo) -> bool
    ensures { result ≡ is_earlier_grant epoch g }
{
    (g.0 as u128) < epoch.0 as u128 * 4_294_967_296
}

/// The first row with a grant number that no earlier epoch gave, if there is one.
fn first_new_grant(rows: &[(u32, GrantNo, Mode)], epoch: Epoch) -> Option<(u32, GrantNo, Mode)>
    ensures { result ≡ find (λ row. not (is_earlier_grant epoch row.1)) rows.now }
{
    rows.iter().copied().find(|row| !is_earlier(epoch, row.1))
}

/// The least file of a client that has rows. A reassertion of a life above all of them is refused
/// at it.
fn own_file(locks: &LockTable, client: ClientId) -> Result<u32, AllocError>
    requires { has_rows locks.now client ≡ true }
    ensures { (life : Life) → is_older locks.now client life ≡ true → IfOk result (λ ino. grace.own_older locks.now client life ≡ Some ino) }
{
    let found = locks.of(client)?;
    let rows = found.as_slice();
    Ok(rows[0].0)
}

/// Installs the rows of a client that has none, and makes its session.
#[tactic(auto, unfolding(st_rules::specs::Grace::accept_installed, st_rules::specs::Grace::accepted))]
fn install(
    client: ClientId,
    life: Life,
    rows: &[(u32, GrantNo, Mode)],
    locks: &mut LockTable,
    sessions: &mut Sessions,
) -> Result<(), ReassertRefusal>
    requires client { IsClient client }
    requires distinct { IsDistinct same_file rows.now }
    requires modes { list_all is_lock_row rows.now ≡ true }
    requires earlier { list_all (is_old_row locks.old.epoch) rows.now ≡ true }
    requires none { has_rows locks.old client ≡ false }
    ensures { Accepts (record { locks = locks.old; sessions = sessions.old }) (record { locks = locks.new; sessions = sessions.new }) result
        (grace.accept_installed sessions.old client life (install locks.old client life rows.now)) }
{
    match locks.install(client, life, rows) {
        Ok(()) => {
            sessions.reasserted(client, life)?;
            Ok(())
        }
        Err(LockRefusal::Conflict(ino, holder)) => Err(ReassertRefusal::Conflict(ino, holder)),
        Err(_) => Err(ReassertRefusal::Memory),
    }
}

/// Accepts rows of earlier epochs.
#[tactic(auto, unfolding(st_rules::specs::Grace::accept_own))]
fn accept_own(
    client: ClientId,
    life: Life,
    rows: &[(u32, GrantNo, Mode)],
    locks: &mut LockTable,
    sessions: &mut Sessions,
) -> Result<(), ReassertRefusal>
    requires client { IsClient client }
    requires distinct { IsDistinct same_file rows.now }
    requires modes { list_all is_lock_row rows.now ≡ true }
    requires earlier { list_all (is_old_row locks.old.epoch) rows.now ≡ true }
    requires older { is_older locks.old client life ≡ true }
    ensures { Accepts (record { locks = locks.old; sessions = sessions.old }) (record { locks = locks.new; sessions = sessions.new }) result
        (grace.accept_own locks.old sessions.old client life rows.now (grace.own_older locks.old client life)) }
{
    if locks.has_rows(client) {
        let ino = own_file(locks, client)?;
        return Err(ReassertRefusal::Conflict(ino, client));
    }
    install(client, life, rows, locks, sessions)
}

/// Accepts rows in grace.
#[tactic(auto, unfolding(st_rules::specs::Grace::accept_rows, st_rules::specs::Grace::accept_earlier))]
pub fn accept_rows(
    client: ClientId,
    life: Life,
    rows: &[(u32, GrantNo, Mode)],
    locks: &mut LockTable,
    sessions: &mut Sessions,
) -> Result<(), ReassertRefusal>
    requires client { IsClient client }
    requires distinct { IsDistinct same_file rows.now }
    requires modes { list_all is_lock_row rows.now ≡ true }
    requires older { is_older locks.old client life ≡ true }
    ensures { Accepts (record { locks = locks.old; sessions = sessions.old }) (record { locks = locks.new; sessions = sessions.new }) result
        (grace.accept_rows locks.old sessions.old client life rows.now) }
{
    match first_new_grant(rows, locks.epoch()) {
        Some((ino, g, _)) => Err(ReassertRefusal::NotHolder(ino, g)),
        None => accept_own(client, life, rows, locks, sessions),
    }
}
