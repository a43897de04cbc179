// What is in the way of first waiters is demanded, and timed.
ghost use Rattle.std.specs.Prelude.{◌≡◌, ◌==◌, IfSome, OnOk, true};
ghost use Rattle.st_rules.specs.Locks as locks;
ghost use Rattle.st_lock_tables.specs.Calls.{demanding, file_demanded, files_demanded};
ghost use Rattle.st_lock_tables.specs.WaitedFiles.{is_one_of};
ghost use Rattle.st_locks.specs.SettledFiles.{KeepsAll, Times, TimesRows, is_timed};

use crate::wake_times::WakeTimes;
use st_base::ClientId;
use st_lock_tables::{Pass, PlainTable, Sent};
use std::alloc::AllocError;

/// The file is looked at again once the demand on the client's row of it is old.
fn time_row(
    table: &PlainTable,
    waking: &mut WakeTimes,
    client: ClientId,
    ino: u32,
) -> Result<(), AllocError>
    ensures all { OnOk result (KeepsAll waking.old waking.new) }
    ensures timed { OnOk result (IfSome (locks.row_of table.now client ino) (λ r. is_timed waking.new ino r.demand ≡ true)) }
{
    match table.row_at(client, ino) {
        None => Ok(()),
        Some(row) => waking.keep_demand(ino, row.demand),
    }
}

/// The file is looked at again once one of the demands on these clients' rows of it is old.
fn time_rows(
    table: &PlainTable,
    waking: &mut WakeTimes,
    clients: &[ClientId],
    ino: u32,
) -> Result<(), AllocError>
    ensures all { OnOk result (KeepsAll waking.old waking.new) }
    ensures timed { OnOk result (TimesRows table.now clients.now ino waking.new) }
{
    for client in clients {
        time_row(table, waking, *client, ino)?;
    }
    Ok(())
}

/// The rows in the way of the file's first waiter are demanded, and timed.
fn demand_for(
    table: &mut PlainTable,
    waking: &mut WakeTimes,
    due: &mut Vec<Sent>,
    pass: Pass,
    suspects: &[ClientId],
    ino: u32,
) -> Result<(), AllocError>
    ensures ok { OnOk result (demanding table.new due.new.items ≡ file_demanded pass suspects.now ino (demanding table.old due.old.items)) }
    ensures timed { OnOk result (Times suspects.now (λ j. ino == j) table.old waking.old table.new waking.new) }
{
    let clients = table.demand_for(due, pass, suspects, ino)?;
    time_rows(table, waking, clients.as_slice(), ino)
}

/// The demands of these files, one file after another.
#[tactic(auto, unfolding(st_rules::specs::Locks::demand_files))]
pub fn demand_files(
    table: &mut PlainTable,
    waking: &mut WakeTimes,
    due: &mut Vec<Sent>,
    pass: Pass,
    suspects: &[ClientId],
    files: &[u32],
) -> Result<(), AllocError>
    ensures ok { OnOk result (demanding table.new due.new.items ≡ files_demanded pass suspects.now files.now (demanding table.old due.old.items)) }
    ensures timed { OnOk result (Times suspects.now (is_one_of files.now) table.old waking.old table.new waking.new) }
{
    for ino in files {
        demand_for(table, waking, due, pass, suspects, *ino)?;
    }
    Ok(())
}
