// Installing the locks that a client holds.
ghost use Rattle.std.specs.Prelude.{◌≡◌, ◌≤◌, ◌<◌, ◌+◌, ◌^◌, ◌++◌, ◌∷◌, ◌&&◌, [], IfOk, IfSome, OnOk, OnErr, Some, find, filter, map, not, length, slice_get, None, false, true, nat_lt, nat_le, ◌==◌, if◌then◌else◌};
ghost use Rattle.std.specs.List.{IsDistinct, list_all, list_any};
ghost use Rattle.std.specs.Option.{option_copied, option_map, option_to_list};
ghost use Rattle.st_rules.specs.Keys as keys;
ghost use Rattle.st_rules.specs.Locks as locks;
ghost use Rattle.st_lock_tables.specs.DemandStarts.{IsClient, KeepsSince, since_of_demand};
ghost use Rattle.st_lock_tables.specs.Calls.{Answers, Gives, Installs, demanding, granting, is_lock_row, is_old_row, same_file, told, with_one};

use crate::refusal::LockRefusal;
use crate::table::PlainTable;
use st_base::{ClientId, GrantNo, Life, Mode};
use st_rules::LockRow;
use std::alloc::AllocError;

fn first_of(clients: &[ClientId]) -> Option<ClientId>
    ensures { result ≡ slice_get clients.now 0 }
{
    match clients {
        [] => None,
        [first, ..] => Some(*first),
    }
}

impl PlainTable {
    /// The least other client whose row of the file conflicts with the mode.
    fn holder_against(
        &self,
        client: ClientId,
        ino: u32,
        mode: Mode,
    ) -> Result<Option<ClientId>, AllocError>
        ensures { IfOk result (λ h. h ≡ locks.holder_against self.now client ino mode) }
    {
        let alloc = self.alloc;
        let clients = self.rows.clients_against(alloc, client, ino, mode)?;
        Ok(first_of(clients.as_slice()))
    }

    /// The first row that conflicts with another client, and that client.
    #[tactic(auto, unfolding(st_rules::specs::Locks::first_conflict, st_rules::specs::Locks::conflict_or))]
    fn first_conflict(
        &self,
        client: ClientId,
        rows: &[(u32, GrantNo, Mode)],
    ) -> Result<Option<(u32, ClientId)>, AllocError>
        ensures { IfOk result (λ f. f ≡ locks.first_conflict self.now client rows.now) }
    {
        for row in rows {
            if let Some(holder) = self.holder_against(client, row.0, row.2)? {
                return Ok(Some((row.0, holder)));
            }
        }
        Ok(None)
    }

    fn push_installed(
        &mut self,
        client: ClientId,
        life: Life,
        row: (u32, GrantNo, Mode),
    ) -> Result<(), AllocError>
        requires client { IsClient client }
        requires new { locks.row_of self.old client row.0 ≡ None }
        requires lock { is_lock_row row ≡ true }
        requires earlier { is_old_row self.old.epoch row ≡ true }
        requires free { list_any (locks.stands_against client row.0 row.2) self.old.rows ≡ false }
        ensures { OnOk result (self.new ≡ with_one self.old (locks.installed client life row)) }
    {
        self.rows.put(
            LockRow {
                ino: row.0,
                client,
                life,
                g: row.1,
                mode: row.2,
                demand: None,
            },
            None,
        )?;
        Ok(())
    }

    #[tactic(auto, unfolding(st_rules::specs::Locks::with_rows))]
    fn push_rows(
        &mut self,
        client: ClientId,
        life: Life,
        rows: &[(u32, GrantNo, Mode)],
    ) -> Result<(), AllocError>
        requires client { IsClient client }
        requires distinct { IsDistinct same_file rows.now }
        requires none { locks.has_rows self.old client ≡ false }
        requires modes { list_all is_lock_row rows.now ≡ true }
        requires earlier { list_all (is_old_row self.old.epoch) rows.now ≡ true }
        requires free { locks.first_conflict self.old client rows.now ≡ None }
        ensures { OnOk result (self.new ≡ locks.with_rows self.old client life rows.now) }
    {
        for row in rows {
            self.push_installed(client, life, *row)?;
        }
        Ok(())
    }

    /// All rows of a client are installed, or none, at the first row that conflicts with another
    /// client's.
    #[tactic(auto, unfolding(st_rules::specs::Locks::install, st_rules::specs::Locks::install_at))]
    pub fn install(
        &mut self,
        client: ClientId,
        life: Life,
        rows: &[(u32, GrantNo, Mode)],
    ) -> Result<(), LockRefusal>
        requires client { IsClient client }
        requires distinct { IsDistinct same_file rows.now }
        requires none { locks.has_rows self.old client ≡ false }
        requires modes { list_all is_lock_row rows.now ≡ true }
        requires earlier { list_all (is_old_row self.old.epoch) rows.now ≡ true }
        ensures { Installs self.old self.new result (locks.install self.old client life rows.now) }
    {
        match self.first_conflict(client, rows)? {
            Some((ino, holder)) => Err(LockRefusal::Conflict(ino, holder)),
            None => {
                self.push_rows(client, life, rows)?;
                Ok(())
            }
        }
    }
}
