// The lock rows: by client and file, counted by client, and those that wait for an answer by the
// moment.
ghost use Rattle.std.specs.Prelude.{◌≡◌, ◌<◌, ◌^◌, ◌&&◌, ◌==◌, ℕ, [], IfOk, IfSome, OnOk, OnErr, None, Some, find, filter, is_some, map, not, length, if◌then◌else◌, true, false, slice_index_or};
ghost use Rattle.std.specs.List.{IsDistinct, list_all, list_any};
ghost use Rattle.std.specs.BTreeSet.{contains};
ghost use Rattle.st_base.specs.declared.ids.ClientId.{ClientId};
ghost use Rattle.st_base.specs.declared.ids.Stamp.{Stamp};
ghost use Rattle.st_rules.specs.declared.locks.LockRow.{LockRow};
ghost use Rattle.st_base.specs.Mode.{conflicts};
ghost use Rattle.st_rules.specs.Keys as keys;
ghost use Rattle.st_rules.specs.Locks as locks;
ghost use Rattle.st_tables.specs.Tables.{Changes, is_of_client, lock_key, same_key};
ghost use Rattle.st_lock_tables.specs.Calls.{clients_of, is_row_from};
ghost use Rattle.st_lock_tables.specs.WaitedFiles.{is_one_of};
ghost use Rattle.st_lock_tables.specs.DemandStarts.{AreListed, IsClient, KeepsSince, since_of, since_of_demand};

use crate::unanswered::{Unanswered, forget, overdue, put_in, take_out};
use st_base::{ClientId, Config, Life, Mode, Stamp};
use st_rules::{LockRow, RowDemand};
use st_tables::{ClientTable, Every, Key, Test};
use std::alloc::{AllocError, Global};
use std::collections::BTreeSet;
use std::marker::Model;

/// The key of a client's row or wait for a file.
pub fn key(client: ClientId, ino: u32) -> Key
    ensures { result ≡ record { first = client.0; second = ino } }
{
    Key {
        first: client.0 as u32,
        second: ino,
    }
}

fn since_of_demand(demand: Option<RowDemand>) -> Option<Stamp>
    ensures { result ≡ since_of_demand demand }
{
    match demand {
        None => None,
        Some(d) => d.since,
    }
}

fn since_of(row: Option<LockRow>) -> Option<Stamp>
    ensures { result ≡ since_of row }
{
    match row {
        None => None,
        Some(row) => since_of_demand(row.demand),
    }
}

/// Another client's rows that conflict with a mode.
#[derive(Clone, Copy)]
struct Against {
    client: ClientId,
    mode: Mode,
}

impl Test<LockRow> for Against {
    ghost use Rattle.std.specs.Prelude.{◌&&◌, not};
    ghost use Rattle.st_base.specs.Mode.{conflicts};
    ghost use Rattle.st_rules.specs.Keys.{same_client};

    ghost passes = { λ t r. not (same_client r.client t.client) && conflicts r.mode t.mode };

    fn test(&self, row: &LockRow) -> bool {
        row.client.0 != self.client.0 && row.mode.conflicts(self.mode)
    }
}

/// A client's rows.
#[derive(Clone, Copy)]
struct OfClient {
    client: ClientId,
}

impl Test<LockRow> for OfClient {
    ghost use Rattle.st_rules.specs.Locks.{is_row_by};

    ghost passes = { λ t r. is_row_by t.client r };

    fn test(&self, row: &LockRow) -> bool {
        row.client.0 == self.client.0
    }
}

/// A client's rows of a life or a higher one.
#[derive(Clone, Copy)]
struct FromLife {
    client: ClientId,
    life: Life,
}

impl Test<LockRow> for FromLife {
    ghost use Rattle.st_lock_tables.specs.Calls.{is_row_from};

    ghost passes = { λ t r. is_row_from t.client t.life r };

    fn test(&self, row: &LockRow) -> bool {
        row.client.0 == self.client.0 && self.life.0 <= row.life.0
    }
}

/// The lock rows, in the order in which they were first granted or installed. Contracts see the
/// list.
#[derive(Drop)]
pub struct Rows {
    table: ClientTable<LockRow>,
    since: BTreeSet<Unanswered>,
}

impl Model for Rows {
    ghost use Rattle.std.specs.Prelude.{List};
    ghost use Rattle.st_rules.specs.declared.locks.LockRow.{LockRow};

    ghost Value = { List LockRow };

    ghost use Rattle.st_lock_tables.specs.DemandStarts.{AreListed};

    ghost view = { λ r. r.table };

    ghost invariant = { λ r. AreListed r.table r.since };
}

impl Rows {
    pub fn new(alloc: Global) -> Rows
        ensures { result ≡ [] }
    {
        Rows {
            table: ClientTable::new(alloc),
            since: BTreeSet::new(alloc),
        }
    }

    /// How many rows there are.
    pub fn len(&self) -> usize
        ensures len { result ≡ length self.now }
        ensures small { result < 2 ^ 63 }
        ensures distinct { IsDistinct same_key (map lock_key self.now) }
        ensures clients { list_all (is_of_client lock_key) self.now ≡ true }
    {
        self.table.len()
    }

    /// How many rows the client has.
    pub fn count(&self, client: ClientId) -> u64
        ensures { result ≡ length (filter (locks.is_row_by client) self.now) }
    {
        self.table.count(client)
    }

    /// The client's row of the file.
    pub fn get(&self, client: ClientId, ino: u32) -> Option<LockRow>
        ensures row { result ≡ find (locks.is_row_of client ino) self.now }
        ensures same { IfSome result (λ r. (r.client ≡ client) × (r.ino ≡ ino)) }
    {
        self.table.get(key(client, ino)).copied()
    }

    /// Whether the client has a row of the file.
    pub fn holds(&self, client: ClientId, ino: u32) -> bool
        ensures { result ≡ is_some (find (locks.is_row_of client ino) self.now) }
    {
        self.table.holds(key(client, ino))
    }

    /// The demands that wait for an answer: since when, of which file, of which client.
    pub fn by_since(&self) -> &BTreeSet<Unanswered>
        ensures { AreListed self.now result.now }
    {
        &self.since
    }

    /// Puts a row without a demand in place of its client's row of the file, which is this one.
    pub fn put(&mut self, row: LockRow, old: Option<LockRow>) -> Result<(), AllocError>
        requires client { IsClient row.client }
        requires fresh { row.demand ≡ None }
        requires found { find (locks.is_row_of row.client row.ino) self.old ≡ old }
        ensures ok { OnOk result (self.new ≡ locks.with_row row self.old) }
        ensures err { OnErr result (self.new ≡ self.old) }
    {
        self.table.put(row)?;
        take_out(&mut self.since, since_of(old), row.ino, row.client);
        Ok(())
    }

    /// Takes out the client's row of the file, which is this one.
    pub fn remove(&mut self, client: ClientId, ino: u32, old: LockRow)
        requires { find (locks.is_row_of client ino) self.old ≡ Some old }
        ensures { self.new ≡ locks.without_row client ino self.old }
    {
        self.table.remove(key(client, ino));
        take_out(&mut self.since, since_of(Some(old)), ino, client);
    }

    /// Writes a row that waits for no answer over its client's row of the file, which is this one.
    pub fn change(&mut self, row: LockRow, old: LockRow)
        requires quiet { since_of_demand row.demand ≡ None }
        requires found { find (locks.is_row_of row.client row.ino) self.old ≡ Some old }
        ensures { Changes lock_key row self.old self.new }
    {
        self.table.change(row);
        take_out(&mut self.since, since_of(Some(old)), row.ino, row.client);
    }

    /// Writes a row over its client's row of the file, which has waited for an answer since the
    /// same moment or does not wait.
    pub fn demand(&mut self, old: LockRow, row: LockRow) -> Result<(), AllocError>
        requires found { find (locks.is_row_of row.client row.ino) self.old ≡ Some old }
        requires since { KeepsSince (since_of_demand old.demand) (since_of_demand row.demand) }
        ensures ok { OnOk result (Changes lock_key row self.old self.new) }
        ensures err { OnErr result (self.new ≡ self.old) }
    {
        put_in(
            &mut self.since,
            since_of_demand(row.demand),
            row.ino,
            row.client,
        )?;
        self.table.change(row);
        Ok(())
    }

    /// Takes out all rows of a client.
    pub fn forget(&mut self, client: ClientId)
        ensures { self.new ≡ filter (λ r. not (locks.is_row_by client r)) self.old }
    {
        self.table.forget(client);
        forget(&mut self.since, client);
    }

    /// Whether another client's row of the file conflicts with the mode.
    pub fn stands_against(&self, client: ClientId, ino: u32, mode: Mode) -> bool
        ensures { result ≡ list_any (locks.stands_against client ino mode) self.now }
    {
        self.table.any_on(ino, &Against { client, mode })
    }

    /// The clients with a row of the file, in the order of the rows.
    pub fn queue(&self, ino: u32) -> &[u32]
        ensures { result.now ≡ map locks.client_of_row (filter (locks.is_row_on ino) self.now) }
    {
        self.table.queue(ino)
    }

    /// The files of the client's rows.
    pub fn numbers(&self, client: ClientId) -> &[u32]
        ensures { (i : ℕ) → is_one_of result.now i ≡ list_any (locks.is_row_of client i) self.now }
    {
        self.table.numbers(client)
    }

    /// Whether this holder's row of the file, if it has one, conflicts with another client's mode.
    /// The holders are those of the file.
    pub fn is_against(
        &self,
        holders: &[u32],
        client: ClientId,
        ino: u32,
        mode: Mode,
        holder: ClientId,
    ) -> bool
        requires { holders.now ≡ map locks.client_of_row (filter (locks.is_row_on ino) self.now) }
        ensures { result ≡ list_any (λ r. locks.is_row_of holder ino r && (not (keys.same_client r.client client) && conflicts r.mode mode)) self.now }
    {
        self.table
            .has_in(holders, key(holder, ino), &Against { client, mode })
    }

    /// The other clients whose rows of the file conflict with the mode, in rising order.
    pub fn clients_against(
        &self,
        alloc: Global,
        client: ClientId,
        ino: u32,
        mode: Mode,
    ) -> Result<Vec<ClientId>, AllocError>
        ensures { IfOk result (λ v. v.items ≡ clients_of (locks.stands_against client ino mode) self.now) }
    {
        self.table.clients_on(alloc, ino, &Against { client, mode })
    }

    /// Marks the clients with a row whose demand waits too long for its answer. It looks at those
    /// rows and one more.
    pub fn overdue(&self, now: Stamp, config: Config) -> [bool; 17]
        ensures { (c : ℕ) → c < 17 → slice_index_or result c false ≡ list_any (λ r. locks.is_overdue config now r && (r.client.0 == c)) self.now }
    {
        // For its clauses `distinct` and `clients`: a demand that `since` lists is of one row, of a
        // client from 1 to 16.
        let _len = self.table.len();
        overdue(&self.since, config.demand, now)
    }

    /// Whether the client has a row of this life or a higher one. It looks at every row.
    pub fn any_from(&self, client: ClientId, life: Life) -> bool
        ensures { result ≡ list_any (is_row_from client life) self.now }
    {
        self.table.any(&FromLife { client, life })
    }

    /// The clients with a row of the file, in rising order.
    pub fn clients_with(&self, alloc: Global, ino: u32) -> Result<Vec<ClientId>, AllocError>
        ensures { IfOk result (λ v. v.items ≡ clients_of (locks.is_row_on ino) self.now) }
    {
        self.table.clients_on(alloc, ino, &Every)
    }

    /// The files of the client's rows, in rising order.
    pub fn files(&self, alloc: Global, client: ClientId) -> Result<Vec<u32>, AllocError>
        ensures { IfOk result (λ v. v.items ≡ keys.rising (map locks.ino_of_row (filter (locks.is_row_by client) self.now))) }
    {
        self.table.seconds(alloc, &OfClient { client })
    }
}
