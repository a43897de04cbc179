// The lock table: look-ups, and what acquires a lock.
ghost use Rattle.std.specs.Prelude.{◌≡◌, ◌≤◌, ◌<◌, ◌+◌, ◌^◌, ◌++◌, ◌∷◌, ◌&&◌, ◌||◌, [], ℕ, IfOk, IfSome, OnOk, OnErr, Some, find, filter, map, not, length, slice_get, None, false, is_some, true, nat_lt, nat_le, ◌==◌, if◌then◌else◌};
ghost use Rattle.std.specs.List.{IsDistinct, list_any};
ghost use Rattle.std.specs.Option.{option_copied, option_map, option_to_list};
ghost use Rattle.st_rules.specs.Keys as keys;
ghost use Rattle.st_rules.specs.Locks as locks;
ghost use Rattle.st_rules.specs.ServerInvariants.{IsLockTable};
ghost use Rattle.std.specs.BTreeSet.{contains};
ghost use Rattle.st_base.specs.declared.ids.ClientId.{ClientId};
ghost use Rattle.st_base.specs.declared.ids.Stamp.{Stamp};
ghost use Rattle.st_lock_tables.specs.DemandStarts.{IsClient, is_since, since_of, wait_order};
ghost use Rattle.st_lock_tables.specs.Calls.{Answers, Gives, Installs, demanding, granting, has_no_row, is_lock, is_row_from, same_file, told, with_one};
ghost use Rattle.st_lock_tables.specs.WaitedFiles.{is_one_of, is_waited, is_waited_besides};

use crate::refusal::LockRefusal;
use crate::rows::{Rows, key};
use crate::unanswered::Unanswered;
use st_base::{ClientId, Clients, Epoch, GrantNo, Life, Mode, ServerId, Stamp};
use st_rules::{LockRow, Verdict, Waiter};
use st_tables::{ClientTable, Every, Test};
use std::alloc::{AllocError, Global};
use std::collections::BTreeSet;
use std::marker::Model;

/// The locks of one server in one epoch, without a note of which files calls touched. Contracts see
/// them as the epoch, the number of grants, the list of rows and the list of waiters.
#[derive(Drop)]
pub struct PlainTable {
    pub(crate) alloc: Global,
    pub(crate) epoch: Epoch,
    pub(crate) grants: u64,
    pub(crate) rows: Rows,
    pub(crate) waits: ClientTable<Waiter>,
}

impl Model for PlainTable {
    ghost use Rattle.std.specs.Prelude.{◌<◌, ◌^◌, ◌+◌};
    ghost use Rattle.st_rules.specs.Locks as locks;

    ghost Value = { locks.Locks };

    ghost use Rattle.st_lock_tables.specs.Calls.{IsSound};

    ghost view = { λ t. record { epoch = t.epoch; grants = t.grants; rows = t.rows; waiters = t.waits; limit = 1024 } };

    ghost invariant = { λ t. IsSound t.epoch t.grants t.rows t.waits };
}

/// The waits of other clients.
#[derive(Clone, Copy)]
pub(crate) struct Besides {
    pub(crate) client: ClientId,
}

impl Test<Waiter> for Besides {
    ghost use Rattle.std.specs.Prelude.{not};
    ghost use Rattle.st_rules.specs.Keys.{same_client};

    ghost passes = { λ t w. not (same_client w.client t.client) };

    fn test(&self, wait: &Waiter) -> bool {
        wait.client.0 != self.client.0
    }
}

/// Whether the client waits for the file.
fn is_waiting(waits: &ClientTable<Waiter>, client: ClientId, ino: u32) -> bool
    ensures { result ≡ is_some (find (locks.is_wait_of client ino) waits.now) }
{
    if waits.count(client) > 0 {
        waits.holds(key(client, ino))
    } else {
        false
    }
}

/// The client's wait for the file goes, if there is one.
fn remove_wait(waits: &mut ClientTable<Waiter>, client: ClientId, ino: u32)
    ensures { waits.new ≡ locks.without_wait client ino waits.old }
{
    if waits.count(client) > 0 {
        waits.remove(key(client, ino));
    }
}

/// One more, if it is true.
fn one_more(count: u64, so: bool) -> u64
    requires { count + 1 < 2 ^ 64 }
    ensures more { result ≡ count + (if so then 1 else 0) }
    ensures few { result ≤ count + 1 }
{
    if so { count + 1 } else { count }
}

/// How many of these files the client has no row of.
fn count_alone(rows: &Rows, client: ClientId, files: &[u32]) -> u64
    ensures { result ≡ length (filter (has_no_row rows.now client) files.now) }
{
    let mut count = 0u64;
    for ino in files {
        count = one_more(count, !rows.holds(client, *ino));
    }
    count
}

/// The greater of two modes.
fn greater(a: Mode, b: Mode) -> Mode
    ensures { result ≡ locks.greater a b }
{
    if a.covers(b) { a } else { b }
}

pub(crate) fn push_if(
    found: &mut Vec<ClientId>,
    client: ClientId,
    yes: bool,
) -> Result<(), AllocError>
    ensures { OnOk result (found.new.items ≡ found.old.items ++ (if yes then client ∷ [] else [])) }
{
    if yes {
        found.push(client)?;
        Ok(())
    } else {
        Ok(())
    }
}

/// Either.
pub(crate) fn either(a: bool, b: bool) -> bool
    ensures { result ≡ a || b }
{
    a || b
}

fn push_holder(
    found: &mut Vec<(ClientId, GrantNo, Mode)>,
    row: Option<LockRow>,
) -> Result<(), AllocError>
    ensures { OnOk result (found.new.items ≡ found.old.items ++ option_to_list (option_map locks.holder_in_list row)) }
{
    match row {
        None => Ok(()),
        Some(row) => {
            found.push((row.client, row.g, row.mode))?;
            Ok(())
        }
    }
}

fn push_row(
    found: &mut Vec<(u32, GrantNo, Mode)>,
    ino: u32,
    row: Option<LockRow>,
) -> Result<(), AllocError>
    ensures { OnOk result (found.new.items ≡ found.old.items ++ option_to_list (option_map (locks.row_in_list ino) row)) }
{
    match row {
        None => Ok(()),
        Some(row) => {
            found.push((ino, row.g, row.mode))?;
            Ok(())
        }
    }
}

impl PlainTable {
    /// A table without locks, of this epoch, which is from 1 to 2^32 - 1.
    pub fn new(alloc: Global, _server: ServerId, epoch: Epoch) -> PlainTable
        requires { epoch.0 < 2 ^ 32 }
        ensures { result ≡ locks.no_locks epoch }
    {
        PlainTable {
            alloc,
            epoch,
            grants: 0,
            rows: Rows::new(alloc),
            waits: ClientTable::new(alloc),
        }
    }

    /// The epoch of the table. A client has one row and one wait a file, the rows of a file are
    /// compatible, and no row has a grant number that will still be given.
    pub fn epoch(&self) -> Epoch
        ensures epoch { result ≡ self.now.epoch }
        ensures valid { IsLockTable self.now }
    {
        // For their clauses `distinct`, which are parts of `valid`.
        let _rows = self.rows.len();
        let _waits = self.waits.len();
        self.epoch
    }

    /// How many rows there are.
    pub fn row_count(&self) -> usize
        ensures { result ≡ length self.now.rows }
    {
        self.rows.len()
    }

    /// How many waits there are.
    pub fn wait_count(&self) -> usize
        ensures { result ≡ length self.now.waiters }
    {
        self.waits.len()
    }

    /// The client's row of the file.
    pub fn row_at(&self, client: ClientId, ino: u32) -> Option<LockRow>
        ensures row { result ≡ locks.row_of self.now client ino }
        ensures same { IfSome result (λ r. (r.client ≡ client) × (r.ino ≡ ino)) }
    {
        self.rows.get(client, ino)
    }

    /// The grant number and the mode of the client's row of the file.
    pub fn row(&self, client: ClientId, ino: u32) -> Option<(GrantNo, Mode)>
        ensures { result ≡ told (locks.row_of self.now client ino) }
    {
        let row = self.row_at(client, ino)?;
        Some((row.g, row.mode))
    }

    /// Whether the client has a row.
    pub fn has_rows(&self, client: ClientId) -> bool
        ensures { result ≡ locks.has_rows self.now client }
    {
        self.rows.count(client) > 0
    }

    /// Whether the client has a row of this life or a higher one. It looks at every row.
    pub fn has_rows_from(&self, client: ClientId, life: Life) -> bool
        ensures { result ≡ list_any (is_row_from client life) self.now.rows }
    {
        self.rows.any_from(client, life)
    }

    /// The demands that wait for an answer: since when, of which file, of which client; a row is
    /// there exactly if its demand waits.
    pub fn by_since(&self) -> &BTreeSet<Unanswered>
        ensures { (s : Stamp) (i : ℕ) (c : ClientId) → contains wait_order result.now (s, i, c) ≡ is_since s (since_of (locks.row_of self.now c i)) }
    {
        self.rows.by_since()
    }

    /// The number of the next grant.
    pub(crate) fn next_grant(&self) -> GrantNo
        requires { self.now.grants + 1 < 2 ^ 32 }
        ensures { result ≡ locks.next_grant self.now }
    {
        GrantNo(self.epoch.0 * 4294967296 + self.grants + 1)
    }

    /// The client gets a lock in place of this one, if it has one of the file.
    #[tactic(auto, unfolding(st_rules::specs::Locks::grant))]
    pub(crate) fn grant(
        &mut self,
        client: ClientId,
        life: Life,
        ino: u32,
        mode: Mode,
        old: Option<LockRow>,
    ) -> Result<(), AllocError>
        requires client { IsClient client }
        requires room { self.old.grants + 1 < 2 ^ 32 }
        requires found { locks.row_of self.old client ino ≡ old }
        requires lock { is_lock mode ≡ true }
        requires free { list_any (locks.stands_against client ino mode) self.old.rows ≡ false }
        ensures ok { OnOk result (self.new ≡ locks.grant self.old client life ino mode) }
        ensures err { OnErr result (self.new ≡ self.old) }
    {
        let g = self.next_grant();
        self.rows.put(
            LockRow {
                ino,
                client,
                life,
                g,
                mode,
                demand: None,
            },
            old,
        )?;
        remove_wait(&mut self.waits, client, ino);
        self.grants += 1;
        Ok(())
    }

    /// The client waits for a lock.
    #[tactic(auto, unfolding(st_rules::specs::Locks::queue, st_rules::specs::Locks::queue_at))]
    fn queue(
        &mut self,
        client: ClientId,
        life: Life,
        ino: u32,
        mode: Mode,
    ) -> Result<(), AllocError>
        requires client { IsClient client }
        requires lock { is_lock mode ≡ true }
        ensures ok { OnOk result (self.new ≡ locks.queue self.old client life ino mode) }
        ensures err { OnErr result (self.new ≡ self.old) }
    {
        match self.waits.get(key(client, ino)).copied() {
            None => {
                self.waits.put(Waiter {
                    ino,
                    client,
                    life,
                    mode,
                })?;
                Ok(())
            }
            Some(wait) => {
                self.waits.change(Waiter {
                    ino,
                    client,
                    life: wait.life,
                    mode: greater(wait.mode, mode),
                });
                Ok(())
            }
        }
    }

    /// The client holds the lock, is granted one, or waits.
    #[tactic(auto, unfolding(st_rules::specs::Locks::acquire_granted))]
    fn acquire_granted(
        &mut self,
        client: ClientId,
        life: Life,
        ino: u32,
        mode: Mode,
        old: Option<LockRow>,
    ) -> Result<Verdict, LockRefusal>
        requires client { IsClient client }
        requires room { self.old.grants + 1 < 2 ^ 32 }
        requires found { locks.row_of self.old client ino ≡ old }
        requires lock { is_lock mode ≡ true }
        requires free { list_any (locks.stands_against client ino mode) self.old.rows ≡ false }
        ensures { Gives self.old self.new result (locks.acquire_granted self.old client life ino mode) }
    {
        let g = self.next_grant();
        self.grant(client, life, ino, mode, old)?;
        Ok(Verdict::Granted(g, mode))
    }

    /// The other clients that wait for the file or whose rows conflict.
    fn in_the_way(
        &self,
        client: ClientId,
        ino: u32,
        mode: Mode,
    ) -> Result<Vec<ClientId>, AllocError>
        ensures { IfOk result (λ v. v.items ≡ locks.in_the_way self.now client ino mode) }
    {
        // For their clauses `clients`: rows and waits are of clients 1 to 16.
        let _rows = self.rows.len();
        let _waits = self.waits.len();
        let waiting = self.waits.queue(ino);
        let holding = self.rows.queue(ino);
        let mut found = Vec::new(self.alloc);
        for i in 0..16u16 {
            let other = ClientId(i + 1);
            let waits = self
                .waits
                .has_in(waiting, key(other, ino), &Besides { client });
            let holds = self.rows.is_against(holding, client, ino, mode, other);
            push_if(&mut found, other, either(waits, holds))?;
        }
        Ok(found)
    }

    #[tactic(auto, unfolding(st_rules::specs::Locks::acquire_queued))]
    fn acquire_queued(
        &mut self,
        client: ClientId,
        life: Life,
        ino: u32,
        mode: Mode,
    ) -> Result<Verdict, LockRefusal>
        requires client { IsClient client }
        requires lock { is_lock mode ≡ true }
        ensures { Gives self.old self.new result (locks.acquire_queued self.old client life ino mode) }
    {
        let others = self.in_the_way(client, ino, mode)?;
        self.queue(client, life, ino, mode)?;
        Ok(Verdict::Queued(Clients::from_vec(others)))
    }

    fn may_grant(&self, client: ClientId, ino: u32, mode: Mode, grants: bool) -> bool
        ensures { result ≡ locks.may_grant self.now client ino mode grants }
    {
        grants
            && (!self.waits.any_on(ino, &Besides { client })
                && !self.rows.stands_against(client, ino, mode))
    }

    #[tactic(auto, unfolding(st_rules::specs::Locks::acquire_more))]
    fn acquire_more(
        &mut self,
        client: ClientId,
        life: Life,
        ino: u32,
        mode: Mode,
        grants: bool,
        old: Option<LockRow>,
    ) -> Result<Verdict, LockRefusal>
        requires client { IsClient client }
        requires room { self.old.grants + 1 < 2 ^ 32 }
        requires found { locks.row_of self.old client ino ≡ old }
        requires lock { is_lock mode ≡ true }
        ensures { Gives self.old self.new result (locks.acquire_more self.old client life ino mode grants) }
    {
        if self.may_grant(client, ino, mode, grants) {
            self.acquire_granted(client, life, ino, mode, old)
        } else {
            self.acquire_queued(client, life, ino, mode)
        }
    }

    /// The client has rows or waits on fewer than 1,024 files. Its waits are looked at only if
    /// it has fewer rows, and waits that could make up the number.
    fn has_few(&self, client: ClientId) -> Result<bool, AllocError>
        ensures { IfOk result (λ few. few ≡ nat_lt (length (locks.files_of self.now client)) self.now.limit) }
    {
        // For their clauses `distinct`: a client has one row and one wait of a file.
        let _rows = self.rows.len();
        let _waits = self.waits.len();
        let rows = self.rows.count(client);
        if rows >= 1024 {
            return Ok(false);
        }
        if self.waits.count(client) < 1024 - rows {
            return Ok(true);
        }
        let files = self.waits.seconds_of(self.alloc, client)?;
        Ok(count_alone(&self.rows, client, files.as_slice()) < 1024 - rows)
    }

    fn has_place(&self, client: ClientId, ino: u32) -> Result<bool, AllocError>
        ensures { IfOk result (λ has. has ≡ locks.has_place self.now client ino) }
    {
        if is_waiting(&self.waits, client, ino) {
            Ok(true)
        } else {
            self.has_few(client)
        }
    }

    #[tactic(auto, unfolding(st_rules::specs::Locks::acquire_new))]
    fn acquire_new(
        &mut self,
        client: ClientId,
        life: Life,
        ino: u32,
        mode: Mode,
        grants: bool,
    ) -> Result<Verdict, LockRefusal>
        requires client { IsClient client }
        requires room { self.old.grants + 1 < 2 ^ 32 }
        requires none { locks.row_of self.old client ino ≡ None }
        requires lock { is_lock mode ≡ true }
        ensures { Answers self.old self.new result (locks.acquire_new self.old client life ino mode grants) }
    {
        if self.has_place(client, ino)? {
            self.acquire_more(client, life, ino, mode, grants, None)
        } else {
            Err(LockRefusal::TooManyLocks)
        }
    }

    #[tactic(auto, unfolding(st_rules::specs::Locks::acquire_over, st_rules::specs::Locks::acquire_held))]
    fn acquire_over(
        &mut self,
        client: ClientId,
        life: Life,
        ino: u32,
        mode: Mode,
        grants: bool,
        row: LockRow,
    ) -> Result<Verdict, LockRefusal>
        requires client { IsClient client }
        requires room { self.old.grants + 1 < 2 ^ 32 }
        requires found { locks.row_of self.old client ino ≡ Some row }
        requires lock { is_lock mode ≡ true }
        ensures { Gives self.old self.new result (locks.acquire_over self.old client life ino mode grants row) }
    {
        if row.mode.covers(mode) {
            Ok(Verdict::Granted(row.g, row.mode))
        } else {
            self.acquire_more(client, life, ino, mode, grants, Some(row))
        }
    }

    /// The client asks for the file in this mode, S or X; `grants` tells whether new locks may be
    /// granted at all.
    ///
    /// # Errors
    /// `TooManyLocks` if the client has neither row nor wait on the file and has 1,024 files
    /// with one of them; `Memory` if memory runs out. Then nothing changed.
    #[tactic(auto, unfolding(st_rules::specs::Locks::acquire, st_rules::specs::Locks::acquire_at))]
    pub fn acquire(
        &mut self,
        client: ClientId,
        life: Life,
        ino: u32,
        mode: Mode,
        grants: bool,
    ) -> Result<Verdict, LockRefusal>
        requires client { IsClient client }
        requires room { self.old.grants + 1 < 2 ^ 32 }
        requires lock { is_lock mode ≡ true }
        ensures { Answers self.old self.new result (locks.acquire self.old client life ino mode grants) }
    {
        match self.row_at(client, ino) {
            None => self.acquire_new(client, life, ino, mode, grants),
            Some(row) => self.acquire_over(client, life, ino, mode, grants, row),
        }
    }

    /// On how many files a client may have a row or a wait.
    pub fn limit(&self) -> u64
        ensures { result ≡ self.now.limit }
    {
        let _epoch = self.epoch;
        1024
    }

    /// Whether one more lock may be granted in this epoch.
    pub fn has_room(&self) -> bool
        ensures { result ≡ nat_lt (self.now.grants + 1) (2 ^ 32) }
    {
        self.grants + 1 < 4294967296
    }

    /// The rows of a file, by rising client: the client, the grant number and the mode.
    #[tactic(auto, unfolding(st_rules::specs::Locks::holders))]
    pub fn holders(
        &self,
        alloc: Global,
        ino: u32,
    ) -> Result<Vec<(ClientId, GrantNo, Mode)>, AllocError>
        ensures { IfOk result (λ v. v.items ≡ locks.holders self.now ino) }
    {
        let clients = self.rows.clients_with(alloc, ino)?;
        let mut found = Vec::new(alloc);
        for client in clients.as_slice() {
            push_holder(&mut found, self.row_at(*client, ino))?;
        }
        Ok(found)
    }

    /// The rows of a client, by rising file: the file, the grant number and the mode.
    #[tactic(auto, unfolding(st_rules::specs::Locks::rows_of))]
    pub fn of(
        &self,
        alloc: Global,
        client: ClientId,
    ) -> Result<Vec<(u32, GrantNo, Mode)>, AllocError>
        ensures { IfOk result (λ v. v.items ≡ locks.rows_of self.now client) }
    {
        let files = self.rows.files(alloc, client)?;
        let mut found = Vec::new(alloc);
        for ino in files.as_slice() {
            push_row(&mut found, *ino, self.row_at(client, *ino))?;
        }
        Ok(found)
    }

    /// Whether somebody waits for the file.
    pub fn is_waited(&self, ino: u32) -> bool
        ensures { result ≡ is_waited self.now ino }
    {
        !self.waits.queue(ino).is_empty()
    }

    /// Whether another client waits for the file.
    pub fn is_waited_besides(&self, client: ClientId, ino: u32) -> bool
        ensures { result ≡ is_waited_besides self.now client ino }
    {
        self.waits.any_on(ino, &Besides { client })
    }

    /// The files of which the client has rows.
    pub fn row_files(&self, client: ClientId) -> &[u32]
        ensures { (i : ℕ) → is_one_of result.now i ≡ list_any (locks.is_row_of client i) self.now.rows }
    {
        self.rows.numbers(client)
    }

    /// The files for which the client waits.
    pub fn wait_files(&self, client: ClientId) -> &[u32]
        ensures { (i : ℕ) → is_one_of result.now i ≡ list_any (locks.is_wait_of client i) self.now.waiters }
    {
        self.waits.numbers(client)
    }

    /// The files for which somebody waits, in rising order.
    pub fn waited_files(&self) -> Result<Vec<u32>, AllocError>
        ensures { IfOk result (λ v. v.items ≡ locks.waited_files self.now) }
    {
        self.waits.seconds(self.alloc, &Every)
    }
}
