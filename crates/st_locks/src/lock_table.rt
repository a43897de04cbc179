// The lock table with the files that calls touched since the passes last walked them.
ghost use Rattle.std.specs.Prelude.{◌≡◌, ◌≤◌, ◌<◌, ◌+◌, ◌-◌, ◌^◌, ◌++◌, ◌∷◌, ◌&&◌, [], ℕ, IfOk, IfSome, OnOk, OnErr, Some, None, filter_map, find, length, false, true, nat_lt};
ghost use Rattle.std.specs.List.{IsDistinct, list_all, list_any};
ghost use Rattle.std.specs.BTreeSet.{contains};
ghost use Rattle.st_base.specs.declared.ids.ClientId.{ClientId};
ghost use Rattle.st_base.specs.declared.ids.Stamp.{Stamp};
ghost use Rattle.st_due.specs.Moments.{earliest, readable_by};
ghost use Rattle.st_due.specs.ServerDue.{demands_at, may_grant_on};
ghost use Rattle.st_rules.specs.Locks as locks;
ghost use Rattle.st_rules.specs.ServerInvariants.{IsLockTable};
ghost use Rattle.st_locks.specs.DemandStarts.{IsClient, is_since, since_of, wait_order};
ghost use Rattle.st_lock_tables.specs.Calls.{file_granted};
ghost use Rattle.st_lock_tables.specs.Overdue.{overdue_row};
ghost use Rattle.st_locks.specs.Calls.{Answers, Installs, demanding, granting, is_lock, is_lock_row, is_old_row, is_row_from, same_file, told};

use crate::parts::{LockTableParts, touch_locks, touch_rows, touch_waited, touch_waits, walked};
use crate::touched_files::TouchedFiles;
use crate::wake_times::WakeTimes;
use st_base::{ClientId, Config, Epoch, GrantNo, Life, Mode, ServerId, Stamp};
use st_lock_tables::{LockRefusal, Pass, PlainTable, Sent, Unanswered};
use st_rules::Verdict;
use std::alloc::{AllocError, Global};
use std::collections::BTreeSet;
use std::marker::Model;
use std::mem;

/// The locks of one server in one epoch. Contracts see them as the epoch, the number of grants, the
/// list of rows and the list of waiters.
#[derive(Drop)]
pub struct LockTable {
    parts: LockTableParts,
}

impl Model for LockTable {
    ghost use Rattle.st_rules.specs.Locks as locks;

    ghost Value = { locks.Locks };

    ghost use Rattle.st_locks.specs.SettledFiles.{IsSettled};

    ghost view = { λ t. t.parts.table };

    ghost invariant = { λ t. IsSettled t.parts.table t.parts.granting t.parts.demanding t.parts.waking t.parts.besides.items };
}

impl LockTable {
    /// A table without locks, of this epoch, which is from 1 to 2^32 - 1.
    pub fn new(alloc: Global, server: ServerId, epoch: Epoch) -> LockTable
        requires { epoch.0 < 2 ^ 32 }
        ensures { result ≡ locks.no_locks epoch }
    {
        LockTable {
            parts: LockTableParts {
                alloc,
                table: PlainTable::new(alloc, server, epoch),
                granting: TouchedFiles::new(alloc),
                demanding: TouchedFiles::new(alloc),
                waking: WakeTimes::new(alloc),
                besides: Vec::new(alloc),
                spare: Vec::new(alloc),
            },
        }
    }

    /// The epoch of the table. A client has one row and one wait a file, the rows of a file are
    /// compatible, and no row has a grant number that will still be given.
    pub fn epoch(&self) -> Epoch
        ensures epoch { result ≡ self.now.epoch }
        ensures valid { IsLockTable self.now }
    {
        self.parts.table.epoch()
    }

    /// How many rows there are.
    pub fn row_count(&self) -> usize
        ensures { result ≡ length self.now.rows }
    {
        self.parts.table.row_count()
    }

    /// How many waits there are.
    pub fn wait_count(&self) -> usize
        ensures { result ≡ length self.now.waiters }
    {
        self.parts.table.wait_count()
    }

    /// The grant number and the mode of the client's row of the file.
    pub fn row(&self, client: ClientId, ino: u32) -> Option<(GrantNo, Mode)>
        ensures { result ≡ told (locks.row_of self.now client ino) }
    {
        self.parts.table.row(client, ino)
    }

    /// Whether the client has a row.
    pub fn has_rows(&self, client: ClientId) -> bool
        ensures { result ≡ locks.has_rows self.now client }
    {
        self.parts.table.has_rows(client)
    }

    /// Whether the client has a row of this life or a higher one. It looks at every row.
    pub fn has_rows_from(&self, client: ClientId, life: Life) -> bool
        ensures { result ≡ list_any (is_row_from client life) self.now.rows }
    {
        self.parts.table.has_rows_from(client, life)
    }

    /// The demands that wait for an answer: since when, of which file, of which client; a row is
    /// there exactly if its demand waits.
    pub fn by_since(&self) -> &BTreeSet<Unanswered>
        ensures { (s : Stamp) (i : ℕ) (c : ClientId) → contains wait_order result.now (s, i, c) ≡ is_since s (since_of (locks.row_of self.now c i)) }
    {
        self.parts.table.by_since()
    }

    /// From which moment on a demand waits too long for its answer, except for those on rows of
    /// the suspects; none if no clock may read it. It does not allocate.
    pub fn first_overdue(&self, config: &Config, suspects: &[ClientId]) -> Option<u64>
        ensures { result ≡ readable_by (earliest (filter_map (overdue_row config.now suspects.now) self.now.rows)) }
    {
        self.parts.table.first_overdue(config, suspects)
    }

    /// Whether the first waiter of a file may be granted.
    pub fn may_grant_one(&self) -> Result<bool, AllocError>
        ensures { IfOk result (λ may. may ≡ list_any (may_grant_on self.now) (locks.waited_files self.now)) }
    {
        let files = self.parts.table.waited_files()?;
        Ok(self.parts.table.may_grant_one(files.as_slice()))
    }

    /// From which moment on a tick demands a row in the way of a first waiter, except for the rows
    /// of the suspects; none if no clock may read it.
    pub fn first_demand(
        &self,
        config: &Config,
        suspects: &[ClientId],
    ) -> Result<Option<u64>, AllocError>
        ensures { IfOk result (λ o. o ≡ readable_by (earliest (demands_at config.now self.now suspects.now))) }
    {
        let files = self.parts.table.waited_files()?;
        self.parts
            .table
            .first_demand(config, suspects, files.as_slice())
    }

    /// Room to keep which files are touched.
    fn reserve(&mut self) -> Result<(), AllocError>
        ensures { self.new ≡ self.old }
    {
        self.parts.granting.reserve()?;
        self.parts.demanding.reserve()?;
        Ok(())
    }

    /// The client asks for the file in this mode, S or X; `grants` tells whether new locks may be
    /// granted at all.
    ///
    /// # Errors
    /// `TooManyLocks` if the client has neither row nor wait on the file and has 1,024 files
    /// with one of them; `Memory` if memory runs out. Then nothing changed.
    pub fn acquire(
        &mut self,
        client: ClientId,
        life: Life,
        ino: u32,
        mode: Mode,
        grants: bool,
    ) -> Result<Verdict, LockRefusal>
        requires client { IsClient client }
        requires room { self.old.grants + 1 < 2 ^ 32 }
        requires lock { is_lock mode ≡ true }
        ensures { Answers self.old self.new result (locks.acquire self.old client life ino mode grants) }
    {
        self.reserve()?;
        let verdict = self.parts.table.acquire(client, life, ino, mode, grants);
        touch_waited(
            &self.parts.table,
            &mut self.parts.granting,
            &mut self.parts.demanding,
            ino,
        );
        verdict
    }

    /// On how many files a client may have a row or a wait.
    pub fn limit(&self) -> u64
        ensures { result ≡ self.now.limit }
    {
        self.parts.table.limit()
    }

    /// Whether one more lock may be granted in this epoch.
    pub fn has_room(&self) -> bool
        ensures { result ≡ nat_lt (self.now.grants + 1) (2 ^ 32) }
    {
        self.parts.table.has_room()
    }

    /// The rows of a file, by rising client: the client, the grant number and the mode.
    pub fn holders(&self, ino: u32) -> Result<Vec<(ClientId, GrantNo, Mode)>, AllocError>
        ensures { IfOk result (λ v. v.items ≡ locks.holders self.now ino) }
    {
        self.parts.table.holders(self.parts.alloc, ino)
    }

    /// The rows of a client, by rising file: the file, the grant number and the mode.
    pub fn of(&self, client: ClientId) -> Result<Vec<(u32, GrantNo, Mode)>, AllocError>
        ensures { IfOk result (λ v. v.items ≡ locks.rows_of self.now client) }
    {
        self.parts.table.of(self.parts.alloc, client)
    }

    /// All rows of a client are installed, or none, at the first row that conflicts with another
    /// client's.
    pub fn install(
        &mut self,
        client: ClientId,
        life: Life,
        rows: &[(u32, GrantNo, Mode)],
    ) -> Result<(), LockRefusal>
        requires client { IsClient client }
        requires distinct { IsDistinct same_file rows.now }
        requires none { locks.has_rows self.old client ≡ false }
        requires modes { list_all is_lock_row rows.now ≡ true }
        requires earlier { list_all (is_old_row self.old.epoch) rows.now ≡ true }
        ensures { Installs self.old self.new result (locks.install self.old client life rows.now) }
    {
        match self.parts.table.install(client, life, rows) {
            Ok(()) => {
                touch_rows(&self.parts.table, &mut self.parts.granting, rows);
                touch_rows(&self.parts.table, &mut self.parts.demanding, rows);
                Ok(())
            }
            Err(refusal) => {
                self.parts.granting.touch_all();
                self.parts.demanding.touch_all();
                Err(refusal)
            }
        }
    }

    /// All rows and waits of the client go.
    pub fn forget(&mut self, client: ClientId)
        ensures { self.new ≡ locks.forget self.old client }
    {
        touch_locks(&self.parts.table, &mut self.parts.granting, client);
        touch_waits(&self.parts.table, &mut self.parts.granting, client);
        touch_locks(&self.parts.table, &mut self.parts.demanding, client);
        touch_waits(&self.parts.table, &mut self.parts.demanding, client);
        self.parts.table.forget(client);
    }

    /// All waits of the client go.
    pub fn drop_waits(&mut self, client: ClientId)
        ensures { self.new ≡ locks.drop_waits self.old client }
    {
        touch_waits(&self.parts.table, &mut self.parts.granting, client);
        touch_waits(&self.parts.table, &mut self.parts.demanding, client);
        self.parts.table.drop_waits(client);
    }

    /// All waits for the file go.
    pub fn drop_file_waits(&mut self, ino: u32)
        ensures { self.new ≡ locks.drop_file_waits self.old ino }
    {
        self.parts.table.drop_file_waits(ino);
    }

    /// The client lowers its lock of the file to this mode; false exactly if it has none of this
    /// life and grant number.
    pub fn released(&mut self, client: ClientId, life: Life, ino: u32, g: GrantNo, to: Mode) -> bool
        ensures { locks.released self.old client life ino g to ≡ record { locks = self.new; found = result } }
    {
        let found = self.parts.table.released(client, life, ino, g, to);
        touch_waited(
            &self.parts.table,
            &mut self.parts.granting,
            &mut self.parts.demanding,
            ino,
        );
        found
    }

    /// The demand on the client's row of the file and grant number waits for no answer.
    pub fn answered(&mut self, client: ClientId, ino: u32, g: GrantNo)
        ensures { self.new ≡ locks.demand_seen self.old client ino g }
    {
        self.parts.table.answered(client, ino, g);
        touch_waited(
            &self.parts.table,
            &mut self.parts.granting,
            &mut self.parts.demanding,
            ino,
        );
    }

    /// The grants of one file.
    fn grant_on(&mut self, granted: &mut Vec<Sent>, ino: u32) -> Result<(), AllocError>
        requires { self.old.grants + length self.old.waiters < 2 ^ 32 }
        ensures ok { OnOk result (granting self.new granted.new.items ≡ file_granted ino (granting self.old granted.old.items)) }
        ensures room { OnOk result (self.new.grants + length self.new.waiters < 2 ^ 32) }
    {
        self.parts.granting.touch(ino);
        self.parts.demanding.touch(ino);
        match self.parts.table.grant_file(granted, ino) {
            Ok(()) => Ok(()),
            Err(error) => {
                self.parts.granting.touch_all();
                self.parts.demanding.touch_all();
                Err(error)
            }
        }
    }

    /// The grants of these files, one file after another.
    #[tactic(auto, unfolding(st_rules::specs::Locks::grant_files))]
    fn grant_each(&mut self, granted: &mut Vec<Sent>, files: &[u32]) -> Result<(), AllocError>
        requires { self.old.grants + length self.old.waiters < 2 ^ 32 }
        ensures { OnOk result (granting self.new granted.new.items ≡ locks.grant_files files.now (granting self.old granted.old.items)) }
    {
        for ino in files {
            self.grant_on(granted, *ino)?;
        }
        Ok(())
    }

    /// The grants of all files that a call touched.
    fn grant_touched(&mut self) -> Result<Vec<Sent>, AllocError>
        requires { self.old.grants + length self.old.waiters < 2 ^ 32 }
        ensures { IfOk result (λ v. locks.next_grants self.old ≡ granting self.new v.items) }
    {
        let mut granted = Vec::new(self.parts.alloc);
        let spare = mem::replace(&mut self.parts.spare, Vec::new(self.parts.alloc));
        let files = walked(
            self.parts.alloc,
            &self.parts.table,
            &self.parts.granting,
            spare,
        )?;
        self.grant_each(&mut granted, files.as_slice())?;
        self.parts.spare = files;
        Ok(granted)
    }

    /// All grants that may be made now. It looks at the rows of the files that a call touched.
    pub fn next_grants(&mut self) -> Result<Vec<Sent>, AllocError>
        requires { self.old.grants + length self.old.waiters < 2 ^ 32 }
        ensures { IfOk result (λ v. locks.next_grants self.old ≡ granting self.new v.items) }
    {
        let granted = self.grant_touched()?;
        self.parts.granting.clear();
        Ok(granted)
    }

    /// All demands that are due now; `tick` tells whether the old ones are sent once more. It looks
    /// at the rows of the files that a call touched, and on a tick of those of which a demand is
    /// old; if the suspects changed, of all that are waited for.
    pub fn demands_due(
        &mut self,
        now: Stamp,
        tick: bool,
        suspects: &[ClientId],
        config: &Config,
    ) -> Result<Vec<Sent>, AllocError>
        ensures { IfOk result (λ v. locks.demands_due self.old now tick suspects.now config.now ≡ demanding self.new v.items) }
    {
        let pass = Pass {
            config: *config,
            now,
            tick,
        };
        self.parts.demands_due(pass, suspects)
    }

    /// Whether one request more and all waiters may be granted in this epoch.
    pub fn has_room_for_waiters(&self) -> bool
        ensures { result ≡ nat_lt (self.now.grants + length self.now.waiters) (2 ^ 32 - 1) }
    {
        self.parts.table.has_room_for_waiters()
    }

    /// The clients that left a demand unanswered for the time that the settings give, in rising
    /// order. It looks at the rows of those demands and at one more, however many there are.
    pub fn unanswered(&self, now: Stamp, config: &Config) -> Result<Vec<ClientId>, AllocError>
        ensures { IfOk result (λ v. v.items ≡ locks.unanswered self.now now config.now) }
    {
        self.parts.table.unanswered(self.parts.alloc, now, *config)
    }
}
