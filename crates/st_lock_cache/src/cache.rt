ghost use Rattle.std.specs.Prelude.{◌≡◌, ◌≤◌, true, Some, None, IfOk, OnOk, OnErr};
ghost use Rattle.st_rules.specs.Client.{is_any};
ghost use Rattle.st_rules.specs.ClientLocks as locks;
ghost use Rattle.st_lock_cache.specs.Calls.{Demands, Installs, IsCached, Reduces, no_locks_of, with_locks};

use crate::demands::{
    demand_of, demanded_files, drop_demand, has_demands, is_demanded, put_demand,
};
use crate::held_locks::{lock_of, lower_rows, push_lock, put_lock, put_over, seen_row};
use crate::rows::{LockRow, SeenRow, key};
use st_base::{GrantNo, Mode, ServerId};
use st_lease_client::{LockLoss, LocksGone};
use st_rules::{Asked, DemandedFile, HeldLock};
use st_tables::{Every, Table};
use std::alloc::{AllocError, Global};
use std::marker::Model;

/// The locks that a client has cached of one server. Contracts see them as the server and the lists
/// of the held locks, of the greatest grants seen and of the demands.
#[derive(Drop)]
pub struct LockCache {
    alloc: Global,
    server: ServerId,
    rows: Table<LockRow>,
    seen: Table<SeenRow>,
    demands: Vec<DemandedFile>,
}

impl Model for LockCache {
    ghost use Rattle.st_lock_cache.specs.Calls.{ServerLocks};

    ghost Value = { ServerLocks };

    ghost use Rattle.st_lock_cache.specs.Calls.{IsCached, tables};

    ghost view = { λ c. record { server = c.server; locks = tables c.rows c.seen c.demands.items } };

    ghost invariant = { λ c. IsCached (tables c.rows c.seen c.demands.items) };
}

/// The lesser of two modes.
fn lesser(a: Mode, b: Mode) -> Mode
    ensures { result ≡ locks.lesser a b }
{
    if b.covers(a) { a } else { b }
}

fn lesser_demand(to: Mode, demand: Option<DemandedFile>) -> Mode
    ensures { result ≡ locks.lesser_demand to demand }
{
    match demand {
        None => to,
        Some(demand) => lesser(to, demand.to),
    }
}

fn greater(a: GrantNo, b: GrantNo) -> GrantNo
    ensures { result ≡ locks.greater_grant a b }
{
    GrantNo(a.0.max(b.0))
}

impl LockCache {
    /// No locks of this server. It does not allocate.
    pub fn new(alloc: Global, server: ServerId) -> LockCache
        ensures { result ≡ no_locks_of server }
    {
        LockCache {
            alloc,
            server,
            rows: Table::new(alloc),
            seen: Table::new(alloc),
            demands: Vec::new(alloc),
        }
    }

    /// The number of files with a lock.
    pub fn count(&self) -> usize
        ensures count { result ≡ locks.count self.now.locks }
        ensures cached { IsCached self.now.locks }
    {
        // Read for what always holds of a cache (`cached`).
        let _server = &self.server;
        self.rows.len()
    }

    /// The lock on the file, if one is held. It does not allocate.
    pub fn lock(&self, ino: u32) -> Option<HeldLock>
        ensures { result ≡ locks.lock_of self.now.locks ino }
    {
        lock_of(&self.rows, ino)
    }

    /// The mode in which the file is held, which is `None` without a lock.
    pub fn mode(&self, ino: u32) -> Mode
        ensures { result ≡ locks.mode_of self.now.locks ino }
    {
        match self.lock(ino) {
            None => Mode::None,
            Some(lock) => lock.mode,
        }
    }

    /// The grant number of the file's lock, if one is held.
    pub fn grant(&self, ino: u32) -> Option<GrantNo>
        ensures { result ≡ locks.grant_of self.now.locks ino }
    {
        match self.lock(ino) {
            None => None,
            Some(lock) => Some(lock.g),
        }
    }

    /// Whether a lock of the file is demanded.
    pub fn demanded(&self, ino: u32) -> bool
        ensures { result ≡ locks.is_demanded self.now.locks ino }
    {
        is_demanded(&self.demands, ino)
    }

    /// Whether a file is demanded. It does not allocate.
    pub fn has_demands(&self) -> bool
        ensures { result ≡ is_any self.now.locks.demanded }
    {
        has_demands(&self.demands)
    }

    /// The files of which a lock is demanded, in rising order.
    pub fn demanded_files(&self) -> Result<Vec<u32>, AllocError>
        ensures { IfOk result (λ v. v.items ≡ locks.demanded_files self.now.locks) }
    {
        demanded_files(self.alloc, &self.demands)
    }

    /// The greatest grant number seen of the file, or 0.
    pub fn seen(&self, ino: u32) -> GrantNo
        ensures { result ≡ locks.seen_of self.now.locks ino }
    {
        match self.seen.get(key(ino)).copied() {
            None => GrantNo(0),
            Some(row) => row.seen.g,
        }
    }

    /// Whether the grant number is above the greatest seen of the file.
    pub fn is_above_seen(&self, ino: u32, g: GrantNo) -> bool
        ensures { result ≡ locks.is_above_seen self.now.locks ino g }
    {
        self.seen(ino).0 < g.0
    }

    /// Whether there is a place for a lock of the file: it has one already, or fewer than 1,024
    /// files do.
    pub fn has_place(&self, ino: u32) -> bool
        ensures { result ≡ locks.has_place self.now.locks ino }
    {
        self.rows.holds(key(ino)) || self.rows.len() < 1024
    }

    /// All locks, by rising file: the file, the grant number and the mode.
    #[tactic(auto, unfolding(st_rules::specs::ClientLocks::all_locks))]
    pub fn all(&self) -> Result<Vec<(u32, GrantNo, Mode)>, AllocError>
        ensures { IfOk result (λ v. v.items ≡ locks.all_locks self.now.locks) }
    {
        let files = self.rows.seconds(self.alloc, &Every)?;
        let mut found = Vec::new(self.alloc);
        for ino in files.as_slice() {
            push_lock(&mut found, self.lock(*ino))?;
        }
        Ok(found)
    }

    /// A grant above the greatest seen of the file, which is not taken, becomes the greatest seen.
    /// If the call runs out of memory, nothing changes.
    #[tactic(auto, unfolding(st_rules::specs::ClientLocks::observe))]
    pub fn observe(&mut self, ino: u32, g: GrantNo) -> Result<(), AllocError>
        requires { locks.is_above_seen self.old.locks ino g ≡ true }
        ensures ok { OnOk result (self.new ≡ with_locks (locks.observe self.old.locks ino g) self.old) }
        ensures err { OnErr result (self.new ≡ self.old) }
    {
        self.seen.put(seen_row(ino, g))?;
        Ok(())
    }

    /// A grant of the file in this mode. It is taken, and `true` is returned, exactly if its
    /// number is above the greatest seen of the file: then it is the file's lock and the greatest
    /// seen, and the file's demand is forgotten. If the call runs out of memory, nothing changes.
    #[tactic(auto, unfolding(st_rules::specs::ClientLocks::install_grant, st_rules::specs::ClientLocks::installed))]
    pub fn install(&mut self, ino: u32, g: GrantNo, mode: Mode) -> Result<bool, AllocError>
        ensures ok { IfOk result (λ taken. Installs self.old self.new taken ino g mode) }
        ensures err { OnErr result (self.new ≡ self.old) }
    {
        if self.is_above_seen(ino, g) {
            put_lock(&mut self.rows, &mut self.seen, HeldLock { ino, g, mode })?;
            drop_demand(&mut self.demands, ino);
            Ok(true)
        } else {
            Ok(false)
        }
    }

    /// A demand of a grant of which no lock is held: the greatest grant seen of the file is at
    /// least this one.
    #[tactic(auto, unfolding(st_rules::specs::ClientLocks::demand_unheld, st_rules::specs::ClientLocks::observe))]
    fn demand_unheld(&mut self, ino: u32, g: GrantNo) -> Result<Asked, AllocError>
        requires { locks.lock_of self.old.locks ino ≡ None }
        ensures ok { IfOk result (λ asked. Demands self.old self.new asked (locks.demand_unheld self.old.locks ino g)) }
        ensures err { OnErr result (self.new ≡ self.old) }
    {
        let g = greater(self.seen(ino), g);
        self.seen.put(seen_row(ino, g))?;
        Ok(Asked::NotHeld)
    }

    /// A demand of a held lock, whose grant becomes this one.
    #[tactic(auto, unfolding(st_rules::specs::ClientLocks::demand_lock))]
    fn demand_lock(
        &mut self,
        ino: u32,
        g: GrantNo,
        to: Mode,
        lock: HeldLock,
    ) -> Result<Asked, AllocError>
        requires held { locks.lock_of self.old.locks ino ≡ Some lock }
        requires below { lock.g.0 ≤ g.0 }
        ensures ok { IfOk result (λ asked. Demands self.old self.new asked (locks.demand_lock self.old.locks ino g to lock)) }
        ensures err { OnErr result (self.new ≡ self.old) }
    {
        let to = lesser_demand(to, demand_of(&self.demands, ino));
        self.demands.reserve(1)?;
        let mode = lock.mode;
        put_over(&mut self.rows, &mut self.seen, HeldLock { ino, g, mode })?;
        put_demand(&mut self.demands, DemandedFile { ino, to });
        Ok(Asked::Reduce)
    }

    #[tactic(auto, unfolding(st_rules::specs::ClientLocks::demand_held, st_rules::specs::ClientLocks::demand_stale))]
    fn demand_held(
        &mut self,
        ino: u32,
        g: GrantNo,
        to: Mode,
        lock: HeldLock,
    ) -> Result<Asked, AllocError>
        requires { locks.lock_of self.old.locks ino ≡ Some lock }
        ensures ok { IfOk result (λ asked. Demands self.old self.new asked (locks.demand_held self.old.locks ino g to lock)) }
        ensures err { OnErr result (self.new ≡ self.old) }
    {
        if lock.g.0 <= g.0 {
            self.demand_lock(ino, g, to, lock)
        } else {
            Ok(Asked::Stale)
        }
    }

    /// A demand of the file under this grant: its lock must be lowered to this mode, `None` or S.
    /// Without a lock the grant was seen. A lock of a later grant makes the demand stale. Otherwise
    /// the lock and the greatest seen have this grant, and the file is demanded, with the lesser of
    /// this mode and that of an earlier demand. If the call runs out of memory, nothing changes.
    #[tactic(auto, unfolding(st_rules::specs::ClientLocks::demand, st_rules::specs::ClientLocks::demand_at))]
    pub fn demand(&mut self, ino: u32, g: GrantNo, to: Mode) -> Result<Asked, AllocError>
        ensures ok { IfOk result (λ asked. Demands self.old self.new asked (locks.demand self.old.locks ino g to)) }
        ensures err { OnErr result (self.new ≡ self.old) }
    {
        match self.lock(ino) {
            None => self.demand_unheld(ino, g),
            Some(lock) => self.demand_held(ino, g, to, lock),
        }
    }

    /// Lowers the lock of a demanded file.
    #[tactic(auto, unfolding(st_rules::specs::ClientLocks::reduce_lock, st_rules::specs::ClientLocks::lower))]
    fn reduce_lock(&mut self, demand: DemandedFile, lock: HeldLock) -> Option<(GrantNo, Mode)>
        requires { locks.lock_of self.old.locks demand.ino ≡ Some lock }
        ensures { Reduces self.old self.new result (locks.reduce_lock self.old.locks demand (Some lock)) }
    {
        lower_rows(&mut self.rows, demand.ino, lock, demand.to);
        drop_demand(&mut self.demands, demand.ino);
        Some((lock.g, demand.to))
    }

    /// Reduces the lock of a demanded file: demanded to `None` it goes, otherwise it is shared. The
    /// demand is forgotten. It returns the lock's grant and the mode that was demanded, or `None`
    /// if the file is not demanded. It does not allocate.
    #[tactic(auto, unfolding(st_rules::specs::ClientLocks::reduce, st_rules::specs::ClientLocks::reduce_at))]
    pub fn reduce(&mut self, ino: u32) -> Option<(GrantNo, Mode)>
        ensures { Reduces self.old self.new result (locks.reduce self.old.locks ino) }
    {
        match demand_of(&self.demands, ino) {
            None => None,
            Some(demand) => self.reduce_demanded(demand),
        }
    }

    #[tactic(auto, unfolding(st_rules::specs::ClientLocks::reduce_lock))]
    fn reduce_demanded(&mut self, demand: DemandedFile) -> Option<(GrantNo, Mode)>
        ensures { Reduces self.old self.new result (locks.reduce_lock self.old.locks demand (locks.lock_of self.old.locks demand.ino)) }
    {
        match self.lock(demand.ino) {
            None => None,
            Some(lock) => self.reduce_lock(demand, lock),
        }
    }

    /// Drops the file's lock, and its demand with it. It does not allocate.
    #[tactic(auto, unfolding(st_rules::specs::ClientLocks::drop_lock))]
    pub fn drop_lock(&mut self, ino: u32)
        ensures { self.new ≡ with_locks (locks.drop_lock self.old.locks ino) self.old }
    {
        self.rows.remove(key(ino));
        drop_demand(&mut self.demands, ino);
    }

    /// Forgets all demands. It does not allocate.
    #[tactic(auto, unfolding(st_rules::specs::ClientLocks::forget_demands))]
    pub fn forget_demands(&mut self)
        ensures { self.new ≡ with_locks (locks.forget_demands self.old.locks) self.old }
    {
        self.demands.clear();
    }

    /// Forgets everything, at a loss. It does not allocate.
    pub fn clear(&mut self, loss: LockLoss) -> LocksGone
        requires { loss.server ≡ self.old.server }
        ensures locks { self.new ≡ no_locks_of self.old.server }
        ensures gone { result ≡ loss }
    {
        self.rows = Table::new(self.alloc);
        self.seen = Table::new(self.alloc);
        self.demands.clear();
        loss.done()
    }
}
