// The lease of a session: it begins, is renewed, condemned and lost; and what its permits are spent
// for.
ghost use Rattle.std.specs.Prelude.{◌≡◌, ◌+◌, ◌<◌, ◌≤◌, ◌^◌, true, false, Some, None, IfOk, IsOk, OnOk, OnErr, is_some};
ghost use Rattle.st_base.specs.Config as settings;
ghost use Rattle.st_base.specs.Nodes.{HasNode};
ghost use Rattle.st_client_session.specs.Sessions.{lasts, with_session};
ghost use Rattle.st_lease_client.specs.Standings.{kind_of, moment_of, server_of};
ghost use Rattle.st_lease_client.specs.ServerLease.{closed};
ghost use Rattle.st_rules.specs.ClientLease as leases;
ghost use Rattle.st_rules.specs.ClientPages as pages;
ghost use Rattle.st_rules.specs.ClientReplies as replies;
ghost use Rattle.st_rules.specs.ClientState as client;
ghost use Rattle.st_rules.specs.declared.client.IoKind.TheVariants as kinds;
ghost use Rattle.st_client_store.specs.Stores.{Changes, empty_store_of, with_commands, with_pages};

use crate::session::Session;
use st_base::{ClientId, Config, Epoch, Life, PageBytes, PageNo, ServerId, Stamp};
use st_client_store::{CacheRefusal, Store};
use st_lease_client::{Lease, LossPermit, Standing, UsePermit};
use st_lock_cache::LockCache;
use st_requests::Requests;
use std::alloc::{AllocError, Global};

/// Gives a standing back, if the lease is not over.
fn close(lease: &mut Lease, standing: Standing)
    requires server { server_of standing ≡ lease.old.server }
    requires lasting { leases.must_discard (kind_of standing) ≡ false }
    ensures { lease.new ≡ lease.old }
{
    match standing {
        Standing::Idle(receipt) => lease.close(receipt),
        Standing::Serve(permit) => lease.close(permit.spend()),
        Standing::Hold(permit) => lease.close(permit.spend()),
        Standing::Drain(permit) => lease.close(permit.spend()),
        Standing::Lost(permit) => {
            discard(lease, permit);
            unreachable!()
        }
    }
}

/// Spends what a lost lease gives: no lease is held then.
fn discard(lease: &mut Lease, permit: LossPermit)
    requires { permit.server ≡ lease.old.server }
    ensures { lease.new ≡ closed lease.old }
{
    let (pages, locks, commands) = permit.split();
    let receipt = lease.close_lost(pages.done(), locks.done(), commands.done());
    lease.close(receipt);
}

/// A lease that begins now.
fn begun(server: ServerId, config: &Config, stamp: Stamp, now: Stamp) -> Lease
    requires checked { IsOk (settings.check config.now) }
    requires past { stamp.0 ≤ now.0 }
    requires living { now.0 < stamp.0 + config.now.lease }
    requires reading { now.0 ≤ 2 ^ 62 }
    ensures { result ≡ record { server = server; config = config.now; lease = Some (leases.new_lease stamp) } }
{
    let mut lease = Lease::none(server, config);
    match lease.settle(now) {
        Standing::Idle(receipt) => {
            let standing = lease.begin(receipt, stamp, now);
            close(&mut lease, standing);
            lease
        }
        standing => {
            close(&mut lease, standing);
            unreachable!()
        }
    }
}

impl Session {
    /// A session begins in this epoch. Its lease has this stamp, and is not over yet.
    pub fn begin(
        alloc: Global,
        client: ClientId,
        server: ServerId,
        life: Life,
        config: &Config,
        epoch: Epoch,
        stamp: Stamp,
        now: Stamp,
    ) -> Session
        requires checked { IsOk (settings.check config.now) }
        requires node { HasNode server }
        requires past { stamp.0 ≤ now.0 }
        requires living { now.0 < stamp.0 + config.now.lease }
        requires reading { now.0 ≤ 2 ^ 62 }
        ensures { result ≡ record { of = record { client = client; server = server; life = life; config = config.now }; session = replies.new_session epoch stamp } }
    {
        Session {
            life,
            epoch,
            date: stamp,
            condemned: false,
            lease: begun(server, config, stamp, now),
            requests: Requests::new(client, server, config.retry),
            cutting: None,
            due: false,
            locks: LockCache::new(alloc, server),
            waits: Vec::new(alloc),
            releases: Vec::new(alloc),
        }
    }

    /// The lease's phase, with what that permits.
    fn settle(&mut self, now: Stamp) -> Standing
        ensures kind { kind_of result ≡ leases.standing_of self.old.of.config self.old.session.lease now }
        ensures server { server_of result ≡ self.old.of.server }
        ensures moment { moment_of result ≡ now }
        ensures stays { self.new ≡ self.old }
    {
        self.lease.settle(now)
    }

    /// Gives a standing back.
    fn close(&mut self, standing: Standing)
        requires server { server_of standing ≡ self.old.of.server }
        requires lasting { leases.must_discard (kind_of standing) ≡ false }
        ensures { self.new ≡ self.old }
    {
        close(&mut self.lease, standing);
    }

    /// The permit to read and write pages.
    fn permit(&mut self, now: Stamp) -> UsePermit
        requires { client.is_serving self.old.of.config self.old.session now ≡ true }
        ensures server { result.server ≡ self.old.of.server }
        ensures stays { self.new ≡ self.old }
    {
        match self.settle(now) {
            Standing::Serve(permit) => permit,
            standing => {
                self.close(standing);
                unreachable!()
            }
        }
    }

    fn give_back(&mut self, permit: UsePermit)
        requires { permit.server ≡ self.old.of.server }
        ensures { self.new ≡ self.old }
    {
        self.lease.close(permit.spend());
    }

    /// Changes a page of the store.
    pub fn change(
        &mut self,
        now: Stamp,
        store: &mut Store,
        ino: u32,
        page: PageNo,
        bytes: &PageBytes,
    ) -> Result<(), CacheRefusal>
        requires serving { client.is_serving self.old.of.config self.old.session now ≡ true }
        requires server { store.old.server ≡ self.old.of.server }
        requires room { store.old.store.pages.next_version + 1 < 2 ^ 64 }
        ensures changed { Changes store.old store.new result ino page (pages.write store.old.store.pages ino page bytes.now) }
        ensures stays { self.new ≡ self.old }
    {
        let permit = self.permit(now);
        let changed = store.change(&permit, ino, page, bytes);
        self.give_back(permit);
        changed
    }

    /// Reads a page of the store: `None` if it is neither dirty nor clean. A clean page becomes
    /// the newest one.
    pub fn read(
        &mut self,
        now: Stamp,
        store: &mut Store,
        ino: u32,
        page: PageNo,
    ) -> Result<Option<PageBytes>, AllocError>
        requires serving { client.is_serving self.old.of.config self.old.session now ≡ true }
        requires server { store.old.server ≡ self.old.of.server }
        ensures used { store.new ≡ with_pages (pages.use_page store.old.store.pages ino page) store.old }
        ensures bytes { IfOk result (λ bytes. bytes ≡ pages.cached store.old.store.pages ino page) }
        ensures stays { self.new ≡ self.old }
    {
        let permit = self.permit(now);
        let bytes = store.read(&permit, ino, page);
        self.give_back(permit);
        bytes
    }

    /// The bytes that a patch of a page of the store changes: `None` if the page is neither
    /// dirty nor clean.
    pub fn base(
        &mut self,
        now: Stamp,
        store: &Store,
        ino: u32,
        page: PageNo,
    ) -> Result<Option<PageBytes>, AllocError>
        requires serving { client.is_serving self.old.of.config self.old.session now ≡ true }
        requires server { store.now.server ≡ self.old.of.server }
        ensures bytes { IfOk result (λ bytes. bytes ≡ pages.cached store.now.store.pages ino page) }
        ensures stays { self.new ≡ self.old }
    {
        let permit = self.permit(now);
        let bytes = store.base(&permit, ino, page);
        self.give_back(permit);
        bytes
    }

    /// A read of a page becomes outstanding under this number.
    pub fn begin_read(
        &mut self,
        now: Stamp,
        store: &mut Store,
        number: u64,
        ino: u32,
        page: PageNo,
    ) -> Result<(), AllocError>
        requires lasting { lasts self.old now ≡ true }
        requires server { store.old.server ≡ self.old.of.server }
        requires clean { pages.dirty_of store.old.store.pages ino page ≡ None }
        requires page { pages.is_being_read store.old.store.commands ino page ≡ false }
        requires number { pages.command_of store.old.store.commands number ≡ None }
        ensures ok { OnOk result (store.new ≡ with_commands (pages.begin_command store.old.store.commands number ino page kinds.Read) store.old) }
        ensures err { OnErr result (store.new ≡ store.old) }
        ensures stays { self.new ≡ self.old }
    {
        match self.settle(now) {
            Standing::Serve(permit) => {
                let begun = store.begin_read(permit.submit(), number, ino, page);
                self.lease.close(permit.spend());
                begun
            }
            Standing::Hold(permit) => {
                let begun = store.begin_read(permit.submit(), number, ino, page);
                self.lease.close(permit.spend());
                begun
            }
            Standing::Drain(permit) => {
                let begun = store.begin_read(permit.submit(), number, ino, page);
                self.lease.close(permit.spend());
                begun
            }
            standing => {
                self.close(standing);
                unreachable!()
            }
        }
    }

    /// A write of this version of a dirty page becomes outstanding under this number.
    pub fn begin_write(
        &mut self,
        now: Stamp,
        store: &mut Store,
        number: u64,
        ino: u32,
        page: PageNo,
        version: u64,
    ) -> Result<(), AllocError>
        requires lasting { lasts self.old now ≡ true }
        requires server { store.old.server ≡ self.old.of.server }
        requires dirty { is_some (pages.dirty_of store.old.store.pages ino page) ≡ true }
        requires page { pages.is_being_written store.old.store.commands ino page ≡ false }
        requires number { pages.command_of store.old.store.commands number ≡ None }
        ensures ok { OnOk result (store.new ≡ with_commands (pages.begin_command store.old.store.commands number ino page (kinds.Write version)) store.old) }
        ensures err { OnErr result (store.new ≡ store.old) }
        ensures stays { self.new ≡ self.old }
    {
        match self.settle(now) {
            Standing::Serve(permit) => {
                let begun = store.begin_write(permit.submit(), number, ino, page, version);
                self.lease.close(permit.spend());
                begun
            }
            Standing::Hold(permit) => {
                let begun = store.begin_write(permit.submit(), number, ino, page, version);
                self.lease.close(permit.spend());
                begun
            }
            Standing::Drain(permit) => {
                let begun = store.begin_write(permit.submit(), number, ino, page, version);
                self.lease.close(permit.spend());
                begun
            }
            standing => {
                self.close(standing);
                unreachable!()
            }
        }
    }

    /// The lease is renewed, if it is not condemned and the stamp is later than its date.
    #[tactic(auto, unfolding(st_rules::specs::ClientLease::renewed, st_rules::specs::ClientLease::dated))]
    pub fn renew(&mut self, stamp: Stamp, now: Stamp)
        requires lasting { lasts self.old now ≡ true }
        requires past { stamp.0 ≤ now.0 }
        requires reading { now.0 ≤ 2 ^ 62 }
        ensures { self.new ≡ with_session (replies.with_renewed stamp self.old.session) self.old }
    {
        let renewed = self.is_renewed_by(stamp);
        let standing = self.settle(now);
        let standing = self.lease.renew(standing, stamp, now);
        close(&mut self.lease, standing);
        if renewed {
            self.date = stamp;
        }
    }

    /// The lease is no longer renewed.
    #[tactic(auto, unfolding(st_rules::specs::ClientLease::condemned))]
    pub fn condemn(&mut self, now: Stamp)
        requires lasting { lasts self.old now ≡ true }
        ensures { self.new ≡ with_session (client.with_lease (leases.condemned self.old.session.lease) self.old.session) self.old }
    {
        let standing = self.settle(now);
        let standing = self.lease.condemn(standing);
        close(&mut self.lease, standing);
        self.condemned = true;
    }

    /// The lease is over: pages, locks and commands are discarded, and the session ends.
    pub fn end_lost(self, store: &mut Store, now: Stamp)
        requires over { lasts self now ≡ false }
        requires server { store.old.server ≡ self.of.server }
        ensures { store.new ≡ empty_store_of store.old.server }
    {
        let Session {
            mut lease,
            mut locks,
            ..
        } = self;
        match lease.settle(now) {
            Standing::Lost(permit) => {
                let (pages, rows, commands) = permit.split();
                let (pages, commands) = store.clear(pages, commands);
                let rows = locks.clear(rows);
                let receipt = lease.close_lost(pages, rows, commands);
                lease.close(receipt);
            }
            standing => {
                close(&mut lease, standing);
                unreachable!()
            }
        }
    }
}
