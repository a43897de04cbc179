// The passes of a server's step: grants to those who wait, demands, and demands that went
// unanswered.
ghost use Rattle.std.specs.Prelude.{◌≡◌, ◌≤◌, ◌<◌, ◌+◌, ◌-◌, ◌^◌, ◌++◌, ◌∷◌, ◌&&◌, [], IfOk, IfSome, OnOk, OnErr, Some, find, filter, map, not, length, slice_get, None, false, true, nat_lt, nat_le, ◌==◌, if◌then◌else◌};
ghost use Rattle.std.specs.List.{IsDistinct, list_any};
ghost use Rattle.std.specs.Option.{option_copied, option_map, option_to_list};
ghost use Rattle.st_rules.specs.Keys as keys;
ghost use Rattle.st_rules.specs.Locks as locks;
ghost use Rattle.st_lock_tables.specs.DemandStarts.{IsClient, KeepsSince, since_of_demand};
ghost use Rattle.st_lock_tables.specs.Calls.{demanding, file_demanded, file_granted, granting, is_lock, row_demanded, rows_demanded, wait_demanded};
ghost use Rattle.st_lock_tables.specs.WaitedFiles.{to_demand_on};

use crate::table::{PlainTable, push_if};
use crate::unanswered::passed;
use st_base::{ClientId, Config, GrantNo, Life, Mode, Stamp};
use st_rules::{LockRow, RowDemand, Waiter};
use std::alloc::{AllocError, Global};

/// A grant or a demand: the client, its life, the file, the grant number and the mode.
pub type Sent = (ClientId, Life, u32, GrantNo, Mode);

/// One demanding pass: the settings, the moment, and whether it is on a tick.
#[derive(Clone, Copy)]
pub struct Pass {
    pub config: Config,
    pub now: Stamp,
    pub tick: bool,
}

#[tactic(auto, unfolding(st_rules::specs::Locks::demanded))]
fn demanded(row: LockRow, d: RowDemand) -> LockRow
    ensures demanded { result ≡ locks.demanded d row }
    ensures demand { result.demand ≡ Some d }
    ensures same { (result.client ≡ row.client) × (result.ino ≡ row.ino) }
{
    LockRow {
        ino: row.ino,
        client: row.client,
        life: row.life,
        g: row.g,
        mode: row.mode,
        demand: Some(d),
    }
}

fn waiting_since(now: Stamp, since: Option<Stamp>) -> Option<Stamp>
    ensures since { result ≡ locks.waiting_since now since }
    ensures kept { KeepsSince since result }
{
    match since {
        None => Some(now),
        Some(since) => Some(since),
    }
}

fn sent_again(now: Stamp, to: Mode, d: RowDemand) -> RowDemand
    ensures again { result ≡ locks.sent_again now to d }
    ensures kept { KeepsSince d.since result.since }
{
    RowDemand {
        to,
        sent: now,
        since: waiting_since(now, d.since),
    }
}

#[tactic(auto, unfolding(st_rules::specs::Locks::demand_again))]
fn demand_again(pass: Pass, d: RowDemand) -> Option<RowDemand>
    ensures again { result ≡ locks.demand_again pass.config pass.now pass.tick d }
    ensures kept { IfSome result (λ e. KeepsSince d.since e.since) }
{
    if pass.tick && passed(d.sent, pass.config.retry, pass.now) {
        Some(sent_again(pass.now, d.to, d))
    } else {
        None
    }
}

#[tactic(auto, unfolding(st_rules::specs::Locks::demand_lower))]
fn demand_lower(pass: Pass, to: Mode, d: RowDemand) -> Option<RowDemand>
    ensures lower { result ≡ locks.demand_lower pass.config pass.now pass.tick to d }
    ensures kept { IfSome result (λ e. KeepsSince d.since e.since) }
{
    if to.number() < d.to.number() {
        Some(sent_again(pass.now, to, d))
    } else {
        demand_again(pass, d)
    }
}

/// The demand that is sent now, if one is.
#[tactic(auto, unfolding(st_rules::specs::Locks::demand_now))]
fn demand_now(pass: Pass, to: Mode, demand: Option<RowDemand>) -> Option<RowDemand>
    ensures now { result ≡ locks.demand_now pass.config pass.now pass.tick to demand }
    ensures kept { IfSome result (λ d. KeepsSince (since_of_demand demand) d.since) }
{
    match demand {
        None => Some(RowDemand {
            to,
            sent: pass.now,
            since: Some(pass.now),
        }),
        Some(d) => demand_lower(pass, to, d),
    }
}

pub(crate) fn wish(mode: Mode) -> Mode
    ensures { result ≡ locks.wish mode }
{
    match mode {
        Mode::X => Mode::None,
        _ => Mode::S,
    }
}

pub(crate) fn is_among(clients: &[ClientId], client: ClientId) -> bool
    ensures { result ≡ locks.is_among clients.now client }
{
    clients.iter().any(|c| c.0 == client.0)
}

fn drop_among(clients: &mut Vec<ClientId>, suspects: &[ClientId])
    ensures { clients.new.items ≡ filter (λ c. not (locks.is_among suspects.now c)) clients.old.items }
{
    clients.retain(|c| !is_among(suspects, *c));
}

impl PlainTable {
    /// The first waiter of the file, if no other client's row conflicts.
    pub(crate) fn next_waiter(&self, ino: u32) -> Option<Waiter>
        ensures next { result ≡ locks.next_waiter self.now ino }
        ensures client { IfSome result (λ w. IsClient w.client) }
        ensures lock { IfSome result (λ w. is_lock w.mode ≡ true) }
        ensures free { IfSome result (λ w. list_any (locks.stands_against w.client w.ino w.mode) self.now.rows ≡ false) }
    {
        // For its clause `clients`: whoever waits is one of clients 1 to 16.
        let _waits = self.waits.len();
        let w = self.waits.first_on(ino)?;
        if self.rows.stands_against(w.client, w.ino, w.mode) {
            None
        } else {
            Some(w)
        }
    }

    #[tactic(auto, unfolding(st_rules::specs::Locks::grant_waiter))]
    fn grant_waiter(&mut self, granted: &mut Vec<Sent>, w: Waiter) -> Result<(), AllocError>
        requires client { IsClient w.client }
        requires room { self.old.grants + 1 < 2 ^ 32 }
        requires lock { is_lock w.mode ≡ true }
        requires free { list_any (locks.stands_against w.client w.ino w.mode) self.old.rows ≡ false }
        ensures { OnOk result (granting self.new granted.new.items ≡ locks.grant_waiter (granting self.old granted.old.items) w) }
    {
        let g = self.next_grant();
        let old = self.row_at(w.client, w.ino);
        self.grant(w.client, w.life, w.ino, w.mode, old)?;
        granted.push((w.client, w.life, w.ino, g, w.mode))?;
        Ok(())
    }

    /// Grants to the waiters of the file, the first one first, as long as no other client's row
    /// conflicts.
    #[tactic(auto, unfolding(st_rules::specs::Locks::grant_file))]
    pub fn grant_file(&mut self, granted: &mut Vec<Sent>, ino: u32) -> Result<(), AllocError>
        requires { self.old.grants + length self.old.waiters < 2 ^ 32 }
        ensures ok { OnOk result (granting self.new granted.new.items ≡ file_granted ino (granting self.old granted.old.items)) }
        ensures room { OnOk result (self.new.grants + length self.new.waiters < 2 ^ 32) }
    {
        let most = self.waits.len();
        let mut left = most;
        while left > 0 {
            let Some(w) = self.next_waiter(ino) else {
                return Ok(());
            };
            self.grant_waiter(granted, w)?;
            left -= 1;
        }
        Ok(())
    }

    #[tactic(auto, unfolding(st_rules::specs::Locks::demand_with, st_rules::specs::Locks::demanded))]
    fn demand_with(
        &mut self,
        due: &mut Vec<Sent>,
        row: LockRow,
        d: RowDemand,
    ) -> Result<(), AllocError>
        requires row { locks.row_of self.old row.client row.ino ≡ Some row }
        requires kept { KeepsSince (since_of_demand row.demand) d.since }
        ensures { OnOk result (demanding self.new due.new.items ≡ locks.demand_with (demanding self.old due.old.items) row (Some d)) }
    {
        self.rows.demand(row, demanded(row, d))?;
        due.push((row.client, row.life, row.ino, row.g, d.to))?;
        Ok(())
    }

    /// The client's row of the file is demanded, if that is due.
    #[tactic(auto, unfolding(st_rules::specs::Locks::demand_row, st_rules::specs::Locks::demand_with))]
    fn demand_row(
        &mut self,
        due: &mut Vec<Sent>,
        pass: Pass,
        to: Mode,
        client: ClientId,
        ino: u32,
    ) -> Result<(), AllocError>
        ensures { OnOk result (demanding self.new due.new.items ≡ row_demanded pass to client ino (demanding self.old due.old.items)) }
    {
        match self.row_at(client, ino) {
            None => Ok(()),
            Some(row) => match demand_now(pass, to, row.demand) {
                None => Ok(()),
                Some(d) => self.demand_with(due, row, d),
            },
        }
    }

    #[tactic(auto, unfolding(st_rules::specs::Locks::demand_clients))]
    fn demand_clients(
        &mut self,
        due: &mut Vec<Sent>,
        pass: Pass,
        ino: u32,
        to: Mode,
        clients: &[ClientId],
    ) -> Result<(), AllocError>
        ensures { OnOk result (demanding self.new due.new.items ≡ rows_demanded pass ino to clients.now (demanding self.old due.old.items)) }
    {
        for client in clients {
            self.demand_row(due, pass, to, *client, ino)?;
        }
        Ok(())
    }

    pub(crate) fn to_demand(
        &self,
        suspects: &[ClientId],
        w: Waiter,
    ) -> Result<Vec<ClientId>, AllocError>
        ensures { IfOk result (λ v. v.items ≡ locks.to_demand self.now suspects.now w) }
    {
        let alloc = self.alloc;
        let mut clients = self.rows.clients_against(alloc, w.client, w.ino, w.mode)?;
        drop_among(&mut clients, suspects);
        Ok(clients)
    }

    /// The rows in the way of a wait are demanded, except for those of the suspects.
    #[tactic(auto, unfolding(st_rules::specs::Locks::demand_for))]
    fn demand_wait(
        &mut self,
        due: &mut Vec<Sent>,
        pass: Pass,
        suspects: &[ClientId],
        w: Waiter,
    ) -> Result<Vec<ClientId>, AllocError>
        ensures due { OnOk result (demanding self.new due.new.items ≡ wait_demanded pass suspects.now w (demanding self.old due.old.items)) }
        ensures clients { IfOk result (λ v. v.items ≡ locks.to_demand self.old suspects.now w) }
    {
        let clients = self.to_demand(suspects, w)?;
        self.demand_clients(due, pass, w.ino, wish(w.mode), clients.as_slice())?;
        Ok(clients)
    }

    /// The rows in the way of the file's first waiter are demanded, except for those of the
    /// suspects. Returns the clients of these rows, in rising order.
    #[tactic(auto, unfolding(st_rules::specs::Locks::demand_for))]
    pub fn demand_for(
        &mut self,
        due: &mut Vec<Sent>,
        pass: Pass,
        suspects: &[ClientId],
        ino: u32,
    ) -> Result<Vec<ClientId>, AllocError>
        ensures due { OnOk result (demanding self.new due.new.items ≡ file_demanded pass suspects.now ino (demanding self.old due.old.items)) }
        ensures clients { IfOk result (λ v. v.items ≡ to_demand_on self.old suspects.now ino) }
    {
        match self.waits.first_on(ino) {
            None => Ok(Vec::new(self.alloc)),
            Some(w) => self.demand_wait(due, pass, suspects, w),
        }
    }

    /// Whether one request more and all waiters may be granted in this epoch.
    pub fn has_room_for_waiters(&self) -> bool
        ensures { result ≡ nat_lt (self.now.grants + length self.now.waiters) (2 ^ 32 - 1) }
    {
        self.grants + (self.waits.len() as u64) < 4294967295
    }

    /// The clients that left a demand unanswered for the time that the settings give, in rising
    /// order. It looks at the rows of those demands and at one more, however many there are.
    #[tactic(auto, unfolding(st_rules::specs::Locks::unanswered))]
    pub fn unanswered(
        &self,
        alloc: Global,
        now: Stamp,
        config: Config,
    ) -> Result<Vec<ClientId>, AllocError>
        ensures { IfOk result (λ v. v.items ≡ locks.unanswered self.now now config) }
    {
        // For its clause `clients`: the rows are of clients 1 to 16.
        let _rows = self.rows.len();
        let late = self.rows.overdue(now, config);
        let mut found = Vec::new(alloc);
        for i in 0..16u16 {
            push_if(&mut found, ClientId(i + 1), late[i as usize + 1])?;
        }
        Ok(found)
    }
}
