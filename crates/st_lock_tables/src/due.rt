// From which moment on a tick grants a lock or sends a demand.
ghost use Rattle.std.specs.Prelude.{◌≡◌, Some, filter_map, IfOk};
ghost use Rattle.std.specs.List.{flat_map, list_any};
ghost use Rattle.st_due.specs.Moments.{earliest, readable, readable_by};
ghost use Rattle.st_lock_tables.specs.Overdue as overdue;
ghost use Rattle.st_due.specs.ServerDue.{demand_at, demand_of_client, demands_for, demands_on, may_grant_on};

use crate::passes::{is_among, wish};
use crate::table::{PlainTable, either};
use crate::unanswered::Unanswered;
use st_base::{ClientId, Config, Mode};
use st_due::{after, sooner};
use st_rules::{RowDemand, Waiter};
use std::alloc::AllocError;
use std::collections::BTreeSet;

/// When a row that was demanded so is demanded down to this mode.
fn demand_due(config: &Config, to: Mode, demand: Option<RowDemand>) -> Option<u64>
    ensures { result ≡ readable (demand_at config.now to demand) }
{
    match demand {
        None => Some(0),
        Some(d) => {
            if to.number() < d.to.number() {
                Some(0)
            } else {
                after(d.sent, config.retry)
            }
        }
    }
}

/// When a demand that waits is overdue, unless it is on a row of a suspect.
fn overdue_wait(config: &Config, suspects: &[ClientId], demand: Unanswered) -> Option<u64>
    ensures { result ≡ readable_by (overdue.overdue_wait config.now suspects.now demand) }
{
    if is_among(suspects, demand.2) {
        None
    } else {
        after(demand.0, config.demand)
    }
}

/// When the first of these demands is overdue, except for those on rows of the suspects.
#[tactic(auto, using(st_due::proofs::EarliestFound::sooner_none))]
fn first_wait(config: &Config, suspects: &[ClientId], waits: &BTreeSet<Unanswered>) -> Option<u64>
    ensures { result ≡ readable_by (earliest (filter_map (overdue.overdue_wait config.now suspects.now) waits.now.keys)) }
{
    let mut first = None;
    for demand in waits.iter() {
        first = sooner(first, overdue_wait(config, suspects, *demand));
    }
    first
}

impl PlainTable {
    /// From which moment on a demand waits too long for its answer, except for those on rows of
    /// the suspects; none if no clock may read it. It does not allocate.
    pub fn first_overdue(&self, config: &Config, suspects: &[ClientId]) -> Option<u64>
        ensures { result ≡ readable_by (earliest (filter_map (overdue.overdue_row config.now suspects.now) self.now.rows)) }
    {
        // For its clause `distinct`: a client has one row of a file.
        let _rows = self.rows.len();
        first_wait(config, suspects, self.rows.by_since())
    }

    /// Whether the first waiter of the file may be granted.
    fn may_grant_on(&self, ino: u32) -> bool
        ensures { result ≡ may_grant_on self.now ino }
    {
        self.next_waiter(ino).is_some()
    }

    /// Whether the first waiter of one of these files may be granted.
    pub fn may_grant_one(&self, files: &[u32]) -> bool
        ensures { result ≡ list_any (may_grant_on self.now) files.now }
    {
        let mut found = false;
        for ino in files {
            found = either(found, self.may_grant_on(*ino));
        }
        found
    }

    /// When the client's row of the file, if there is one, is demanded down to this mode.
    fn row_due(&self, config: &Config, ino: u32, to: Mode, client: ClientId) -> Option<u64>
        ensures { result ≡ readable_by (demand_of_client config.now self.now ino to client) }
    {
        match self.row_at(client, ino) {
            None => None,
            Some(row) => demand_due(config, to, row.demand),
        }
    }

    /// When the first of these clients' rows of the file is demanded down to this mode.
    fn rows_due(&self, config: &Config, ino: u32, to: Mode, clients: &[ClientId]) -> Option<u64>
        ensures { result ≡ readable_by (earliest (filter_map (demand_of_client config.now self.now ino to) clients.now)) }
    {
        let mut first = None;
        for client in clients {
            first = sooner(first, self.row_due(config, ino, to, *client));
        }
        first
    }

    /// When the first row in the way of a wait is demanded.
    fn wait_due(
        &self,
        config: &Config,
        suspects: &[ClientId],
        w: Waiter,
    ) -> Result<Option<u64>, AllocError>
        ensures { IfOk result (λ o. o ≡ readable_by (earliest (demands_for config.now self.now suspects.now (Some w)))) }
    {
        let clients = self.to_demand(suspects, w)?;
        Ok(self.rows_due(config, w.ino, wish(w.mode), clients.as_slice()))
    }

    /// When the first row in the way of the file's first waiter is demanded.
    fn file_due(
        &self,
        config: &Config,
        suspects: &[ClientId],
        ino: u32,
    ) -> Result<Option<u64>, AllocError>
        ensures { IfOk result (λ o. o ≡ readable_by (earliest (demands_on config.now self.now suspects.now ino))) }
    {
        match self.waits.first_on(ino) {
            None => Ok(None),
            Some(w) => self.wait_due(config, suspects, w),
        }
    }

    /// From which moment on a tick demands a row in the way of the first waiter of one of these
    /// files, except for the rows of the suspects; none if no clock may read it.
    pub fn first_demand(
        &self,
        config: &Config,
        suspects: &[ClientId],
        files: &[u32],
    ) -> Result<Option<u64>, AllocError>
        ensures { IfOk result (λ o. o ≡ readable_by (earliest (flat_map (demands_on config.now self.now suspects.now) files.now))) }
    {
        let mut first = None;
        for ino in files {
            let due = self.file_due(config, suspects, *ino)?;
            first = sooner(first, due);
        }
        Ok(first)
    }
}
