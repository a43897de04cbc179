ghost use Rattle.std.specs.Prelude.{◌≡◌, ◌+◌, ◌<◌, ◌≤◌, ◌^◌, IsOk, None, true};
ghost use Rattle.st_base.specs.Config as settings;
ghost use Rattle.st_rules.specs.ClientLease.{may_renew};
ghost use Rattle.st_lease_client.specs.ServerLease as leases;
ghost use Rattle.st_lease_client.specs.Standings.{kind_of, moment_of, server_of};

use crate::held_lease::HeldLease;
use crate::losses::{CommandsGone, LocksGone, PagesGone};
use crate::permits::{Receipt, SettledAt};
use crate::standing::Standing;
use st_base::{Config, ServerId, Stamp};
use st_rules::{Phase, StandingKind};
use std::marker::Model;

/// A client's lease at one server. Contracts see it as the server, the settings, and the lease that
/// is held, if one is. No call allocates.
#[derive(Drop)]
pub struct Lease {
    server: ServerId,
    config: Config,
    held: Option<HeldLease>,
}

impl Model for Lease {
    ghost use Rattle.std.specs.Prelude.{IsOk};
    ghost use Rattle.st_base.specs.Config as checks;
    ghost use Rattle.st_lease_client.specs.ServerLease.{ServerLease};

    ghost Value = { ServerLease };

    ghost view = { λ l. record { server = l.server; config = l.config; lease = l.held } };

    ghost invariant = { λ l. IsOk (checks.check l.config) };
}

impl Lease {
    /// No lease is held yet.
    pub fn none(server: ServerId, config: &Config) -> Lease
        requires checked { IsOk (settings.check config.now) }
        ensures { result ≡ leases.no_lease server config.now }
    {
        Lease {
            server,
            config: *config,
            held: None,
        }
    }

    /// The phase of the lease at a moment, or `None` if no lease is held.
    pub fn phase(&self, now: Stamp) -> Option<Phase>
        ensures { result ≡ leases.phase self.now now }
    {
        let held = self.held?;
        Some(held.phase(&self.config, now))
    }

    /// The moment from which the lease is over, or `None` if no lease is held.
    pub fn end(&self) -> Option<Stamp>
        ensures { result ≡ leases.end self.now }
    {
        let held = self.held?;
        Some(held.end(&self.config))
    }

    fn kind(&self, now: Stamp) -> StandingKind
        ensures { result ≡ leases.kind self.now now }
    {
        match self.held {
            None => StandingKind::Idle,
            Some(held) => held.standing(&self.config, now),
        }
    }

    fn standing(&self, now: Stamp) -> Standing
        ensures { result ≡ leases.settled self.now now }
    {
        let at = SettledAt {
            server: self.server,
            moment: now,
        };
        Standing::new(self.kind(now), at)
    }

    /// The lease's phase at a moment, with what that permits. The lease stays as it is.
    pub fn settle(&mut self, now: Stamp) -> Standing
        ensures stays { self.new ≡ self.old }
        ensures standing { result ≡ leases.settled self.old now }
    {
        self.standing(now)
    }

    /// A lease begins, dated from the sending of the greeting that was answered.
    pub fn begin(&mut self, receipt: Receipt, stamp: Stamp, now: Stamp) -> Standing
        requires server { receipt.server ≡ self.old.server }
        requires free { self.old.lease ≡ None }
        requires past { stamp.0 ≤ now.0 }
        requires living { now.0 < stamp.0 + self.old.config.lease }
        requires reading { now.0 ≤ 2 ^ 62 }
        ensures lease { self.new ≡ leases.begun stamp self.old }
        ensures standing { result ≡ leases.settled self.new now }
    {
        // The receipt is spent; where it was given does not matter.
        let _at = receipt.spend();
        self.held = Some(HeldLease::new(stamp));
        self.standing(now)
    }

    /// Renews the lease: its date becomes the stamp, if the lease is not condemned and the stamp
    /// is later. The standing is given back as it is then, at its own moment.
    pub fn renew(&mut self, standing: Standing, stamp: Stamp, now: Stamp) -> Standing
        requires server { server_of standing ≡ self.old.server }
        requires permitted { may_renew (kind_of standing) ≡ true }
        requires past { stamp.0 ≤ now.0 }
        requires moment { moment_of standing ≡ now }
        requires reading { now.0 ≤ 2 ^ 62 }
        ensures lease { self.new ≡ leases.renewed stamp self.old }
        ensures standing { result ≡ leases.settled self.new now }
    {
        // The standing is spent; its moment is `now`.
        let _at = standing.spend();
        self.held = self.held.map(|held| held.renewed(stamp));
        self.standing(now)
    }

    /// Condemns the lease: it is no longer renewed, and is at least in quiesce. The standing is
    /// given back as it is then, at its own moment.
    pub fn condemn(&mut self, standing: Standing) -> Standing
        requires server { server_of standing ≡ self.old.server }
        requires permitted { may_renew (kind_of standing) ≡ true }
        ensures lease { self.new ≡ leases.condemned self.old }
        ensures standing { result ≡ leases.settled self.new (moment_of standing) }
    {
        let at = standing.spend();
        self.held = self.held.map(|held| held.condemned());
        self.standing(at.moment)
    }

    /// Takes a receipt back. The lease stays as it is.
    pub fn close(&mut self, receipt: Receipt)
        requires server { receipt.server ≡ self.old.server }
        ensures { self.new ≡ self.old }
    {
        // The receipt is spent, and nothing else happens.
        let _at = receipt.spend();
    }

    /// Ends a lost lease whose pages, locks and commands were discarded: no lease is held then.
    pub fn close_lost(
        &mut self,
        pages: PagesGone,
        locks: LocksGone,
        commands: CommandsGone,
    ) -> Receipt
        requires pages { pages.server ≡ self.old.server }
        requires locks { locks.server ≡ self.old.server }
        requires commands { commands.server ≡ self.old.server }
        ensures lease { self.new ≡ leases.closed self.old }
        ensures receipt { result ≡ pages }
    {
        locks.spend();
        commands.spend();
        self.held = None;
        Receipt::new(pages.spend())
    }
}
