ghost use Rattle.std.specs.Prelude.{◌≡◌, false};
ghost use Rattle.st_client_session.specs.Sessions.{with_session};
ghost use Rattle.st_rules.specs.ClientLease as leases;
ghost use Rattle.st_rules.specs.ClientState as client;

use st_base::{Epoch, Life, Stamp};
use st_lease_client::Lease;
use st_lock_cache::LockCache;
use st_requests::Requests;
use st_rules::{LockWait, Phase, Release, StandingKind};
use std::marker::Model;

/// A client's session with one server. Contracts see its parties and the definitions' session.
#[derive(Drop)]
pub struct Session {
    pub(crate) life: Life,
    pub(crate) epoch: Epoch,
    pub(crate) date: Stamp,
    pub(crate) condemned: bool,
    pub(crate) lease: Lease,
    pub(crate) requests: Requests,
    pub(crate) cutting: Option<u32>,
    pub(crate) due: bool,
    pub(crate) locks: LockCache,
    pub(crate) waits: Vec<LockWait>,
    pub(crate) releases: Vec<Release>,
}

impl Model for Session {
    ghost use Rattle.st_client_session.specs.Sessions.{IsSession, ServerSession, lease_of};

    ghost Value = { ServerSession };

    ghost view = { λ s. record {
      of = record { client = s.requests.client; server = s.lease.server; life = s.life; config = s.lease.config };
      session = record {
        epoch = s.epoch;
        lease = lease_of s.date s.condemned;
        requests = s.requests.requests;
        cutting = s.cutting;
        due = s.due;
        locks = s.locks.locks;
        waits = s.waits.items;
        releases = s.releases.items;
      };
    } };

    ghost invariant = { λ s. IsSession s.life s.epoch s.date s.condemned s.lease s.requests s.locks };
}

impl Session {
    /// The phase of the lease.
    pub fn phase(&self, now: Stamp) -> Phase
        ensures { result ≡ leases.phase_of self.now.of.config self.now.session.lease now }
    {
        self.lease.phase(now).unwrap()
    }

    /// What the lease permits.
    pub fn standing(&self, now: Stamp) -> StandingKind
        ensures { result ≡ leases.standing_of self.now.of.config self.now.session.lease now }
    {
        match self.phase(now) {
            Phase::Valid => StandingKind::Serve,
            Phase::Renewal => StandingKind::Serve,
            Phase::Quiesce => StandingKind::Hold,
            Phase::Flush => StandingKind::Drain,
            Phase::Expired => StandingKind::Lost,
        }
    }

    /// Whether the lease is valid or in renewal.
    pub fn is_serving(&self, now: Stamp) -> bool
        ensures { result ≡ client.is_serving self.now.of.config self.now.session now }
    {
        match self.standing(now) {
            StandingKind::Serve => true,
            _ => false,
        }
    }

    /// Whether the lease is over.
    pub fn is_over(&self, now: Stamp) -> bool
        ensures { result ≡ leases.must_discard (leases.standing_of self.now.of.config self.now.session.lease now) }
    {
        match self.standing(now) {
            StandingKind::Lost => true,
            _ => false,
        }
    }

    /// When the client asked for the lease, or for its last renewal: the lease ages from then on.
    pub fn date(&self) -> Stamp
        ensures { result ≡ self.now.session.lease.date }
    {
        self.date
    }

    /// The moment from which the lease is over.
    pub fn end(&self) -> Stamp
        ensures { result ≡ leases.end_of self.now.of.config self.now.session.lease }
    {
        self.lease.end().unwrap()
    }

    /// Whether the lease is condemned.
    pub fn is_condemned(&self) -> bool
        ensures { result ≡ self.now.session.lease.condemned }
    {
        // Read for what always holds of a session: its own mark is the one of the lease.
        let _lease = &self.lease;
        self.condemned
    }

    /// Whether a reply to a request of this stamp renews the lease.
    pub fn is_renewed_by(&self, stamp: Stamp) -> bool
        ensures { result ≡ leases.is_renewal stamp self.now.session.lease }
    {
        !self.condemned && self.date.0 < stamp.0
    }

    pub fn epoch(&self) -> Epoch
        ensures { result ≡ self.now.session.epoch }
    {
        self.epoch
    }

    /// Whether the locks must be reasserted.
    pub fn is_due(&self) -> bool
        ensures { result ≡ self.now.session.due }
    {
        self.due
    }

    /// The file that the outstanding request cuts or removes.
    pub fn cutting(&self) -> Option<u32>
        ensures { result ≡ self.now.session.cutting }
    {
        self.cutting
    }

    /// The locks need no longer be reasserted.
    pub fn reasserted(&mut self)
        ensures { self.new ≡ with_session (record self.old.session { due = false }) self.old }
    {
        self.due = false;
    }
}
