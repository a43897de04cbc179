// A lease that is held, and its phase at a moment.
ghost use Rattle.std.specs.Prelude.{◌≡◌, ◌+◌, ◌≤◌, ◌^◌, nat_le};
ghost use Rattle.st_rules.specs.ClientLease as leases;
ghost use Rattle.st_rules.specs.Leases.{phase_living, phase_serving, phase_young};

use st_base::{Config, Stamp};
use st_rules::{Phase, StandingKind};
use std::marker::Model;

/// The date of a lease, and whether it is condemned.
#[derive(Clone, Copy)]
pub struct HeldLease {
    date: Stamp,
    condemned: bool,
}

impl Model for HeldLease {
    ghost use Rattle.std.specs.Prelude.{◌≤◌, ◌^◌};
    ghost use Rattle.st_rules.specs.ClientLease.{ClientLease};

    ghost Value = { ClientLease };

    ghost view = { λ l. record { date = l.date; condemned = l.condemned } };

    ghost inverse = { λ l. record { date = l.date; condemned = l.condemned } };

    ghost invariant = { λ l. l.date.0 ≤ 2 ^ 62 };
}

/// Whether this time has passed since a moment.
fn has_passed(time: u64, since: Stamp, now: Stamp) -> bool
    ensures { result ≡ nat_le (since.0 + time) now.0 }
{
    since.0 <= now.0 && time <= now.0 - since.0
}

impl HeldLease {
    pub fn new(stamp: Stamp) -> HeldLease
        requires { stamp.0 ≤ 2 ^ 62 }
        ensures { result ≡ leases.new_lease stamp }
    {
        HeldLease {
            date: stamp,
            condemned: false,
        }
    }

    #[tactic(auto, unfolding(st_rules::specs::Leases::phase_young))]
    fn young_phase(self, config: &Config, now: Stamp) -> Phase
        ensures { result ≡ phase_young config.now self.date now }
    {
        if has_passed(config.renew, self.date, now) {
            Phase::Renewal
        } else {
            Phase::Valid
        }
    }

    #[tactic(auto, unfolding(st_rules::specs::Leases::phase_serving))]
    fn serving_phase(self, config: &Config, now: Stamp) -> Phase
        ensures { result ≡ phase_serving config.now self.date self.condemned now }
    {
        if has_passed(config.quiesce, self.date, now) || self.condemned {
            Phase::Quiesce
        } else {
            self.young_phase(config, now)
        }
    }

    #[tactic(auto, unfolding(st_rules::specs::Leases::phase_living))]
    fn living_phase(self, config: &Config, now: Stamp) -> Phase
        ensures { result ≡ phase_living config.now self.date self.condemned now }
    {
        if has_passed(config.flush, self.date, now) {
            Phase::Flush
        } else {
            self.serving_phase(config, now)
        }
    }

    #[tactic(auto, unfolding(st_rules::specs::Leases::phase))]
    pub fn phase(self, config: &Config, now: Stamp) -> Phase
        ensures { result ≡ leases.phase_of config.now self now }
    {
        if has_passed(config.lease, self.date, now) {
            Phase::Expired
        } else {
            self.living_phase(config, now)
        }
    }

    /// The moment from which the lease is over.
    pub fn end(self, config: &Config) -> Stamp
        requires { config.now.lease ≤ 2 ^ 40 }
        ensures { result ≡ leases.end_of config.now self }
    {
        Stamp(self.date.0 + config.lease)
    }

    /// What is permitted.
    pub fn standing(self, config: &Config, now: Stamp) -> StandingKind
        ensures { result ≡ leases.standing_of config.now self now }
    {
        match self.phase(config, now) {
            Phase::Valid => StandingKind::Serve,
            Phase::Renewal => StandingKind::Serve,
            Phase::Quiesce => StandingKind::Hold,
            Phase::Flush => StandingKind::Drain,
            Phase::Expired => StandingKind::Lost,
        }
    }

    /// Whether a reply to a request of this stamp renews the lease.
    fn is_renewed_by(self, stamp: Stamp) -> bool
        ensures { result ≡ leases.is_renewal stamp self }
    {
        !self.condemned && self.date.0 < stamp.0
    }

    #[tactic(auto, unfolding(st_rules::specs::ClientLease::renewed, st_rules::specs::ClientLease::dated))]
    pub fn renewed(self, stamp: Stamp) -> HeldLease
        requires { stamp.0 ≤ 2 ^ 62 }
        ensures { result ≡ leases.renewed stamp self }
    {
        if self.is_renewed_by(stamp) {
            HeldLease {
                date: stamp,
                condemned: self.condemned,
            }
        } else {
            self
        }
    }

    #[tactic(auto, unfolding(st_rules::specs::ClientLease::condemned))]
    pub fn condemned(self) -> HeldLease
        ensures { result ≡ leases.condemned self }
    {
        HeldLease {
            date: self.date,
            condemned: true,
        }
    }
}
