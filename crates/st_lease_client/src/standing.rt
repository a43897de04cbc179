// The phase of a lease, and what that permits.
ghost use Rattle.std.specs.Prelude.{◌≡◌};
ghost use Rattle.st_lease_client.specs.Standings.{at_of, standing_as};

use crate::losses::LossPermit;
use crate::permits::{DrainPermit, HoldPermit, Receipt, SettledAt, UsePermit};
use st_rules::StandingKind;

/// The phase of a client's lease at a server at a moment, with what that permits.
pub enum Standing {
    /// There is no lease.
    Idle(Receipt),
    /// The lease is valid or in renewal.
    Serve(UsePermit),
    /// The lease is in quiesce.
    Hold(HoldPermit),
    /// The lease is in flush.
    Drain(DrainPermit),
    /// The lease expired.
    Lost(LossPermit),
}

impl Standing {
    pub(crate) fn new(kind: StandingKind, at: SettledAt) -> Standing
        ensures { result ≡ standing_as kind at }
    {
        match kind {
            StandingKind::Idle => Standing::Idle(Receipt::new(at)),
            StandingKind::Serve => Standing::Serve(UsePermit::new(at)),
            StandingKind::Hold => Standing::Hold(HoldPermit::new(at)),
            StandingKind::Drain => Standing::Drain(DrainPermit::new(at)),
            StandingKind::Lost => Standing::Lost(LossPermit::new(at)),
        }
    }

    pub(crate) fn spend(self) -> SettledAt
        ensures { result ≡ at_of self }
    {
        match self {
            Standing::Idle(receipt) => receipt.spend(),
            Standing::Serve(permit) => permit.spend().spend(),
            Standing::Hold(permit) => permit.spend().spend(),
            Standing::Drain(permit) => permit.spend().spend(),
            Standing::Lost(permit) => permit.spend(),
        }
    }
}
