// What a client may do while it has a lease. None of these types has `Drop`, `Clone` or `Copy`.
ghost use Rattle.std.specs.Prelude.{◌≡◌};
ghost use Rattle.st_lease_client.specs.declared.permits.SettledAt.{SettledAt};

use st_base::{ServerId, Stamp};
use std::marker::Model;

/// The server of a lease, and the moment at which the lease was settled. Contracts see every
/// permit, loss and receipt as this.
#[derive(Clone, Copy, Debug, PartialEq, Eq)]
pub struct SettledAt {
    pub server: ServerId,
    pub moment: Stamp,
}

/// Shows that a permit was spent, or that the client had no lease. A lease takes it back.
pub struct Receipt {
    at: SettledAt,
}

impl Model for Receipt {
    ghost Value = { SettledAt };

    ghost view = { λ r. r.at };
}

impl Receipt {
    pub(crate) fn new(at: SettledAt) -> Receipt
        ensures { result ≡ at }
    {
        Receipt { at }
    }

    pub(crate) fn spend(self) -> SettledAt
        ensures { result ≡ self }
    {
        let Receipt { at } = self;
        at
    }
}

/// Permits to read and write pages for applications, and to submit disk commands.
pub struct UsePermit {
    at: SettledAt,
}

impl Model for UsePermit {
    ghost Value = { SettledAt };

    ghost view = { λ p. p.at };
}

impl UsePermit {
    pub(crate) fn new(at: SettledAt) -> UsePermit
        ensures { result ≡ at }
    {
        UsePermit { at }
    }

    /// Lends a permit to submit one disk command.
    pub fn submit(&self) -> SubmitPermit<'_>
        ensures { result ≡ self.now }
    {
        SubmitPermit { at: &self.at }
    }

    /// Ends the permit.
    pub fn spend(self) -> Receipt
        ensures { result ≡ self }
    {
        let UsePermit { at } = self;
        Receipt { at }
    }
}

/// Permits to submit disk commands.
pub struct HoldPermit {
    at: SettledAt,
}

impl Model for HoldPermit {
    ghost Value = { SettledAt };

    ghost view = { λ p. p.at };
}

impl HoldPermit {
    pub(crate) fn new(at: SettledAt) -> HoldPermit
        ensures { result ≡ at }
    {
        HoldPermit { at }
    }

    /// Lends a permit to submit one disk command.
    pub fn submit(&self) -> SubmitPermit<'_>
        ensures { result ≡ self.now }
    {
        SubmitPermit { at: &self.at }
    }

    /// Ends the permit.
    pub fn spend(self) -> Receipt
        ensures { result ≡ self }
    {
        let HoldPermit { at } = self;
        Receipt { at }
    }
}

/// Permits to submit disk commands, and to submit all dirty pages at once.
pub struct DrainPermit {
    at: SettledAt,
}

impl Model for DrainPermit {
    ghost Value = { SettledAt };

    ghost view = { λ p. p.at };
}

impl DrainPermit {
    pub(crate) fn new(at: SettledAt) -> DrainPermit
        ensures { result ≡ at }
    {
        DrainPermit { at }
    }

    /// Lends a permit to submit one disk command.
    pub fn submit(&self) -> SubmitPermit<'_>
        ensures { result ≡ self.now }
    {
        SubmitPermit { at: &self.at }
    }

    /// Ends the permit.
    pub fn spend(self) -> Receipt
        ensures { result ≡ self }
    {
        let DrainPermit { at } = self;
        Receipt { at }
    }
}

/// Permits to submit one disk command. It is lent by a permit of the lease, and cannot outlive it.
pub struct SubmitPermit<'a> {
    at: &'a SettledAt,
}

impl<'a> Model for SubmitPermit<'a> {
    ghost Value = { SettledAt };

    ghost view = { λ p. p.at.now };
}

impl SubmitPermit<'_> {
    /// Ends the permit.
    pub fn spend(self) {
        let SubmitPermit { at: _ } = self;
    }
}
