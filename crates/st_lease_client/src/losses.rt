// What a client must do when its lease is over. None of these types has `Drop`, `Clone` or `Copy`.
ghost use Rattle.std.specs.Prelude.{◌≡◌};
ghost use Rattle.st_lease_client.specs.declared.permits.SettledAt.{SettledAt};

use crate::permits::SettledAt;
use std::marker::Model;

/// The lease is over: everything that rested on it must be discarded. It permits nothing else.
pub struct LossPermit {
    at: SettledAt,
}

impl Model for LossPermit {
    ghost Value = { SettledAt };

    ghost view = { λ p. p.at };
}

impl LossPermit {
    pub(crate) fn new(at: SettledAt) -> LossPermit
        ensures { result ≡ at }
    {
        LossPermit { at }
    }

    pub(crate) fn spend(self) -> SettledAt
        ensures { result ≡ self }
    {
        let LossPermit { at } = self;
        at
    }

    /// Returns what must be spent when the pages, the locks and the commands of the server are
    /// discarded.
    pub fn split(self) -> (PageLoss, LockLoss, CommandLoss)
        ensures pages { result.0 ≡ self }
        ensures locks { result.1 ≡ self }
        ensures commands { result.2 ≡ self }
    {
        let LossPermit { at } = self;
        (PageLoss { at }, LockLoss { at }, CommandLoss { at })
    }
}

/// The pages must be discarded.
pub struct PageLoss {
    at: SettledAt,
}

impl Model for PageLoss {
    ghost Value = { SettledAt };

    ghost view = { λ l. l.at };
}

impl PageLoss {
    /// Is called when the pages are discarded.
    pub fn done(self) -> PagesGone
        ensures { result ≡ self }
    {
        let PageLoss { at } = self;
        PagesGone { at }
    }
}

/// The locks must be discarded.
pub struct LockLoss {
    at: SettledAt,
}

impl Model for LockLoss {
    ghost Value = { SettledAt };

    ghost view = { λ l. l.at };
}

impl LockLoss {
    /// Is called when the locks are discarded.
    pub fn done(self) -> LocksGone
        ensures { result ≡ self }
    {
        let LockLoss { at } = self;
        LocksGone { at }
    }
}

/// The outstanding disk commands must be forgotten.
pub struct CommandLoss {
    at: SettledAt,
}

impl Model for CommandLoss {
    ghost Value = { SettledAt };

    ghost view = { λ l. l.at };
}

impl CommandLoss {
    /// Is called when the outstanding disk commands are forgotten.
    pub fn done(self) -> CommandsGone
        ensures { result ≡ self }
    {
        let CommandLoss { at } = self;
        CommandsGone { at }
    }
}

/// The pages were discarded.
pub struct PagesGone {
    at: SettledAt,
}

impl Model for PagesGone {
    ghost Value = { SettledAt };

    ghost view = { λ g. g.at };
}

impl PagesGone {
    pub(crate) fn spend(self) -> SettledAt
        ensures { result ≡ self }
    {
        let PagesGone { at } = self;
        at
    }
}

/// The locks were discarded.
pub struct LocksGone {
    at: SettledAt,
}

impl Model for LocksGone {
    ghost Value = { SettledAt };

    ghost view = { λ g. g.at };
}

impl LocksGone {
    pub(crate) fn spend(self) {
        let LocksGone { at: _ } = self;
    }
}

/// The outstanding disk commands were forgotten.
pub struct CommandsGone {
    at: SettledAt,
}

impl Model for CommandsGone {
    ghost Value = { SettledAt };

    ghost view = { λ g. g.at };
}

impl CommandsGone {
    pub(crate) fn spend(self) {
        let CommandsGone { at: _ } = self;
    }
}
