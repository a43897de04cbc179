ghost use Rattle.std.specs.Prelude.{◌≡◌};
ghost use Rattle.std.specs.List.{list_any};
ghost use Rattle.st_rules.specs.FlatLog as flat_log;
ghost use Rattle.st_model.specs.Walks as walks;

use st_base::ClientId;
use st_rules::{Cause, Fate, LogOwner};

/// A marking: it tells what becomes of each pending entry.
pub trait Marking {
    ghost use Rattle.std.specs.Prelude.{ℕ};
    ghost use Rattle.st_rules.specs.declared.log.Fate.{Fate};
    ghost use Rattle.st_rules.specs.declared.log.LogOwner.{LogOwner};

    ghost becomes: { Self → ℕ → LogOwner → Fate };

    /// Returns the fate that a pending entry gets, by its number, counted from 1, and its owner.
    /// `Pending` leaves it pending.
    fn fate_of(&self, number: u64, of: LogOwner) -> Fate
        ensures { result ≡ becomes self.now number of };
}

fn same_owner(a: LogOwner, b: LogOwner) -> bool
    ensures { result ≡ flat_log.same_owner a b }
{
    (a.client.0 == b.client.0 && a.life.0 == b.life.0)
        && ((a.file.server.0 == b.file.server.0 && a.file.ino == b.file.ino)
            && a.page.0 == b.page.0)
}

/// The entry of number `index`, whose owner is `of`, becomes hard, and so each earlier entry of
/// this owner.
#[derive(Clone, Copy, Debug)]
pub struct Hardening {
    pub index: u64,
    pub of: LogOwner,
}

impl Marking for Hardening {
    ghost use Rattle.st_model.specs.Walks.{hardens};

    ghost becomes = { λ h. hardens h.index h.of };

    fn fate_of(&self, number: u64, of: LogOwner) -> Fate {
        if number <= self.index && same_owner(of, self.of) {
            Fate::Hard
        } else {
            Fate::Pending
        }
    }
}

/// The entry of number `index` is gone with this cause.
#[derive(Clone, Copy, Debug)]
pub struct Losing {
    pub index: u64,
    pub cause: Cause,
}

impl Marking for Losing {
    ghost use Rattle.st_model.specs.Walks.{drops};
    ghost use Rattle.st_rules.specs.FlatLog.{always, is_number};

    ghost becomes = { λ l. drops (is_number l.index) (always l.cause) };

    fn fate_of(&self, number: u64, of: LogOwner) -> Fate {
        if number == self.index {
            Fate::Gone(self.cause)
        } else {
            Fate::Pending
        }
    }
}

/// A command that was not reported carries the entry of number `index`. A crash spares this entry
/// and the earlier ones of its owner.
#[derive(Clone, Copy, Debug)]
pub struct Spare {
    pub index: u64,
    pub owner: LogOwner,
}

fn is_spared(spared: &[Spare], number: u64, of: LogOwner) -> bool
    ensures { result ≡ list_any (walks.spares number of) spared.now }
{
    for spare in spared {
        if number <= spare.index && same_owner(spare.owner, of) {
            return true;
        }
    }
    false
}

/// The entries of a client that crashed are gone, except those that a spare names.
#[derive(Clone, Copy, Debug)]
pub struct Crashing<'a> {
    pub client: ClientId,
    pub spared: &'a [Spare],
}

impl<'a> Marking for Crashing<'a> {
    ghost use Rattle.st_model.specs.Walks.{drops, is_crashed};
    ghost use Rattle.st_rules.specs.FlatLog.{always};
    ghost use Rattle.st_rules.specs.declared.log.Cause.TheVariants as causes;

    ghost becomes = { λ c. drops (is_crashed c.client c.spared.now) (always causes.Crash) };

    fn fate_of(&self, number: u64, of: LogOwner) -> Fate {
        if of.client.0 == self.client.0 && !is_spared(self.spared, number, of) {
            Fate::Gone(Cause::Crash)
        } else {
            Fate::Pending
        }
    }
}
