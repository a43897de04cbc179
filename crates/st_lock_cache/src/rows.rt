// The rows of the tables of a lock cache, found by their files.
ghost use Rattle.std.specs.Prelude.{◌≡◌};

use st_rules::{HeldLock, SeenGrant};
use st_tables::{Key, Row};
use std::marker::Model;

/// The key of a file's row.
pub fn key(ino: u32) -> Key
    ensures { result ≡ record { first = 0; second = ino } }
{
    Key {
        first: 0,
        second: ino,
    }
}

/// A held lock. Contracts see the lock.
#[derive(Clone, Copy)]
pub struct LockRow {
    pub lock: HeldLock,
}

impl Model for LockRow {
    ghost use Rattle.st_rules.specs.declared.client.HeldLock.{HeldLock};

    ghost Value = { HeldLock };

    ghost view = { λ r. r.lock };

    ghost inverse = { λ l. record { lock = l } };
}

impl Row for LockRow {
    ghost key_of = { λ l. record { first = 0; second = l.ino } };

    fn key(&self) -> Key {
        key(self.lock.ino)
    }
}

/// The greatest grant seen of a file. Contracts see the grant.
#[derive(Clone, Copy)]
pub struct SeenRow {
    pub seen: SeenGrant,
}

impl Model for SeenRow {
    ghost use Rattle.st_rules.specs.declared.client.SeenGrant.{SeenGrant};

    ghost Value = { SeenGrant };

    ghost view = { λ r. r.seen };

    ghost inverse = { λ s. record { seen = s } };
}

impl Row for SeenRow {
    ghost key_of = { λ s. record { first = 0; second = s.ino } };

    fn key(&self) -> Key {
        key(self.seen.ino)
    }
}
