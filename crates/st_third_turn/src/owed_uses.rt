// The uses that files owe, each found by its file.
ghost use Rattle.std.specs.Prelude.{◌≡◌, [], OnOk, find};
ghost use Rattle.st_third.specs.UsedOnce.{is_owed_on};
ghost use Rattle.st_third_turn.specs.Owing.{with_op};

use st_tables::{Key, Row, Table};
use st_third::OwedUse;
use std::alloc::{AllocError, Global};
use std::marker::Model;

/// The key of a file's row.
fn key(ino: u32) -> Key
    ensures { result ≡ record { first = 0; second = ino } }
{
    Key {
        first: 0,
        second: ino,
    }
}

/// A use that is owed. Contracts see the use.
#[derive(Clone, Copy)]
struct OwedRow {
    owed: OwedUse,
}

impl Model for OwedRow {
    ghost use Rattle.st_third.specs.declared.beside.OwedUse.{OwedUse};

    ghost Value = { OwedUse };

    ghost view = { λ r. r.owed };

    ghost inverse = { λ u. record { owed = u } };
}

impl Row for OwedRow {
    ghost key_of = { λ u. record { first = 0; second = u.ino } };

    fn key(&self) -> Key {
        key(self.owed.ino)
    }
}

/// The uses that files owe. Contracts see the list of them: each file owes one at most.
#[derive(Drop)]
pub struct OwedUses {
    rows: Table<OwedRow>,
}

impl Model for OwedUses {
    ghost use Rattle.std.specs.Prelude.{List};
    ghost use Rattle.st_third.specs.declared.beside.OwedUse.{OwedUse};

    ghost Value = { List OwedUse };

    ghost view = { λ o. o.rows };
}

impl OwedUses {
    /// No file owes a use. It does not allocate.
    pub fn new(alloc: Global) -> OwedUses
        ensures { result ≡ [] }
    {
        OwedUses {
            rows: Table::new(alloc),
        }
    }

    /// The use that the file owes, if it owes one.
    pub fn get(&self, ino: u32) -> Option<OwedUse>
        ensures { result ≡ find (is_owed_on ino) self.now }
    {
        let row = self.rows.get(key(ino))?;
        Some(row.owed)
    }

    /// The file owes this operation a use, and no other; or it owes none.
    pub(crate) fn owe(&mut self, ino: u32, op: Option<u32>) -> Result<(), AllocError>
        ensures { OnOk result (self.new ≡ with_op ino op self.old) }
    {
        self.rows.remove(key(ino));
        match op {
            None => Ok(()),
            Some(op) => self.rows.put(OwedRow {
                owed: OwedUse { ino, op },
            }),
        }
    }
}
