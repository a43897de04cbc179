ghost use Rattle.std.specs.Prelude.{◌≡◌};

use st_rules::{LockRow, Waiter};

/// What a row is found by: two numbers, such as those of a client and a file.
#[derive(Clone, Copy, Debug, PartialEq, Eq, Hash)]
pub struct Key {
    pub first: u32,
    pub second: u32,
}

/// A row that tells its key.
pub trait Row: Copy {
    ghost use Rattle.st_tables.specs.declared.keys.Key.{Key};

    ghost key_of: { Self → Key };

    /// The row's key.
    fn key(&self) -> Key
        ensures { result ≡ key_of self.now };
}

/// A test of rows.
pub trait Test<V> {
    ghost use Rattle.std.specs.Prelude.{Bool};

    ghost passes: { Self → V → Bool };

    /// Whether the row passes.
    fn test(&self, row: &V) -> bool
        ensures { result ≡ passes self.now row.now };
}

/// A change of values.
pub trait Change<V> {
    ghost changed: { Self → V → V };

    /// Changes the value.
    fn change(&self, value: &mut V)
        ensures { value.new ≡ changed self.now value.old };
}

/// Every row passes.
#[derive(Clone, Copy)]
pub struct Every;

impl<V> Test<V> for Every {
    ghost use Rattle.std.specs.Prelude.{true};

    ghost passes = { λ t v. true };

    fn test(&self, _row: &V) -> bool {
        true
    }
}

impl Row for LockRow {
    ghost use Rattle.st_tables.specs.Tables.{lock_key};

    ghost key_of = { lock_key };

    fn key(&self) -> Key {
        Key {
            first: self.client.0 as u32,
            second: self.ino,
        }
    }
}

impl Row for Waiter {
    ghost use Rattle.st_tables.specs.Tables.{wait_key};

    ghost key_of = { wait_key };

    fn key(&self) -> Key {
        Key {
            first: self.client.0 as u32,
            second: self.ino,
        }
    }
}
