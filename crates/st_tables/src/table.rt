// Rows in the order in which they came, found by their keys.
ghost use Rattle.std.specs.Prelude.{◌≡◌, ◌<◌, ◌^◌, ◌&&◌, ◌||◌, ◌++◌, ◌∷◌, ◌==◌, ℕ, [], OnOk, OnErr, IfOk, IsSome, find, filter, map, not, length, if◌then◌else◌, Some, cond, nat_eq, is_some};
ghost use Rattle.std.specs.List.{IsDistinct, list_any};
ghost use Rattle.std.specs.Option.{option_copied};
ghost use Rattle.st_rules.specs.Keys.{put, rising};
ghost use Rattle.st_tables.specs.declared.keys.Key.{Key};
ghost use Rattle.st_tables.specs.Tables.{Changes, has_key, is_on, kept, place_of, row_at, same_key, second_of, sooner};

use crate::keys::{Key, Row, Test};
use crate::rising_keys::rising;
use indexmap::IndexMap;
use std::alloc::{AllocError, Global};
use std::marker::Model;

fn write<V: Copy>(rows: &mut IndexMap<u64, V>, place: u64, row: V)
    requires { IsSome (row_at rows.old.entries place) }
    ensures { (q : ℕ) → row_at rows.new.entries q ≡ cond (nat_eq place q) (Some row) (row_at rows.old.entries q) }
{
    if let Some(old) = rows.get_mut(&place) {
        *old = row;
    }
}

fn keep_rows<V: Row, T: Test<V>>(rows: &mut IndexMap<u64, V>, test: &T)
    ensures { (q : ℕ) → row_at rows.new.entries q ≡ kept (T.passes test.now) (row_at rows.old.entries q) }
{
    // Read for what always holds of the map: a key has one entry.
    let _len = rows.len();
    rows.retain(|_place, row| test.test(row));
}

/// Keeps the places that have a row.
fn keep_places<V: Row>(places: &mut IndexMap<Key, u64>, rows: &IndexMap<u64, V>)
    ensures { (k : Key) → place_of places.new.entries k ≡ kept (λ i. is_some (row_at rows.now.entries i)) (place_of places.old.entries k) }
{
    // Read for what always holds of the map: a key has one entry.
    let _len = places.len();
    places.retain(|_key, place| rows.contains_key(&*place));
}

fn push_second<V: Row, T: Test<V>>(
    found: &mut Vec<u32>,
    row: &V,
    test: &T,
) -> Result<(), AllocError>
    ensures { OnOk result (found.new.items ≡ found.old.items ++ (if T.passes test.now row.now then (V.key_of row.now).second ∷ [] else [])) }
{
    if test.test(row) {
        found.push(row.key().second)?;
        Ok(())
    } else {
        Ok(())
    }
}

/// Either.
fn either(a: bool, b: bool) -> bool
    ensures { result ≡ a || b }
{
    a || b
}

/// The lower of two places.
fn sooner(least: u64, place: Option<u64>) -> u64
    ensures { result ≡ sooner least place }
{
    match place {
        Some(place) => { if place < least { place } else { least } }
        None => least,
    }
}

/// Rows in the order in which they came, each found by its key in constant time. No two have one
/// key. Contracts see the list of the rows.
#[derive(Drop)]
pub struct Table<V: Row> {
    next: u64,
    places: IndexMap<Key, u64>,
    rows: IndexMap<u64, V>,
}

impl<V: Row> Model for Table<V> {
    ghost use Rattle.std.specs.Prelude.{List};

    ghost Value = { List V };

    ghost use Rattle.st_tables.specs.declared.keys.Key.{Key};
    ghost use Rattle.st_tables.specs.Tables.{IsTable, listed, place_of, row_at};

    ghost view = { λ t. listed t.next (row_at t.rows.entries) };

    ghost invariant = { λ t. IsTable V.key_of t.next (row_at t.rows.entries) (place_of t.places.entries) };
}

impl<V: Row> Table<V> {
    /// No rows.
    pub fn new(alloc: Global) -> Table<V>
        ensures { result ≡ [] }
    {
        Table {
            next: 0,
            places: IndexMap::new(alloc),
            rows: IndexMap::new(alloc),
        }
    }

    /// The row of this key.
    pub fn get(&self, key: Key) -> Option<&V>
        ensures found { option_copied result ≡ find (has_key V.key_of key) self.now }
    {
        let place = self.places.get(&key)?;
        self.rows.get(place)
    }

    /// Puts a row in the place of that with its key, or last if there is none.
    pub fn put(&mut self, row: V) -> Result<(), AllocError>
        ensures ok { OnOk result (self.new ≡ put (has_key V.key_of (V.key_of row)) row self.old) }
        ensures err { OnErr result (self.new ≡ self.old) }
    {
        let key = row.key();
        match self.places.get(&key).copied() {
            Some(place) => {
                self.rows.insert(place, row)?;
                Ok(())
            }
            None => {
                if self.next == 18446744073709551615 {
                    return Err(AllocError);
                }
                self.places.reserve(1)?;
                self.rows.reserve(1)?;
                self.places.insert(key, self.next).unwrap();
                self.rows.insert(self.next, row).unwrap();
                self.next += 1;
                Ok(())
            }
        }
    }

    /// How many rows there are.
    pub fn len(&self) -> usize
        ensures len { result ≡ length self.now }
        ensures small { result < 2 ^ 63 }
        ensures distinct { IsDistinct same_key (map V.key_of self.now) }
    {
        self.rows.len()
    }

    /// Whether there is a row of this key.
    pub fn holds(&self, key: Key) -> bool
        ensures { result ≡ is_some (find (has_key V.key_of key) self.now) }
    {
        self.places.contains_key(&key)
    }

    /// Whether there is a row of this key that passes the test.
    pub fn has<T: Test<V>>(&self, key: Key, test: &T) -> bool
        ensures { result ≡ list_any (λ v. has_key V.key_of key v && T.passes test.now v) self.now }
    {
        // For its clause `distinct`: the key has one row.
        let _len = self.len();
        match self.get(key) {
            Some(row) => test.test(row),
            None => false,
        }
    }

    /// Whether a row passes the test. It looks at every row.
    pub fn any<T: Test<V>>(&self, test: &T) -> bool
        ensures { result ≡ list_any (T.passes test.now) self.now }
    {
        let mut found = false;
        for i in 0..self.rows.len() {
            found = either(found, test.test(&self.rows[i]));
        }
        found
    }

    /// Writes a row over the one with its key, if there is one.
    pub fn change(&mut self, row: V)
        ensures written { self.new ≡ map (λ r. if has_key V.key_of (V.key_of row) r then row else r) self.old }
        ensures changed { Changes V.key_of row self.old self.new }
    {
        let key = row.key();
        if let Some(place) = self.places.get(&key).copied() {
            write(&mut self.rows, place, row);
        }
    }

    /// Keeps the rows that pass the test.
    pub fn retain<T: Test<V>>(&mut self, test: &T)
        ensures { self.new ≡ filter (T.passes test.now) self.old }
    {
        keep_rows(&mut self.rows, test);
        keep_places(&mut self.places, &self.rows);
    }

    /// The second numbers of the keys of the rows that pass the test, each once, in rising order.
    pub fn seconds<T: Test<V>>(&self, alloc: Global, test: &T) -> Result<Vec<u32>, AllocError>
        ensures { IfOk result (λ ks. ks.items ≡ rising (map (second_of V.key_of) (filter (T.passes test.now) self.now))) }
    {
        let mut found = Vec::new(alloc);
        for i in 0..self.rows.len() {
            push_second(&mut found, &self.rows[i], test)?;
        }
        rising(alloc, found.as_slice())
    }

    /// The first row whose key has this second number, and a first number from 1 to 16.
    pub fn first_on(&self, second: u32) -> Option<V>
        ensures { result ≡ find (is_on V.key_of second) self.now }
    {
        let mut least = self.next;
        for i in 0..16u32 {
            let key = Key {
                first: i + 1,
                second,
            };
            least = sooner(least, self.places.get(&key).copied());
        }
        self.rows.get(&least).copied()
    }

    /// Takes out the row of this key.
    pub fn remove(&mut self, key: Key)
        ensures { self.new ≡ filter (λ v. not (has_key V.key_of key v)) self.old }
    {
        if let Some(place) = self.places.swap_remove(&key) {
            // The row is dropped.
            let _row = self.rows.swap_remove(&place);
        }
    }
}
