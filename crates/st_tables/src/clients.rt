// Rows of the clients from 1 to 16.
ghost use Rattle.std.specs.Prelude.{◌≡◌, ◌≤◌, ◌<◌, ◌^◌, ◌+◌, ◌&&◌, ◌||◌, ◌++◌, ◌∷◌, ◌==◌, ℕ, slice_index_or, [], OnOk, OnErr, IfOk, find, filter, map, not, length, if◌then◌else◌, None, Some, true, is_some, slice_get};
ghost use Rattle.std.specs.List.{IsDistinct, list_all, list_any};
ghost use Rattle.std.specs.Option.{option_copied};
ghost use Rattle.st_rules.specs.Keys as keys;
ghost use Rattle.st_rules.specs.Keys.{put, rising};
ghost use Rattle.st_tables.specs.Indexes.{AreQueued, has, queue_in};
ghost use Rattle.st_tables.specs.Tables.{Changes, first_of, firsts_on, has_key, is_among, is_first, is_of_client, same_key, second_of};

use crate::keys::{Key, Row, Test};
use crate::owned_numbers::{OwnedNumbers, forget, gain, lose, numbers};
use crate::queues::{Queues, leave, push, queue};
use crate::rising_keys::rising;
use crate::table::Table;
use indexmap::IndexMap;
use st_base::ClientId;
use std::alloc::{AllocError, Global};
use std::marker::Model;

/// One row more is counted under this number, if it is below 17.
fn count_up(counts: &mut [u64; 17], first: u32)
    requires { (first < 17) → slice_index_or counts.old first 0 + 1 < 2 ^ 64 }
    ensures { (c : ℕ) → c < 17 → slice_index_or counts.new c 0 ≡ slice_index_or counts.old c 0 + (if c == first then 1 else 0) }
{
    if first < 17 {
        counts[first as usize] += 1;
    }
}

/// One row less is counted under this number, if it is below 17.
fn count_down(counts: &mut [u64; 17], first: u32)
    requires { (first < 17) → 1 ≤ slice_index_or counts.old first 0 }
    ensures { (c : ℕ) → c < 17 → slice_index_or counts.old c 0 ≡ slice_index_or counts.new c 0 + (if c == first then 1 else 0) }
{
    if first < 17 {
        counts[first as usize] -= 1;
    }
}

/// No row is counted under this number.
fn count_none(counts: &mut [u64; 17], first: u32)
    ensures { (c : ℕ) → c < 17 → slice_index_or counts.new c 0 ≡ (if c == first then 0 else slice_index_or counts.old c 0) }
{
    if first < 17 {
        counts[first as usize] = 0;
    }
}

fn push_if(found: &mut Vec<ClientId>, client: ClientId, yes: bool) -> Result<(), AllocError>
    ensures { OnOk result (found.new.items ≡ found.old.items ++ (if yes then client ∷ [] else [])) }
{
    if yes {
        found.push(client)?;
        Ok(())
    } else {
        Ok(())
    }
}

/// Either.
fn either(a: bool, b: bool) -> bool
    ensures { result ≡ a || b }
{
    a || b
}

fn first_in(list: &[u32]) -> Option<u32>
    ensures { result ≡ slice_get list.now 0 }
{
    match list {
        [] => None,
        [first, ..] => Some(*first),
    }
}

/// Whether a number is in a list.
fn is_in(list: &[u32], number: u32) -> bool
    ensures { result ≡ list_any (λ k. k == number) list.now }
{
    list.contains(&number)
}

/// The rows of a client on these numbers go.
fn remove_all<V: Row>(table: &mut Table<V>, queues: &mut Queues, first: u32, seconds: &[u32])
    requires { AreQueued V.key_of table.old (queue_in queues.old.entries) }
    ensures rows { table.new ≡ filter (λ v. not (is_first V.key_of first v && has (second_of V.key_of v) seconds.now)) table.old }
    ensures queued { AreQueued V.key_of table.new (queue_in queues.new.entries) }
{
    for second in seconds {
        table.remove(Key {
            first,
            second: *second,
        });
        leave(queues, *second, first);
    }
}

/// Rows of the clients 1 to 16, in the order in which they came: the first number of a key is the
/// client, the second what the client has there, as a file. Each client's rows are counted, and
/// found by the client; the clients with a row on a number are in a queue under that number.
/// Contracts see the list of the rows.
#[derive(Drop)]
pub struct ClientTable<V: Row> {
    alloc: Global,
    table: Table<V>,
    counts: [u64; 17],
    queues: Queues,
    owned: OwnedNumbers,
}

impl<V: Row> Model for ClientTable<V> {
    ghost use Rattle.std.specs.Prelude.{List};

    ghost Value = { List V };

    ghost use Rattle.st_tables.specs.Indexes.{IsIndexed};

    ghost view = { λ t. t.table };

    ghost invariant = { λ t. IsIndexed V.key_of t.table t.counts t.queues.entries t.owned.items };
}

impl<V: Row> ClientTable<V> {
    /// No rows.
    pub fn new(alloc: Global) -> ClientTable<V>
        ensures { result ≡ [] }
    {
        ClientTable {
            alloc,
            table: Table::new(alloc),
            counts: [0; 17],
            queues: IndexMap::new(alloc),
            owned: Vec::new(alloc),
        }
    }

    /// How many rows there are.
    pub fn len(&self) -> usize
        ensures len { result ≡ length self.now }
        ensures small { result < 2 ^ 63 }
        ensures distinct { IsDistinct same_key (map V.key_of self.now) }
        ensures clients { list_all (is_of_client V.key_of) self.now ≡ true }
    {
        self.table.len()
    }

    /// How many rows the client has.
    pub fn count(&self, client: ClientId) -> u64
        ensures { result ≡ length (filter (is_first V.key_of client.0) self.now) }
    {
        if client.0 < 17 {
            self.counts[client.0 as usize]
        } else {
            0
        }
    }

    /// The row of this key.
    pub fn get(&self, key: Key) -> Option<&V>
        ensures found { option_copied result ≡ find (has_key V.key_of key) self.now }
    {
        self.table.get(key)
    }

    /// Whether there is a row of this key.
    pub fn holds(&self, key: Key) -> bool
        ensures { result ≡ is_some (find (has_key V.key_of key) self.now) }
    {
        self.table.holds(key)
    }

    /// Whether there is a row of this key that passes the test.
    pub fn has<T: Test<V>>(&self, key: Key, test: &T) -> bool
        ensures { result ≡ list_any (λ v. has_key V.key_of key v && T.passes test.now v) self.now }
    {
        self.table.has(key, test)
    }

    /// Whether a row passes the test. It looks at every row.
    pub fn any<T: Test<V>>(&self, test: &T) -> bool
        ensures { result ≡ list_any (T.passes test.now) self.now }
    {
        self.table.any(test)
    }

    /// Puts a row last. There is none of its key.
    fn put_new(&mut self, row: V, key: Key) -> Result<(), AllocError>
        requires client { is_of_client V.key_of row ≡ true }
        requires key { key ≡ V.key_of row }
        requires none { find (has_key V.key_of key) self.old ≡ None }
        ensures ok { OnOk result (self.new ≡ put (has_key V.key_of (V.key_of row)) row self.old) }
        ensures err { OnErr result (self.new ≡ self.old) }
    {
        gain(&mut self.owned, self.alloc, key.first, key.second)?;
        if push(&mut self.queues, self.alloc, key.second, key.first).is_err() {
            lose(&mut self.owned, key.first, key.second);
            return Err(AllocError);
        }
        if self.table.put(row).is_err() {
            leave(&mut self.queues, key.second, key.first);
            lose(&mut self.owned, key.first, key.second);
            return Err(AllocError);
        }
        // For its clause `small`: the count of the client's rows has room for one more.
        let _len = self.table.len();
        count_up(&mut self.counts, key.first);
        Ok(())
    }

    /// Puts a row in the place of that with its key, or last if there is none. The first number of
    /// its key is a client's, from 1 to 16.
    pub fn put(&mut self, row: V) -> Result<(), AllocError>
        requires { is_of_client V.key_of row ≡ true }
        ensures ok { OnOk result (self.new ≡ put (has_key V.key_of (V.key_of row)) row self.old) }
        ensures err { OnErr result (self.new ≡ self.old) }
    {
        let key = row.key();
        if self.table.holds(key) {
            self.table.put(row)
        } else {
            self.put_new(row, key)
        }
    }

    /// Writes a row over the one with its key, if there is one.
    pub fn change(&mut self, row: V)
        ensures written { self.new ≡ map (λ r. if has_key V.key_of (V.key_of row) r then row else r) self.old }
        ensures changed { Changes V.key_of row self.old self.new }
    {
        self.table.change(row);
    }

    /// Takes out the row of this key.
    pub fn remove(&mut self, key: Key)
        ensures { self.new ≡ filter (λ v. not (has_key V.key_of key v)) self.old }
    {
        if self.table.holds(key) {
            // For its clause `distinct`: the key has one row.
            let _len = self.table.len();
            self.table.remove(key);
            leave(&mut self.queues, key.second, key.first);
            lose(&mut self.owned, key.first, key.second);
            count_down(&mut self.counts, key.first);
        }
    }

    /// Takes out all rows of a client. It looks only at these.
    pub fn forget(&mut self, client: ClientId)
        ensures { self.new ≡ filter (λ v. not (is_first V.key_of client.0 v)) self.old }
    {
        let first = client.0 as u32;
        remove_all(
            &mut self.table,
            &mut self.queues,
            first,
            numbers(&self.owned, first),
        );
        forget(&mut self.owned, first);
        count_none(&mut self.counts, first);
    }

    /// The second numbers of the keys of a client's rows.
    pub fn numbers(&self, client: ClientId) -> &[u32]
        ensures { (s : ℕ) → has s result.now ≡ list_any (has_key V.key_of (record { first = client.0; second = s })) self.now }
    {
        numbers(&self.owned, client.0 as u32)
    }

    /// The second numbers of the keys of a client's rows, each once, in rising order. It looks only
    /// at these rows.
    pub fn seconds_of(&self, alloc: Global, client: ClientId) -> Result<Vec<u32>, AllocError>
        ensures { IfOk result (λ ks. ks.items ≡ keys.rising (map (second_of V.key_of) (filter (is_first V.key_of client.0) self.now))) }
    {
        rising(alloc, numbers(&self.owned, client.0 as u32))
    }

    /// Whether a row of a client passes the test. It looks only at the client's rows.
    pub fn any_of<T: Test<V>>(&self, client: ClientId, test: &T) -> bool
        ensures { result ≡ list_any (λ v. is_first V.key_of client.0 v && T.passes test.now v) self.now }
    {
        let first = client.0 as u32;
        let seconds = numbers(&self.owned, first);
        let mut found = false;
        for second in seconds {
            let key = Key {
                first,
                second: *second,
            };
            found = either(found, self.table.has(key, test));
        }
        found
    }

    /// Takes out all rows whose keys have this second number.
    pub fn drop_on(&mut self, second: u32)
        ensures { self.new ≡ filter (λ v. not ((V.key_of v).second == second)) self.old }
    {
        // For its clause `clients`: the rows are of clients 1 to 16.
        let _len = self.len();
        for i in 0..16u32 {
            self.remove(Key {
                first: i + 1,
                second,
            });
        }
    }

    /// The second numbers of the keys of the rows that pass the test, each once, in rising order.
    pub fn seconds<T: Test<V>>(&self, alloc: Global, test: &T) -> Result<Vec<u32>, AllocError>
        ensures { IfOk result (λ ks. ks.items ≡ rising (map (second_of V.key_of) (filter (T.passes test.now) self.now))) }
    {
        self.table.seconds(alloc, test)
    }

    /// The first numbers of the keys with this second number, in the order of the rows.
    pub fn queue(&self, second: u32) -> &[u32]
        ensures { result.now ≡ map (first_of V.key_of) (filter (λ v. second_of V.key_of v == second) self.now) }
    {
        queue(&self.queues, second)
    }

    /// Whether there is a row of this key that passes the test. The queue is that of the key's
    /// second number.
    pub fn has_in<T: Test<V>>(&self, waiting: &[u32], key: Key, test: &T) -> bool
        requires { waiting.now ≡ map (first_of V.key_of) (filter (λ v. second_of V.key_of v == key.second) self.now) }
        ensures { result ≡ list_any (λ v. has_key V.key_of key v && T.passes test.now v) self.now }
    {
        is_in(waiting, key.first) && self.table.has(key, test)
    }

    /// The first row whose key has this second number.
    pub fn first_on(&self, second: u32) -> Option<V>
        ensures { result ≡ find (λ v. (V.key_of v).second == second) self.now }
    {
        match first_in(queue(&self.queues, second)) {
            None => None,
            Some(first) => self.table.get(Key { first, second }).copied(),
        }
    }

    /// Whether a row whose key has this second number passes the test. It looks only at the rows
    /// on this number.
    pub fn any_on<T: Test<V>>(&self, second: u32, test: &T) -> bool
        ensures { result ≡ list_any (is_among V.key_of second (T.passes test.now)) self.now }
    {
        let waiting = queue(&self.queues, second);
        let mut found = false;
        for first in waiting {
            let key = Key {
                first: *first,
                second,
            };
            found = either(found, self.table.has(key, test));
        }
        found
    }

    /// The clients with a row whose key has this second number and which passes the test, in rising
    /// order.
    pub fn clients_on<T: Test<V>>(
        &self,
        alloc: Global,
        second: u32,
        test: &T,
    ) -> Result<Vec<ClientId>, AllocError>
        ensures { IfOk result (λ cs. cs.items ≡ map keys.client (firsts_on V.key_of second (T.passes test.now) self.now)) }
    {
        // For its clause `clients`: the rows are of clients 1 to 16.
        let _len = self.len();
        let waiting = self.queue(second);
        let mut found = Vec::new(alloc);
        for i in 0..16u16 {
            let key = Key {
                first: i as u32 + 1,
                second,
            };
            push_if(&mut found, ClientId(i + 1), self.has_in(waiting, key, test))?;
        }
        Ok(found)
    }
}
