// Values of a slab in the order in which they came.
ghost use Rattle.std.specs.Prelude.{◌≡◌, ◌<◌, ◌+◌, ◌^◌, ◌++◌, ◌∷◌, [], OnOk, OnErr, Some, false, filter, if◌then◌else◌, length, map, remove, slice_get};
ghost use Rattle.std.specs.List.{list_any, position};
ghost use Rattle.std.specs.Option.{option_copied, option_map, option_map_or};
ghost use Rattle.slab.specs.Slab.{ContainsKey, Updates, get};
ghost use Rattle.st_tables.specs.Orders.{changed_at};

use crate::keys::{Change, Test};
use slab::Slab;
use std::alloc::{AllocError, Global};
use std::marker::Model;

/// Changes the value of a key, which has one.
fn change_value<V: Drop, C: Change<V>>(slab: &mut Slab<V>, key: usize, change: &C)
    requires { ContainsKey slab.old key }
    ensures { Updates slab.old slab.new key (option_map (C.changed change.now) (get slab.old key)) }
{
    change.change(&mut slab[key]);
}

/// Values in the order in which they came: a slab, whose values are not moved when others go, and
/// the order of its keys. Contracts see the list of the values; a place is that of a value in the
/// list, from 0 on.
#[derive(Drop)]
pub struct Ordered<V: Drop> {
    slab: Slab<V>,
    order: Vec<usize>,
}

impl<V: Drop> Model for Ordered<V> {
    ghost use Rattle.std.specs.Prelude.{List};

    ghost Value = { List V };

    ghost use Rattle.st_tables.specs.Orders.{in_order, IsOrder};

    ghost view = { λ o. in_order o.slab o.order.items };

    ghost invariant = { λ o. IsOrder o.slab o.order.items };
}

impl<V: Drop> Ordered<V> {
    /// No values. It does not allocate.
    pub fn new(alloc: Global) -> Ordered<V>
        ensures { result ≡ [] }
    {
        Ordered {
            slab: Slab::new(alloc),
            order: Vec::new(alloc),
        }
    }

    /// How many values there are.
    pub fn len(&self) -> usize
        ensures len { result ≡ length self.now }
        ensures small { result < 2 ^ 63 }
    {
        self.order.len()
    }

    /// The value at a place.
    pub fn get(&self, place: usize) -> Option<&V>
        ensures found { option_copied result ≡ slice_get self.now place }
    {
        if place < self.order.len() {
            self.slab.get(self.order[place])
        } else {
            None
        }
    }

    /// One more value goes last. If the call runs out of memory, nothing changes.
    pub fn push(&mut self, value: V) -> Result<(), AllocError>
        ensures ok { OnOk result (self.new ≡ self.old ++ value ∷ []) }
        ensures err { OnErr result (self.new ≡ self.old) }
    {
        self.slab.reserve(1)?;
        self.order.reserve(1)?;
        let key = self.slab.insert_reserved(value);
        self.order.push(key).unwrap();
        Ok(())
    }

    /// Takes out the value at a place. It does not allocate.
    pub fn take(&mut self, place: usize) -> V
        requires { place < length self.old }
        ensures taken { Some result ≡ slice_get self.old place }
        ensures left { self.new ≡ remove self.old place }
    {
        let key = self.order.remove(place);
        self.slab.remove(key)
    }

    /// Changes the value at a place, if there is one. It is not moved.
    pub fn change<C: Change<V>>(&mut self, place: usize, change: &C)
        ensures { self.new ≡ changed_at (C.changed change.now) place self.old }
    {
        if place < self.order.len() {
            let key = self.order[place];
            change_value(&mut self.slab, key, change);
        }
    }

    /// Changes each value. None is moved.
    pub fn change_each<C: Change<V>>(&mut self, change: &C)
        ensures { self.new ≡ map (C.changed change.now) self.old }
    {
        for i in 0..self.len() {
            self.change(i, change);
        }
    }

    /// Takes out all values. It does not allocate.
    pub fn clear(&mut self)
        ensures { self.new ≡ [] }
    {
        self.slab.clear();
        self.order.clear();
    }

    /// Whether the value at a place passes the test.
    fn passes<T: Test<V>>(&self, place: usize, test: &T) -> bool
        ensures { result ≡ option_map_or (T.passes test.now) (slice_get self.now place) false }
    {
        match self.get(place) {
            Some(value) => test.test(value),
            None => false,
        }
    }

    /// The place of the first value that passes the test.
    pub fn place<T: Test<V>>(&self, test: &T) -> Option<usize>
        ensures { result ≡ position (T.passes test.now) self.now }
    {
        for i in 0..self.len() {
            if self.passes(i, test) {
                return Some(i);
            }
        }
        None
    }

    /// Whether a value passes the test.
    pub fn any<T: Test<V>>(&self, test: &T) -> bool
        ensures { result ≡ list_any (T.passes test.now) self.now }
    {
        self.place(test).is_some()
    }

    /// Keeps the value at a place if it passes the test, and otherwise takes it out. Returns the
    /// place of the next value.
    fn keep<T: Test<V>>(&mut self, place: usize, test: &T) -> usize
        requires { place < length self.old }
        ensures left { self.new ≡ (if option_map_or (T.passes test.now) (slice_get self.old place) false then self.old else remove self.old place) }
        ensures next { result ≡ (if option_map_or (T.passes test.now) (slice_get self.old place) false then place + 1 else place) }
    {
        // For its clause `small`: the next place has a number.
        let _len = self.len();
        if self.passes(place, test) {
            place + 1
        } else {
            // The value is dropped.
            let _value = self.take(place);
            place
        }
    }

    /// Keeps the values that pass the test. It does not allocate.
    pub fn retain<T: Test<V>>(&mut self, test: &T)
        ensures { self.new ≡ filter (T.passes test.now) self.old }
    {
        let count = self.len();
        let mut place = 0;
        for _i in 0..count {
            place = self.keep(place, test);
        }
    }
}
