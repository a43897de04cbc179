// The updates of a container.
ghost use Rattle.std.specs.Prelude.{◌≡◌, ◌≤◌, ◌<◌, [], IfOk, Some, length, slice_get, true};
ghost use Rattle.std.specs.List.{list_all};
ghost use Rattle.st_move.specs.Updates as updates;
ghost use Rattle.st_move.specs.Calls.{Adds};

use crate::chunks::UpdateList;
use crate::refusal::MoveRefusal;
use crate::update::Update;
use std::alloc::{AllocError, Global};
use std::marker::Model;

/// The updates of a container, in the order in which they were accepted: at most 60,000 bytes
/// together. Copies share almost all of them. Contracts see them as a list of lists of bytes.
#[derive(Drop)]
pub struct Updates {
    items: UpdateList,
    bytes: u32,
}

impl Model for Updates {
    ghost use Rattle.std.specs.Prelude.{◌≡◌, List, ℕ};
    ghost use Rattle.st_move.specs.Updates.{AreUpdates, bytes_of};

    ghost Value = { List (List ℕ) };

    ghost view = { λ u. u.items };

    ghost invariant = { λ u. AreUpdates u.items × (u.bytes ≡ bytes_of u.items) };
}

impl Updates {
    /// No updates. It does not allocate.
    pub fn new(alloc: Global) -> Updates
        ensures { result ≡ [] }
    {
        Updates {
            items: UpdateList::new(alloc),
            bytes: 0,
        }
    }

    /// Makes updates of these, which have at most 60,000 bytes together. It takes no memory, and
    /// time for a look at each. What it makes is not shared: a copy of it copies a pointer for each
    /// update. Copies of that copy share it.
    pub fn from_vec(items: Vec<Update>) -> Updates
        requires { updates.bytes_of items.items ≤ updates.most_bytes }
        ensures { result ≡ items.items }
    {
        let bytes = total(items.as_slice());
        Updates {
            items: UpdateList::from_vec(items),
            bytes,
        }
    }

    /// Returns the number of updates, at most 60,000.
    pub fn len(&self) -> usize
        ensures len { result ≡ length self.now }
        ensures few { result ≤ 60000 }
        ensures updates { updates.AreUpdates self.now }
    {
        // Read for what always holds of updates: how many they are, and their lengths.
        let _bytes = self.bytes;
        self.items.len()
    }

    /// Returns the update at index `i`.
    pub fn get(&self, i: usize) -> &Update
        requires { i < length self.now }
        ensures { slice_get self.now i ≡ Some result.now }
    {
        self.items.get(i)
    }

    /// Returns the number of bytes of all updates, at most 60,000.
    pub fn bytes(&self) -> u32
        ensures bytes { result ≡ updates.bytes_of self.now }
        ensures few { result ≤ updates.most_bytes }
    {
        self.bytes
    }

    /// Adds a copy of an update of 1 to 139 bytes, and returns the number of updates.
    ///
    /// # Errors
    /// `Full` if the updates would have more than 60,000 bytes; `Memory` if memory runs out.
    /// Then nothing changed.
    #[tactic(auto, unfolding(crate::specs::Updates::added))]
    pub fn push(&mut self, update: &[u8]) -> Result<u32, MoveRefusal>
        requires { updates.is_update update.now ≡ true }
        ensures { Adds self.old self.new result update.now }
    {
        let bytes = self.bytes + update.len() as u32;
        if bytes > 60_000 {
            return Err(MoveRefusal::Full(bytes as u64));
        }
        let update = Update::from_slice(self.items.alloc(), update)?;
        self.items.push(update)?;
        self.bytes = bytes;
        Ok(self.len() as u32)
    }

    /// Returns a copy of the updates. It takes constant time: a copy of at most 32 pointers, and
    /// more only of what `from_vec` made.
    pub fn copy(&self) -> Result<Updates, AllocError>
        ensures { IfOk result (λ us. us ≡ self.now) }
    {
        Ok(Updates {
            items: self.items.copy()?,
            bytes: self.bytes,
        })
    }
}

/// The number of bytes of these updates.
fn total(items: &[Update]) -> u32
    requires { updates.bytes_of items.now ≤ updates.most_bytes }
    ensures total { result ≡ updates.bytes_of items.now }
    ensures each { list_all updates.is_update items.now ≡ true }
{
    let mut total = 0;
    for item in items {
        total += item.as_slice().len() as u32;
    }
    total
}
