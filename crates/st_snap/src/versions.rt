// The versions of pages.
ghost use Rattle.std.specs.Prelude.{◌≡◌, ◌+◌, ◌≤◌, IfOk, OnOk, OnErr, Some, None, [], length, cond, is_some, true, false};
ghost use Rattle.std.specs.BTreeMap.{IsOrdered};
ghost use Rattle.st_snap.specs.Versions.{AreVersions, IsLast, IsLastBelow, has_version, latest, page_at, same_key, slot_under, key_order, version};
ghost use Rattle.st_snap.specs.declared.versions.VersionKey.{VersionKey};

use crate::slots::Slots;
use st_base::{PageBytes, PageNo, ServerId};
use std::alloc::{AllocError, Global};
use std::collections::BTreeMap;
use std::marker::Model;

/// A version of a page: its file, its page, and how many images had been taken when it began. Keys
/// are ordered by these numbers, in this order.
#[derive(Clone, Copy, Debug, PartialEq, Eq, PartialOrd, Ord)]
pub struct VersionKey {
    pub file: u32,
    pub page: u32,
    pub takes: u32,
}

/// The slot of a version.
fn slot_under(map: &BTreeMap<VersionKey, u32>, key: VersionKey) -> Option<u32>
    ensures { result ≡ slot_under map.now.entries key }
{
    map.get(&key).copied()
}

/// Puts a version that is not there. An error changes nothing.
fn put_slot(
    map: &mut BTreeMap<VersionKey, u32>,
    key: VersionKey,
    slot: u32,
) -> Result<(), AllocError>
    requires { slot_under map.old.entries key ≡ None }
    ensures ok { OnOk result ((q : VersionKey) → slot_under map.new.entries q ≡ cond (same_key key q) (Some slot) (slot_under map.old.entries q)) }
    ensures length { OnOk result (length map.new.entries ≡ length map.old.entries + 1) }
    ensures err { OnErr result (map.new.entries ≡ map.old.entries) }
    ensures ordered { IsOrdered key_order map.new }
{
    map.insert(key, slot)?;
    Ok(())
}

/// Takes a version out, and returns its slot. It takes no memory.
fn take_slot(map: &mut BTreeMap<VersionKey, u32>, key: VersionKey) -> Option<u32>
    ensures slot { result ≡ slot_under map.old.entries key }
    ensures gone { (q : VersionKey) → slot_under map.new.entries q ≡ cond (same_key key q) None (slot_under map.old.entries q) }
    ensures length { is_some result ≡ true → length map.new.entries + 1 ≡ length map.old.entries }
    ensures ordered { IsOrdered key_order map.new }
{
    map.remove(&key)
}

/// The versions of pages, each with its bytes in a slot. Contracts see the versions with their
/// slots, the slots with their bytes, and the number of blocks.
#[derive(Drop)]
pub struct Versions {
    map: BTreeMap<VersionKey, u32>,
    slots: Slots,
}

impl Model for Versions {
    ghost use Rattle.st_snap.specs.Versions as shared_versions;

    ghost Value = { shared_versions.Versions };

    ghost view = { λ v. record { slots = v.map.entries; pages = v.slots.pages; blocks = v.slots.blocks } };

    ghost invariant = { λ v. shared_versions.AreVersions (record { slots = v.map.entries; pages = v.slots.pages; blocks = v.slots.blocks }) };
}

impl Versions {
    /// No versions, on one disk of this number of blocks.
    pub fn new(alloc: Global, server: ServerId, blocks: u32) -> Result<Versions, AllocError>
        requires server { server.0 ≡ 1 }
        requires some { 1 ≤ blocks }
        requires few { blocks ≤ 4096 }
        ensures blocks { IfOk result (λ v. v.blocks ≡ blocks) }
        ensures none { IfOk result (λ v. v.slots ≡ []) }
    {
        Ok(Versions {
            map: BTreeMap::new(alloc),
            slots: Slots::new(alloc, server, blocks)?,
        })
    }

    /// How many blocks have no version.
    pub fn free(&self) -> u32
        ensures free { result + length self.now.slots ≡ self.now.blocks }
        ensures kept { AreVersions self.now }
    {
        self.slots.free()
    }

    /// The last version.
    pub fn last(&self) -> Option<VersionKey>
        ensures { IsLast self.now result }
    {
        match self.map.range(..).next_back() {
            Some((key, _slot)) => Some(*key),
            None => None,
        }
    }

    /// The last version that comes before a key.
    pub fn last_below(&self, bound: VersionKey) -> Option<VersionKey>
        ensures { IsLastBelow self.now bound result }
    {
        match self.map.range(..bound).next_back() {
            Some((key, _slot)) => Some(*key),
            None => None,
        }
    }

    /// The last version of a page that began before the take of this number, by how many takes
    /// there were.
    pub fn latest(&self, file: u32, page: PageNo, take: u32) -> Option<u32>
        ensures { result ≡ latest (has_version self.now) file page.0 take }
    {
        let bound = VersionKey {
            file,
            page: page.0,
            takes: take,
        };
        match self.last_below(bound) {
            Some(key) if key.file == file && key.page == page.0 => Some(key.takes),
            _ => None,
        }
    }

    /// The bytes of a version.
    pub fn get(&self, key: VersionKey) -> &PageBytes
        requires { has_version self.now key ≡ true }
        ensures { version self.now key ≡ Some result.now }
    {
        let Some(slot) = slot_under(&self.map, key) else {
            unreachable!()
        };
        self.slots.get(slot)
    }

    /// Writes the bytes of a version over. An error changes nothing.
    pub fn set(&mut self, key: VersionKey, bytes: &PageBytes) -> Result<(), AllocError>
        requires { has_version self.old key ≡ true }
        ensures written { OnOk result ((q : VersionKey) → version self.new q ≡ cond (same_key key q) (Some bytes.now) (version self.old q)) }
        ensures length { length self.new.slots ≡ length self.old.slots }
        ensures blocks { self.new.blocks ≡ self.old.blocks }
        ensures err { OnErr result (self.new ≡ self.old) }
    {
        let Some(slot) = slot_under(&self.map, key) else {
            unreachable!()
        };
        self.slots.put(slot, bytes)
    }

    /// A new version with these bytes, in a slot of its own. An error leaves all versions as they
    /// were.
    pub fn add(&mut self, key: VersionKey, bytes: &PageBytes) -> Result<(), AllocError>
        requires { has_version self.old key ≡ false }
        ensures added { OnOk result ((q : VersionKey) → version self.new q ≡ cond (same_key key q) (Some bytes.now) (version self.old q)) }
        ensures blocks { self.new.blocks ≡ self.old.blocks }
        ensures err { OnErr result ((q : VersionKey) → version self.new q ≡ version self.old q) }
    {
        let slot = self.slots.add(bytes)?;
        if put_slot(&mut self.map, key, slot).is_err() {
            self.slots.release(slot);
            return Err(AllocError);
        }
        Ok(())
    }

    /// Takes a version out, and gives up its slot. It takes no memory.
    pub fn remove(&mut self, key: VersionKey)
        requires { has_version self.old key ≡ true }
        ensures gone { (q : VersionKey) → version self.new q ≡ cond (same_key key q) None (version self.old q) }
        ensures blocks { self.new.blocks ≡ self.old.blocks }
    {
        let Some(slot) = take_slot(&mut self.map, key) else {
            unreachable!()
        };
        self.slots.release(slot);
    }
}
