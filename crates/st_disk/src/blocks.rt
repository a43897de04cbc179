// The blocks that were written.
ghost use Rattle.std.specs.Prelude.{◌≡◌, ◌<◌, [], OnOk, OnErr, Some, None, find, length, slice_get, if◌then◌else◌};
ghost use Rattle.std.specs.List.{position};
ghost use Rattle.std.specs.Option.{option_copied};
ghost use Rattle.indexmap.specs.IndexMap.{get, spare};
ghost use Rattle.st_disk.specs.Indexes as indexes_of;
ghost use Rattle.st_disk.specs.Indexes.{same_place};
ghost use Rattle.st_disk.specs.declared.blocks.PlaceKey.{PlaceKey};
ghost use Rattle.st_rules.specs.Keys as keys;
ghost use Rattle.st_rules.specs.Disks as disks;

use indexmap::IndexMap;
use st_base::BlockAt;
use st_rules::Block;
use std::alloc::{AllocError, Global};
use std::marker::Model;

/// The place of a block, by plain numbers: a key of an index.
#[derive(Clone, Copy, Debug, PartialEq, Eq, Hash)]
pub struct PlaceKey {
    pub disk: u16,
    pub block: u32,
}

/// Returns the key of a place.
fn place_key(at: BlockAt) -> PlaceKey
    ensures { result ≡ indexes_of.place_key at }
{
    PlaceKey {
        disk: at.disk.0,
        block: at.block,
    }
}

/// The index under a key.
fn index_under(indexes: &IndexMap<PlaceKey, usize>, key: PlaceKey) -> Option<usize>
    ensures { result ≡ get same_place indexes.now key }
{
    indexes.get(&key).copied()
}

/// Keeps an index under a key. There must be room for one more key.
fn keep(indexes: &mut IndexMap<PlaceKey, usize>, key: PlaceKey, index: usize)
    requires { 0 < spare indexes.old }
    ensures { (q : PlaceKey) → get same_place indexes.new q ≡ (if same_place key q then Some index else get same_place indexes.old q) }
{
    // The index that was there is dropped; there is room, so no memory is taken.
    let _old = indexes.insert(key, index).unwrap();
}

/// How many blocks were written.
fn count_of(written: &Vec<Block>) -> usize
    ensures { result ≡ length written.now.items }
{
    written.len()
}

/// The block of an index.
fn block_at(written: &[Block], index: usize) -> Option<&Block>
    ensures { option_copied result ≡ slice_get written.now index }
{
    written.get(index)
}

/// The blocks that were written, in the order in which they were first written, each found by its
/// place in constant time. Contracts see their list.
#[derive(Drop)]
pub struct Blocks {
    written: Vec<Block>,
    indexes: IndexMap<PlaceKey, usize>,
}

impl Model for Blocks {
    ghost use Rattle.std.specs.Prelude.{List};
    ghost use Rattle.st_rules.specs.declared.disks.Block.{Block};
    ghost use Rattle.st_disk.specs.Indexes.{IsIndexed};

    ghost Value = { List Block };

    ghost view = { λ b. b.written.items };

    ghost invariant = { λ b. IsIndexed b.written.items b.indexes };
}

impl Blocks {
    /// No blocks. It does not allocate.
    pub fn new(alloc: Global) -> Blocks
        ensures { result ≡ [] }
    {
        Blocks {
            written: Vec::new(alloc),
            indexes: IndexMap::new(alloc),
        }
    }

    /// Where the block of a place is among the written ones.
    fn index_of(&self, at: BlockAt) -> Option<usize>
        ensures { result ≡ position (disks.is_block_at at) self.now }
    {
        index_under(&self.indexes, place_key(at))
    }

    /// The block at a place, if it was ever written.
    pub fn find(&self, at: BlockAt) -> Option<&Block>
        ensures { option_copied result ≡ find (disks.is_block_at at) self.now }
    {
        match self.index_of(at) {
            None => None,
            Some(index) => block_at(&self.written, index),
        }
    }

    /// One more block, at a place that was never written.
    fn add(&mut self, block: Block) -> Result<(), AllocError>
        requires { position (disks.is_block_at block.at) self.old ≡ None }
        ensures ok { OnOk result (self.new ≡ keys.put (disks.is_block_at block.at) block self.old) }
        ensures err { OnErr result (self.new ≡ self.old) }
    {
        self.indexes.reserve(1)?;
        let index = count_of(&self.written);
        let key = place_key(block.at);
        self.written.push(block)?;
        keep(&mut self.indexes, key, index);
        Ok(())
    }

    /// Writes a block over the one at its place.
    fn change(&mut self, index: usize, block: Block)
        requires { position (disks.is_block_at block.at) self.old ≡ Some index }
        ensures { self.new ≡ keys.put (disks.is_block_at block.at) block self.old }
    {
        self.written[index] = block;
    }

    /// Puts a block in its place: it replaces the one that was written there, or goes last.
    pub fn put(&mut self, block: Block) -> Result<(), AllocError>
        ensures ok { OnOk result (self.new ≡ keys.put (disks.is_block_at block.at) block self.old) }
        ensures err { OnErr result (self.new ≡ self.old) }
    {
        match self.index_of(block.at) {
            None => self.add(block)?,
            Some(index) => self.change(index, block),
        }
        Ok(())
    }
}
