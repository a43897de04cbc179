// Numbered slots, each with a block and its bytes.
ghost use Rattle.std.specs.Prelude.{◌≡◌, ◌≤◌, ◌+◌, IfOk, OnOk, OnErr, Some, None, [], length, cond, is_some, not, filter, true, ℕ, ◌==◌};
ghost use Rattle.st_rules.specs.Keys as keys;
ghost use Rattle.st_rules.specs.Disks as disks_of;
ghost use Rattle.st_disk.specs.Calls.{SameSize};
ghost use Rattle.st_snap.specs.Slots.{HasOneMore, slot_at, slot_file};

use st_base::{BlockAt, Command, FileId, PageBytes, PageNo, ServerId, Tag};
use st_disk::Disks;
use st_extents::Extents;
use std::alloc::{AllocError, Global};
use std::marker::Model;

/// The page of a slot's file that has the slot's block.
const PAGE: PageNo = PageNo(0);

/// The file of a slot.
fn file_of(slot: u32) -> FileId
    ensures { result ≡ slot_file slot }
{
    FileId {
        server: ServerId(1),
        ino: slot,
    }
}

/// Writes a block: the command is submitted, has its effect, and is reported. An error leaves the
/// blocks as they were.
fn write_block(disks: &mut Disks, at: BlockAt, tag: Tag, bytes: PageBytes) -> Result<(), AllocError>
    ensures ok { OnOk result (disks.new.written ≡ keys.put (disks_of.is_block_at at) (record { at = at; tag = tag; bytes = bytes }) disks.old.written) }
    ensures err { OnErr result (disks.new.written ≡ disks.old.written) }
    ensures size { SameSize disks.old disks.new }
{
    let number = disks.submit(Command::Write { at, tag, bytes })?;
    if disks.effect(number).is_err() {
        return Err(AllocError);
    }
    // It is reported: it was outstanding, and had its effect.
    let _reported = disks.done(number, true);
    Ok(())
}

/// Slots by their numbers from 1, and the bytes of each. A number is given once. Contracts see how
/// many blocks there are, and the list of the slots with their bytes.
#[derive(Drop)]
pub struct Slots {
    extents: Extents,
    disks: Disks,
    last: u32,
}

impl Model for Slots {
    ghost use Rattle.st_snap.specs.Slots as shared_slots;

    ghost Value = { shared_slots.Slots };

    ghost view = { λ s. record { blocks = s.extents.blocks; pages = shared_slots.slots_of s.disks s.extents.rows } };

    ghost invariant = { λ s. shared_slots.AreSlots s.extents s.disks s.last };
}

impl Slots {
    /// No slots, on one disk of this number of blocks.
    pub fn new(alloc: Global, server: ServerId, blocks: u32) -> Result<Slots, AllocError>
        requires server { server.0 ≡ 1 }
        requires some { 1 ≤ blocks }
        requires few { blocks ≤ 4096 }
        ensures blocks { IfOk result (λ s. s.blocks ≡ blocks) }
        ensures pages { IfOk result (λ s. s.pages ≡ []) }
    {
        Ok(Slots {
            extents: Extents::new(alloc, server, 1, 1, blocks)?,
            disks: Disks::new(alloc, 1, blocks),
            last: 0,
        })
    }

    /// How many blocks have no slot.
    pub fn free(&self) -> u32
        ensures { result + length self.now.pages ≡ self.now.blocks }
    {
        self.extents.free()
    }

    /// The bytes of a slot.
    pub fn get(&self, slot: u32) -> &PageBytes
        requires { is_some (slot_at self.now.pages slot) ≡ true }
        ensures { slot_at self.now.pages slot ≡ Some result.now }
    {
        let Some((at, _birth)) = self.extents.map(file_of(slot), PAGE) else {
            unreachable!()
        };
        let (_tag, bytes) = self.disks.block(at);
        bytes
    }

    /// Writes the bytes of a slot over. An error changes nothing.
    pub fn put(&mut self, slot: u32, bytes: &PageBytes) -> Result<(), AllocError>
        requires { is_some (slot_at self.old.pages slot) ≡ true }
        ensures written { OnOk result ((q : ℕ) → slot_at self.new.pages q ≡ cond (slot == q) (Some bytes.now) (slot_at self.old.pages q)) }
        ensures length { length self.new.pages ≡ length self.old.pages }
        ensures blocks { self.new.blocks ≡ self.old.blocks }
        ensures err { OnErr result (self.new ≡ self.old) }
    {
        let Some((at, birth)) = self.extents.map(file_of(slot), PAGE) else {
            unreachable!()
        };
        let tag = Tag {
            file: file_of(slot),
            page: PAGE,
            birth,
        };
        write_block(&mut self.disks, at, tag, bytes.copy()?)
    }

    /// Gives a slot up. It takes no memory.
    pub fn release(&mut self, slot: u32)
        requires { is_some (slot_at self.old.pages slot) ≡ true }
        ensures left { self.new.pages ≡ filter (λ e. not (slot == e.0)) self.old.pages }
        ensures gone { (q : ℕ) → slot_at self.new.pages q ≡ cond (slot == q) None (slot_at self.old.pages q) }
        ensures length { length self.new.pages + 1 ≡ length self.old.pages }
        ensures blocks { self.new.blocks ≡ self.old.blocks }
    {
        self.extents.release_from(file_of(slot), PAGE);
    }

    /// Maps the next slot to a block. An error changes nothing. If every number was given, no
    /// slot is left either.
    fn next(&mut self) -> Result<u32, AllocError>
        ensures fresh { IfOk result (λ slot. slot_at self.old.pages slot ≡ None) }
        ensures added { IfOk result (λ slot. HasOneMore self.old.pages slot self.new.pages) }
        ensures blocks { self.new.blocks ≡ self.old.blocks }
        ensures err { OnErr result (self.new ≡ self.old) }
    {
        if self.last == u32::MAX {
            return Err(AllocError);
        }
        let slot = self.last + 1;
        if self.extents.allocate(file_of(slot), PAGE, 1).is_err() {
            return Err(AllocError);
        }
        self.last = slot;
        Ok(slot)
    }

    /// A new slot with these bytes, on a free block. An error changes nothing.
    pub fn add(&mut self, bytes: &PageBytes) -> Result<u32, AllocError>
        ensures fresh { IfOk result (λ slot. slot_at self.old.pages slot ≡ None) }
        ensures added { IfOk result (λ slot. (q : ℕ) → slot_at self.new.pages q ≡ cond (slot == q) (Some bytes.now) (slot_at self.old.pages q)) }
        ensures length { OnOk result (length self.new.pages ≡ length self.old.pages + 1) }
        ensures blocks { self.new.blocks ≡ self.old.blocks }
        ensures err { OnErr result (self.new ≡ self.old) }
    {
        let slot = self.next()?;
        if self.put(slot, bytes).is_err() {
            self.release(slot);
            return Err(AllocError);
        }
        Ok(slot)
    }
}
