// A server's stable part.
ghost use Rattle.std.specs.Prelude.{◌≡◌, ◌≤◌, ◌<◌, ◌+◌, ◌-◌, ◌^◌, IfOk, true, if◌then◌else◌, length};
ghost use Rattle.st_base.specs.declared.ids.PageNo.{PageNo};
ghost use Rattle.st_extents.specs.Layout.{IsWithinLimits};
ghost use Rattle.st_journal.specs.Changes.{is_ranged};
ghost use Rattle.st_journal.specs.Parts as parts;
ghost use Rattle.st_journal.specs.Stable as stable;
ghost use Rattle.st_rules.specs.Extents as mapping;
ghost use Rattle.st_rules.specs.Keys.{page_no};
ghost use Rattle.st_rules.specs.Names as names;

use crate::change::Change;
use st_base::{Epoch, FileId, Name, NameRefusal, PageNo, ServerId};
use st_extents::{ExtentRefusal, Extents};
use st_namespace::Names;
use std::alloc::{AllocError, Global};
use thiserror::Error;

/// Why a change is refused, in the order of the checks.
#[derive(Clone, Copy, Debug, PartialEq, Eq, Error)]
pub enum ChangeRefusal {
    #[error("{0}")]
    Names(NameRefusal),
    #[error("no file {0}")]
    NoFile(u32),
    #[error("{free} free blocks for {asked} pages")]
    NoSpace { free: u64, asked: u64 },
    #[error("out of memory")]
    Memory,
}

/// What outlives a crash of a server: its epoch, its names and its extents.
#[derive(Drop)]
pub struct Stable {
    pub epoch: Epoch,
    pub names: Names,
    pub extents: Extents,
}

/// A refusal of names, as a change tells it.
fn refused(refusal: NameRefusal) -> ChangeRefusal
    ensures { result ≡ parts.refused refusal }
{
    match refusal {
        NameRefusal::Memory => ChangeRefusal::Memory,
        other => ChangeRefusal::Names(other),
    }
}

/// What a check of names told, as a check of a change tells it.
fn checked(told: Result<u32, NameRefusal>) -> Result<(), ChangeRefusal>
    ensures { result ≡ parts.names_checked told }
{
    match told {
        Ok(_) => Ok(()),
        Err(refusal) => Err(refused(refusal)),
    }
}

/// How many pages of a range have no block.
fn unmapped_pages(extents: &Extents, file: FileId, page: PageNo, count: u32) -> u32
    requires { page.0 + count ≤ 1048576 }
    ensures { result ≡ length (mapping.unmapped extents.now file page count) }
{
    let mut pages = 0;
    for place in 0..count {
        if extents.map(file, PageNo(page.0 + place)).is_some() {
            continue;
        }
        pages += 1;
    }
    pages
}

impl Stable {
    /// The stable part of a server that never began an epoch: epoch 0, the names of a fresh server,
    /// and no page mapped. `server` is from 1 to `servers`, which is at most 4; there are `servers`
    /// to 8 disks of 1 to 4,096 `blocks` each.
    pub fn fresh(
        alloc: Global,
        server: ServerId,
        servers: u16,
        disks: u16,
        blocks: u32,
    ) -> Result<Stable, AllocError>
        requires { IsWithinLimits server.0 servers disks blocks }
        ensures { IfOk result (λ s. parts.stable_of s ≡ stable.fresh (record { server = server; servers = servers; disks = disks; blocks = blocks })) }
    {
        Ok(Stable {
            epoch: Epoch(0),
            names: Names::fresh(alloc)?,
            extents: Extents::new(alloc, server, servers, disks, blocks)?,
        })
    }

    fn file(&self, ino: u32) -> FileId
        ensures { result ≡ stable.file (parts.stable_of self.now) ino }
    {
        FileId {
            server: self.extents.server(),
            ino,
        }
    }

    #[tactic(auto, unfolding(crate::specs::Stable::allocate))]
    fn allocate(&mut self, ino: u32, page: PageNo, count: u16) -> Result<(), ChangeRefusal>
        requires range { page.0 + count ≤ 1048576 }
        requires births { self.old.extents.births < 2 ^ 62 }
        ensures { parts.Applies (parts.stable_of self.old) (parts.stable_of self.new) result (stable.allocate (parts.stable_of self.old) ino page count) }
    {
        if !self.names.is_file(ino) {
            return Err(ChangeRefusal::NoFile(ino));
        }
        let file = self.file(ino);
        match self.extents.allocate(file, page, u32::from(count)) {
            Ok(()) => Ok(()),
            Err(ExtentRefusal::NoSpace { free, asked }) => {
                Err(ChangeRefusal::NoSpace { free, asked })
            }
            Err(ExtentRefusal::Memory) => Err(ChangeRefusal::Memory),
        }
    }

    #[tactic(auto, unfolding(crate::specs::Stable::named))]
    fn create(&mut self, dir: u32, name: &Name) -> Result<(), ChangeRefusal>
        requires { self.old.names.next < 2 ^ 32 - 1 }
        ensures { parts.Applies (parts.stable_of self.old) (parts.stable_of self.new) result (stable.named (parts.stable_of self.old) (names.create self.old.names dir name.now)) }
    {
        match self.names.create(dir, name.as_slice()) {
            Ok(_) => Ok(()),
            Err(refusal) => Err(refused(refusal)),
        }
    }

    #[tactic(auto, unfolding(crate::specs::Stable::named))]
    fn mkdir(&mut self, dir: u32, name: &Name) -> Result<(), ChangeRefusal>
        requires { self.old.names.next < 2 ^ 32 - 1 }
        ensures { parts.Applies (parts.stable_of self.old) (parts.stable_of self.new) result (stable.named (parts.stable_of self.old) (names.mkdir self.old.names dir name.now)) }
    {
        match self.names.mkdir(dir, name.as_slice()) {
            Ok(_) => Ok(()),
            Err(refusal) => Err(refused(refusal)),
        }
    }

    /// Whether a name in a directory is that of a file, if the place is not refused.
    fn is_file_at(&self, dir: u32, name: &[u8]) -> bool
        ensures { result ≡ parts.is_file_at self.now.names (names.lookup self.now.names dir name.now) }
    {
        match self.names.lookup(dir, name) {
            Ok(ino) => self.names.is_file(ino),
            Err(_) => false,
        }
    }

    /// An entry that went takes its extents with it, if it was a file's.
    fn release_all(&mut self, ino: u32, is_file: bool)
        ensures { parts.stable_of self.new ≡ (if is_file then stable.released (parts.stable_of self.old) ino (page_no 0) else parts.stable_of self.old) }
    {
        if is_file {
            let file = self.file(ino);
            self.extents.release_from(file, PageNo(0));
        }
    }

    #[tactic(auto, unfolding(crate::specs::Stable::removed))]
    fn remove(&mut self, dir: u32, name: &Name) -> Result<(), ChangeRefusal>
        ensures { parts.Applies (parts.stable_of self.old) (parts.stable_of self.new) result (stable.removed (parts.stable_of self.old) (names.remove self.old.names dir name.now)) }
    {
        let is_file = self.is_file_at(dir, name.as_slice());
        match self.names.remove(dir, name.as_slice()) {
            Ok(ino) => {
                self.release_all(ino, is_file);
                Ok(())
            }
            Err(refusal) => Err(refused(refusal)),
        }
    }

    #[tactic(auto, unfolding(crate::specs::Stable::named))]
    fn rename(
        &mut self,
        dir: u32,
        name: &Name,
        dir2: u32,
        name2: &Name,
    ) -> Result<(), ChangeRefusal>
        ensures { parts.Applies (parts.stable_of self.old) (parts.stable_of self.new) result (stable.named (parts.stable_of self.old) (names.rename self.old.names dir name.now dir2 name2.now)) }
    {
        match self
            .names
            .rename(dir, name.as_slice(), dir2, name2.as_slice())
        {
            Ok(_) => Ok(()),
            Err(refusal) => Err(refused(refusal)),
        }
    }

    /// Applies a change, whose numbers are in their ranges: an inode from 1, pages up to 1,048,575,
    /// and 1 to 64 of them. The counter that it raises is not at its end. Removing a file releases
    /// its extents. A refusal but `Memory` changes nothing; after `Memory` nothing is promised but
    /// that the value can be dropped.
    #[tactic(auto, unfolding(crate::specs::Stable::apply, crate::specs::Stable::cut, crate::specs::Changes::is_ranged))]
    pub fn apply(&mut self, change: &Change) -> Result<(), ChangeRefusal>
        requires ranges { is_ranged change.now ≡ true }
        requires room { stable.HasRoom (parts.stable_of self.old) change.now }
        ensures { parts.Applies (parts.stable_of self.old) (parts.stable_of self.new) result (stable.apply (parts.stable_of self.old) change.now) }
    {
        match change {
            Change::Epoch => {
                self.epoch = Epoch(self.epoch.0 + 1);
                Ok(())
            }
            Change::Allocate { ino, page, count } => self.allocate(*ino, *page, *count),
            Change::Cut { ino, from } => {
                if !self.names.is_file(*ino) {
                    return Err(ChangeRefusal::NoFile(*ino));
                }
                let file = self.file(*ino);
                self.extents.release_from(file, *from);
                Ok(())
            }
            Change::Create { dir, name } => self.create(*dir, name),
            Change::Mkdir { dir, name } => self.mkdir(*dir, name),
            Change::Remove { dir, name } => self.remove(*dir, name),
            Change::Rename {
                dir,
                name,
                dir2,
                name2,
            } => self.rename(*dir, name, *dir2, name2),
        }
    }

    #[tactic(auto, unfolding(crate::specs::Stable::allocate, st_rules::specs::Extents::allocate, st_rules::specs::Extents::allocate_pages))]
    fn check_allocate(&self, ino: u32, page: PageNo, count: u16) -> Result<(), ChangeRefusal>
        requires { page.0 + count ≤ 1048576 }
        ensures { result ≡ parts.checked (stable.allocate (parts.stable_of self.now) ino page count) }
    {
        if !self.names.is_file(ino) {
            return Err(ChangeRefusal::NoFile(ino));
        }
        let asked = unmapped_pages(&self.extents, self.file(ino), page, u32::from(count));
        let free = self.extents.free();
        if free < asked {
            return Err(ChangeRefusal::NoSpace {
                free: u64::from(free),
                asked: u64::from(asked),
            });
        }
        Ok(())
    }

    fn check_entry(&self, dir: u32, name: &Name) -> Result<(), ChangeRefusal>
        ensures create { result ≡ parts.checked (stable.named (parts.stable_of self.now) (names.create self.now.names dir name.now)) }
        ensures mkdir { result ≡ parts.checked (stable.named (parts.stable_of self.now) (names.mkdir self.now.names dir name.now)) }
    {
        checked(self.names.check_add(dir, name.as_slice()))
    }

    fn check_remove(&self, dir: u32, name: &Name) -> Result<(), ChangeRefusal>
        ensures { result ≡ parts.checked (stable.removed (parts.stable_of self.now) (names.remove self.now.names dir name.now)) }
    {
        checked(self.names.check_remove(dir, name.as_slice()))
    }

    fn check_rename(
        &self,
        dir: u32,
        name: &Name,
        dir2: u32,
        name2: &Name,
    ) -> Result<(), ChangeRefusal>
        ensures { result ≡ parts.checked (stable.named (parts.stable_of self.now) (names.rename self.now.names dir name.now dir2 name2.now)) }
    {
        checked(
            self.names
                .check_rename(dir, name.as_slice(), dir2, name2.as_slice()),
        )
    }

    /// Whether `apply` would refuse a change if memory lasted, and why. It takes no memory. The
    /// numbers of the change are in their ranges.
    #[tactic(auto, unfolding(crate::specs::Stable::apply, crate::specs::Stable::cut, crate::specs::Changes::is_ranged))]
    pub fn check(&self, change: &Change) -> Result<(), ChangeRefusal>
        requires { is_ranged change.now ≡ true }
        ensures { result ≡ parts.checked (stable.apply (parts.stable_of self.now) change.now) }
    {
        match change {
            Change::Epoch => Ok(()),
            Change::Allocate { ino, page, count } => self.check_allocate(*ino, *page, *count),
            Change::Cut { ino, .. } => {
                if !self.names.is_file(*ino) {
                    return Err(ChangeRefusal::NoFile(*ino));
                }
                Ok(())
            }
            Change::Create { dir, name } => self.check_entry(*dir, name),
            Change::Mkdir { dir, name } => self.check_entry(*dir, name),
            Change::Remove { dir, name } => self.check_remove(*dir, name),
            Change::Rename {
                dir,
                name,
                dir2,
                name2,
            } => self.check_rename(*dir, name, *dir2, name2),
        }
    }
}
