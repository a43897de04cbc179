ghost use Rattle.std.specs.Prelude.{◌≡◌, ◌≤◌, ◌+◌, ◌<◌, ◌^◌, IfOk, IfErr, OnOk, OnErr, length, filter};
ghost use Rattle.std.specs.List.{AllByRecursion};
ghost use Rattle.st_rules.specs.Extents as extents;
ghost use Rattle.st_extents.specs.Layout.{Allocates, AreFresh, IsWithinLimits, PlacesAll, none_at, with_shape};
ghost use Rattle.st_extents.specs.Ownership.{IsOwned};
ghost use Rattle.st_extents.specs.Places.{AreLastMapped, TakesBack};
ghost use Rattle.st_extents.specs.Restored.{CanBe, IsRefused};
ghost use Rattle.st_extents.specs.Runs.{AreRunsOf, run_at};

use crate::layout::own_blocks;
use crate::mapping::Mapping;
use crate::refusal::ExtentRefusal;
use crate::restored::{RestoreRefusal, lay_all};
use crate::run_map::{Run, RunKey};
use st_base::{BlockAt, FileId, PageNo, ServerId};
use st_rules::Extent;
use std::alloc::{AllocError, Global};
use std::collections::BTreeMap;
use std::marker::Model;

/// The extents of one server. Contracts see them as the counts of the world, the list of its mapped
/// pages, and how many births were given.
#[derive(Drop)]
pub struct Extents {
    server: ServerId,
    servers: u16,
    disks: u16,
    blocks: u32,
    mapping: Mapping,
}

impl Model for Extents {
    ghost use Rattle.st_rules.specs.Extents as extents;
    ghost use Rattle.st_extents.specs.Layout.{IsKept, with_shape};

    ghost Value = { extents.Extents };

    ghost view = { λ x. with_shape (record { server = x.server; servers = x.servers; disks = x.disks; blocks = x.blocks }) x.mapping.rows x.mapping.births };

    ghost invariant = { λ x. IsKept (record { server = x.server; servers = x.servers; disks = x.disks; blocks = x.blocks }) x.mapping };
}

/// Unmaps these pages, which were mapped last and in this order, and takes their births back. It
/// takes no memory.
fn take_back(mapping: &mut Mapping, file: FileId, pages: &[PageNo])
    requires { AreLastMapped file pages.now mapping.old.births mapping.old.rows }
    ensures own { mapping.new.own ≡ mapping.old.own }
    ensures back { TakesBack mapping.old mapping.new file pages.now }
{
    let mut left = pages.len();
    while left > 0 {
        left -= 1;
        mapping.take_back(file, pages[left]);
    }
}

/// Maps these pages one after another, or none of them if it runs out of memory.
fn place_pages(mapping: &mut Mapping, file: FileId, pages: &[PageNo]) -> Result<(), AllocError>
    requires room { length pages.now ≤ length (filter (none_at mapping.old.rows) mapping.old.own) }
    requires counted { mapping.old.births + length pages.now < 2 ^ 63 }
    requires low { AllByRecursion (λ p. p.0 < 1048576) pages.now }
    requires fresh { AreFresh mapping.old.rows file pages.now }
    ensures placed { OnOk result (PlacesAll mapping.old mapping.new file pages.now) }
    ensures own { mapping.new.own ≡ mapping.old.own }
    ensures few { mapping.new.births ≤ mapping.old.births + length pages.now }
    ensures rows { OnErr result (mapping.new.rows ≡ mapping.old.rows) }
    ensures births { OnErr result (mapping.new.births ≡ mapping.old.births) }
{
    for place in 0..pages.len() {
        let Ok(()) = mapping.place(file, pages[place]) else {
            take_back(mapping, file, &pages[..place]);
            return Err(AllocError);
        };
    }
    Ok(())
}

impl Extents {
    /// The extents of a server with nothing mapped. `server` is from 1 to `servers`; disk d belongs
    /// to server `1 + (d - 1) mod servers`; each disk has `blocks` blocks.
    pub fn new(
        alloc: Global,
        server: ServerId,
        servers: u16,
        disks: u16,
        blocks: u32,
    ) -> Result<Extents, AllocError>
        requires { IsWithinLimits server.0 servers disks blocks }
        ensures none { IfOk result (λ x. x ≡ extents.no_extents server servers disks blocks) }
        ensures owned { IfOk result IsOwned }
    {
        let own = own_blocks(alloc, server, servers, disks, blocks)?;
        Ok(Extents {
            server,
            servers,
            disks,
            blocks,
            mapping: Mapping::new(alloc, own)?,
        })
    }

    /// The extents of a server with these mapped pages in the order of their births, after `births`
    /// births. Whatever no server's extents can be is refused. The counts of the world are as at
    /// `new`.
    pub fn restore(
        alloc: Global,
        server: ServerId,
        servers: u16,
        disks: u16,
        blocks: u32,
        rows: &[Extent],
        births: u64,
    ) -> Result<Extents, RestoreRefusal>
        requires { IsWithinLimits server.0 servers disks blocks }
        ensures ok { IfOk result (λ x. x ≡ with_shape (record { server = server; servers = servers; disks = disks; blocks = blocks }) rows.now births) }
        ensures owned { IfOk result IsOwned }
        ensures err { IfErr result (λ r. IsRefused r (with_shape (record { server = server; servers = servers; disks = disks; blocks = blocks }) rows.now births)) }
    {
        let own = own_blocks(alloc, server, servers, disks, blocks)?;
        let mut mapping = Mapping::new(alloc, own)?;
        lay_all(&mut mapping, rows)?;
        if births < mapping.births() || births >= 9223372036854775808 {
            return Err(RestoreRefusal::WrongBirth);
        }
        mapping.pass(births);
        Ok(Extents {
            server,
            servers,
            disks,
            blocks,
            mapping,
        })
    }

    /// The server's number.
    pub fn server(&self) -> ServerId
        ensures { result ≡ self.now.server }
    {
        self.server
    }

    /// The block and the birth of a page, if it is mapped.
    pub fn map(&self, file: FileId, page: PageNo) -> Option<(BlockAt, u64)>
        ensures { result ≡ extents.map_page self.now file page }
    {
        self.mapping.get(file, page).map(|e| (e.at, e.birth))
    }

    /// Maps each page of the range that has no block, in rising order, to the free block with the
    /// least disk and then the least number, under the next birth; or maps none, if the free blocks
    /// are too few or it runs out of memory.
    pub fn allocate(&mut self, file: FileId, page: PageNo, count: u32) -> Result<(), ExtentRefusal>
        requires range { page.0 + count ≤ 1048576 }
        requires births { self.old.births < 2 ^ 62 }
        ensures exact { Allocates self.old self.new result (extents.allocate self.old file page count) }
        ensures owned { IsOwned self.new }
    {
        let pages = self.mapping.unmapped(file, page, count)?;
        let asked = pages.len();
        let free = self.mapping.free();
        if free < asked {
            return Err(ExtentRefusal::NoSpace {
                free: free as u64,
                asked: asked as u64,
            });
        }
        place_pages(&mut self.mapping, file, pages.as_slice())?;
        Ok(())
    }

    /// Unmaps every page of the file from this page on, and frees their blocks. It does not
    /// allocate.
    pub fn release_from(&mut self, file: FileId, page: PageNo)
        ensures released { self.new ≡ extents.release_from self.old file page }
        ensures owned { IsOwned self.new }
    {
        self.mapping.release(file, page);
    }

    /// How many blocks of this server's disks are free.
    pub fn free(&self) -> u32
        ensures { result ≡ extents.free self.now }
    {
        self.mapping.free() as u32
    }

    /// How many pages are mapped.
    pub fn mapped(&self) -> u32
        ensures mapped { result ≡ length self.now.rows }
        ensures within { result ≤ length (extents.own_blocks self.now) }
    {
        self.mapping.len() as u32
    }

    /// The birth that the next mapping gets. Births count up from 1, and none is used twice.
    pub fn next_birth(&self) -> u64
        ensures { result ≡ self.now.births + 1 }
    {
        self.mapping.births() + 1
    }

    /// The mapped pages, in the order of their births.
    pub fn rows(&self, alloc: Global) -> Result<Vec<Extent>, AllocError>
        ensures rows { IfOk result (λ v. v.items ≡ self.now.rows) }
        ensures right { OnOk result (CanBe self.now) }
    {
        self.mapping.rows(alloc)
    }

    /// The mapped pages as runs, by where they begin: pages of one file one after another, on
    /// blocks of one disk one after another, under births one after another. No two runs could be
    /// joined.
    pub fn runs(&self) -> &BTreeMap<RunKey, Run>
        ensures { AreRunsOf self.now.rows (run_at result.now.entries) }
    {
        self.mapping.runs()
    }
}
