ghost use Rattle.std.specs.Prelude.{◌≡◌, ◌≤◌, ◌<◌, ◌+◌, ◌-◌, ◌*◌, ◌^◌, ◌∷◌, ◌++◌, [], not, find, filter, is_some, length, get_or, vec_len, false, true, All, IfOk, IfErr, IfSome, IfNone, OnOk, OnErr, ℕ, List};
ghost use Rattle.std.specs.List.{list_any};
ghost use Rattle.st_base.specs.declared.disk.BlockAt.{BlockAt};
ghost use Rattle.st_rules.specs.declared.extents.Extent.{Extent};
ghost use Rattle.st_rules.specs.Extents as extents;
ghost use Rattle.st_rules.specs.Keys.{same_block};
ghost use Rattle.st_extents.specs.Layout.{none_at, unmapped_of};
ghost use Rattle.st_extents.specs.Places.{AreInOrder, HasOneMore, IsLaid, IsLastMapped, IsMapped, is_among, rank};
ghost use Rattle.st_extents.specs.Restored.{AreBorn, FollowsOn, IsAgainst};
ghost use Rattle.st_extents.specs.Runs.{AreRunsOf, run_at};

use crate::restored::RestoreRefusal;
use crate::run_map::RunMap;
use crate::runs::Runs;
use crate::taken_blocks::TakenBlocks;
use st_base::{BlockAt, FileId, PageNo};
use st_rules::Extent;
use std::alloc::{AllocError, Global};
use std::marker::Model;

/// A block's number among the blocks of all disks, if a disk has at most 2^32 blocks.
fn rank(at: BlockAt) -> u64
    ensures { result ≡ rank at }
{
    u64::from(at.disk.0) * 4294967296 + u64::from(at.block)
}

/// Whether two blocks are the same.
fn same_block(a: BlockAt, b: BlockAt) -> bool
    ensures { result ≡ same_block a b }
{
    a.disk.0 == b.disk.0 && a.block == b.block
}

/// The first place among these blocks, which are in order, from which on no block comes before this
/// one.
fn first_from(own: &[BlockAt], at: BlockAt) -> usize
    requires { AreInOrder own.now }
    ensures within { result ≤ length own.now }
    ensures below { (j : ℕ) (d : BlockAt) → j < result → rank (get_or own.now j d) < rank at }
    ensures above { (j : ℕ) (d : BlockAt) → result ≤ j → j < length own.now → rank at ≤ rank (get_or own.now j d) }
{
    let mut low = 0;
    let mut high = own.len();
    'halves: while low < high {
        let middle = low + (high - low) / 2;
        if rank(own[middle]) < rank(at) {
            low = middle + 1;
        } else {
            high = middle;
        }
    }
    low
}

/// The place of a block among these blocks, which are in order. It is one of them.
fn place_of(own: &[BlockAt], at: BlockAt) -> usize
    requires order { AreInOrder own.now }
    requires among { is_among own.now at ≡ true }
    ensures within { result < length own.now }
    ensures at { (d : BlockAt) → get_or own.now result d ≡ at }
{
    first_from(own, at)
}

/// The place of a block among these blocks, which are in order, if it is one of them.
fn own_place(own: &[BlockAt], at: BlockAt) -> Option<usize>
    requires { AreInOrder own.now }
    ensures within { IfSome result (λ i. i < length own.now) }
    ensures there { IfSome result (λ i. (d : BlockAt) → get_or own.now i d ≡ at) }
    ensures none { IfNone result (is_among own.now at ≡ false) }
{
    let place = first_from(own, at);
    if place >= own.len() {
        return None;
    }
    if same_block(own[place], at) {
        Some(place)
    } else {
        None
    }
}

/// Unmaps the pages of a file from `page` on, the last one first, and gives back the places of
/// their blocks. It takes no memory.
fn release_all(
    runs: &mut Runs,
    taken: &mut TakenBlocks,
    own: &[BlockAt],
    file: FileId,
    page: PageNo,
)
    requires { IsLaid own.now taken.old runs.old.rows }
    ensures laid { IsLaid own.now taken.new runs.new.rows }
    ensures rows { runs.new.rows ≡ filter (λ e. not (extents.is_at_or_behind file page e)) runs.old.rows }
    ensures births { runs.new.births ≡ runs.old.births }
{
    'pages: while let Some(extent) = runs.pop_from(file, page) {
        let place = place_of(own, extent.at);
        taken.give(place);
    }
}

/// The blocks of one server's disks in order, and the pages that are mapped to them, as runs.
#[derive(Drop)]
pub struct Mapping {
    own: Vec<BlockAt>,
    taken: TakenBlocks,
    runs: Runs,
}

impl Model for Mapping {
    ghost use Rattle.st_extents.specs.Places as shown;
    ghost use Rattle.st_extents.specs.Places.{IsLaid};

    ghost Value = { shown.Mapping };

    ghost view = { λ m. record { own = m.own.items; rows = m.runs.rows; births = m.runs.births; runs = m.runs.runs } };

    ghost invariant = { λ m. IsLaid m.own.items m.taken m.runs.rows };
}

impl Mapping {
    /// Nothing is mapped to these blocks.
    pub fn new(alloc: Global, own: Vec<BlockAt>) -> Result<Mapping, AllocError>
        requires order { AreInOrder own.items }
        requires few { length own.items < 2 ^ 32 }
        ensures own { IfOk result (λ m. m.own ≡ own.items) }
        ensures rows { IfOk result (λ m. m.rows ≡ []) }
        ensures births { IfOk result (λ m. m.births ≡ 0) }
    {
        let places = own.len();
        Ok(Mapping {
            own,
            taken: TakenBlocks::new(alloc, places)?,
            runs: Runs::new(alloc),
        })
    }

    /// The extent of a page, if it is mapped.
    pub fn get(&self, file: FileId, page: PageNo) -> Option<Extent>
        ensures { result ≡ find (extents.is_extent_of file page) self.now.rows }
    {
        self.runs.get(file, page)
    }

    /// The pages of the range of `count` pages from `page` on that have no block.
    pub fn unmapped(
        &self,
        file: FileId,
        page: PageNo,
        count: u32,
    ) -> Result<Vec<PageNo>, AllocError>
        requires { page.0 + count ≤ 1048576 }
        ensures pages { IfOk result (λ v. v.items ≡ unmapped_of self.now.rows file page count) }
        ensures few { IfOk result (λ v. vec_len v ≤ count) }
    {
        let mut pages = Vec::new(*self.own.allocator());
        for place in 0..count {
            let next = PageNo(page.0 + place);
            if self.get(file, next).is_some() {
                continue;
            }
            pages.push(next)?;
        }
        Ok(pages)
    }

    /// How many blocks are free.
    pub fn free(&self) -> usize
        ensures free { result ≡ length (filter (none_at self.now.rows) self.now.own) }
        ensures few { result ≤ length self.now.own }
    {
        self.taken.free()
    }

    /// How many pages are mapped.
    pub fn len(&self) -> usize
        ensures { result ≡ length self.now.rows }
    {
        self.runs.len()
    }

    /// How many births were given.
    pub fn births(&self) -> u64
        ensures { result ≡ self.now.births }
    {
        self.runs.births()
    }

    /// The runs of the mapped pages, by where they begin.
    pub fn runs(&self) -> &RunMap
        ensures { AreRunsOf self.now.rows (run_at result.now.entries) }
    {
        self.runs.runs()
    }

    /// Maps a page to the first free block under the next birth. There is a free block. An error
    /// changes nothing.
    pub fn place(&mut self, file: FileId, page: PageNo) -> Result<(), AllocError>
        requires births { self.old.births < 2 ^ 63 - 1 }
        requires page { page.0 < 1048576 }
        requires room { 1 ≤ length (filter (none_at self.old.rows) self.old.own) }
        requires fresh { is_some (find (extents.is_extent_of file page) self.old.rows) ≡ false }
        ensures own { self.new.own ≡ self.old.own }
        ensures placed { OnOk result (IsMapped self.old.rows file page (self.old.births + 1) (filter (none_at self.old.rows) self.old.own) self.new.rows) }
        ensures added { OnOk result (HasOneMore self.old.rows (self.old.births + 1) file page self.new.rows) }
        ensures births { OnOk result (self.new.births ≡ self.old.births + 1) }
        ensures room { OnOk result (length (filter (none_at self.new.rows) self.old.own) + 1 ≡ length (filter (none_at self.old.rows) self.old.own)) }
        ensures rows { OnErr result (self.new.rows ≡ self.old.rows) }
        ensures same_births { OnErr result (self.new.births ≡ self.old.births) }
    {
        let place = self.taken.first();
        let at = self.own[place];
        self.runs.push(file, page, at)?;
        self.taken.take(place);
        Ok(())
    }

    /// The mapped pages, in the order of their births.
    pub fn rows(&self, alloc: Global) -> Result<Vec<Extent>, AllocError>
        ensures rows { IfOk result (λ v. v.items ≡ self.now.rows) }
        ensures rise { OnOk result (AreBorn 0 self.now.rows self.now.births) }
        ensures few { OnOk result (self.now.births < 2 ^ 63) }
        ensures low { OnOk result (All (λ e. e.page.0 < 1048576) self.now.rows) }
    {
        self.runs.rows(alloc)
    }

    /// Counts births up to this number as given.
    pub fn pass(&mut self, births: u64)
        requires more { self.old.births ≤ births }
        requires few { births < 2 ^ 63 }
        ensures own { self.new.own ≡ self.old.own }
        ensures rows { self.new.rows ≡ self.old.rows }
        ensures births { self.new.births ≡ births }
    {
        self.runs.pass(births);
    }

    /// Maps a page to a block under a birth, if a server can have mapped it so after the others.
    pub fn lay(&mut self, extent: Extent) -> Result<(), RestoreRefusal>
        ensures own { self.new.own ≡ self.old.own }
        ensures rows { OnOk result (self.new.rows ≡ self.old.rows ++ extent ∷ []) }
        ensures births { OnOk result (self.new.births ≡ extent.birth) }
        ensures fits { OnOk result (FollowsOn self.old extent) }
        ensures err { IfErr result (λ r. IsAgainst r self.old extent) }
    {
        if extent.birth <= self.births() || extent.birth >= 9223372036854775808 {
            return Err(RestoreRefusal::WrongBirth);
        }
        if extent.page.0 >= 1048576 {
            return Err(RestoreRefusal::WrongPage);
        }
        if self.get(extent.file, extent.page).is_some() {
            return Err(RestoreRefusal::PageTwice);
        }
        let Some(place) = own_place(self.own.as_slice(), extent.at) else {
            return Err(RestoreRefusal::NotOwn);
        };
        if self.taken.is_taken(place) {
            return Err(RestoreRefusal::BlockTwice);
        }
        self.runs.pass(extent.birth - 1);
        self.runs.push(extent.file, extent.page, extent.at)?;
        self.taken.take_at(place);
        Ok(())
    }

    /// Unmaps the page that was mapped last, and takes its birth back. It takes no memory.
    pub fn take_back(&mut self, file: FileId, page: PageNo)
        requires { IsLastMapped file page self.old.births self.old.rows }
        ensures own { self.new.own ≡ self.old.own }
        ensures rows { (rows : List Extent) (e : Extent) → self.old.rows ≡ rows ++ e ∷ [] → self.new.rows ≡ rows }
        ensures births { self.new.births + 1 ≡ self.old.births }
    {
        let at = self.runs.take_back(file, page);
        let place = place_of(self.own.as_slice(), at);
        self.taken.give(place);
    }

    /// Unmaps the pages of a file from `page` on. It takes no memory.
    pub fn release(&mut self, file: FileId, page: PageNo)
        ensures own { self.new.own ≡ self.old.own }
        ensures rows { self.new.rows ≡ filter (λ e. not (extents.is_at_or_behind file page e)) self.old.rows }
        ensures births { self.new.births ≡ self.old.births }
    {
        release_all(
            &mut self.runs,
            &mut self.taken,
            self.own.as_slice(),
            file,
            page,
        );
    }
}
