ghost use Rattle.std.specs.Prelude.{◌≡◌, ◌≤◌, ◌<◌, ◌+◌, ◌-◌, ◌^◌, ◌++◌, ◌∷◌, [], not, find, filter, is_some, length, false, true, All, IfOk, OnOk, OnErr, IfSome, IfNone, Some};
ghost use Rattle.std.specs.Option.{IsSomeAnd};
ghost use Rattle.std.specs.List.{flat_map, list_any};
ghost use Rattle.std.specs.List.Sorted.{IsNonDecreasingBy, IsPermutation};
ghost use Rattle.st_rules.specs.Extents as extents;
ghost use Rattle.st_rules.specs.declared.extents.Extent.{Extent};
ghost use Rattle.st_extents.specs.Restored.{AreBorn};
ghost use Rattle.st_extents.specs.Runs as runs;

use crate::run_map::{Run, RunKey, RunMap, last_up_to, put, shorten};
use st_base::{BlockAt, FileId, PageNo};
use st_rules::Extent;
use std::alloc::{AllocError, Global};
use std::collections::BTreeMap;
use std::marker::Model;

/// The extent of the page this many places after a run's first one.
fn extent_in(key: RunKey, run: Run, place: u32) -> Extent
    requires page { key.1.0 + place < 2 ^ 32 }
    requires block { run.at.block + place < 2 ^ 32 }
    requires birth { run.birth + place < 2 ^ 64 }
    ensures { result ≡ runs.extent_in place (key, run) }
{
    Extent {
        file: key.0,
        page: PageNo(key.1.0 + place),
        at: BlockAt {
            disk: run.at.disk,
            block: run.at.block + place,
        },
        birth: run.birth + u64::from(place),
    }
}

/// The run with one page more if the page continues it; otherwise a run of that page.
fn grown_by(key: RunKey, run: Run, new_key: RunKey, new: Run) -> (RunKey, Run)
    requires file { runs.file_of key ≡ runs.file_of new_key }
    requires page { key.1.0 + run.length < 2 ^ 32 - 1 }
    requires birth { run.birth + run.length < 2 ^ 64 }
    ensures { result ≡ runs.grown_by (key, run) (new_key, new) }
{
    if key.1.0 + run.length == new_key.1.0
        && run.at.disk.0 == new.at.disk.0
        && run.at.block <= new.at.block
        && new.at.block - run.at.block == run.length
        && run.birth + u64::from(run.length) == new.birth
    {
        (
            key,
            Run {
                length: run.length + 1,
                at: run.at,
                birth: run.birth,
            },
        )
    } else {
        (new_key, new)
    }
}

/// The same, if there may be no run before the page.
fn grown(before: Option<(RunKey, Run)>, new_key: RunKey, new: Run) -> (RunKey, Run)
    requires file { IfSome before (λ e. runs.file_of e.0 ≡ runs.file_of new_key) }
    requires page { IfSome before (λ e. e.0.1.0 + e.1.length < 2 ^ 32 - 1) }
    requires birth { IfSome before (λ e. e.1.birth + e.1.length < 2 ^ 64) }
    ensures { result ≡ runs.grown before (new_key, new) }
{
    match before {
        Some((key, run)) => grown_by(key, run, new_key, new),
        None => (new_key, new),
    }
}

/// The runs in the order of their births.
fn by_birth(alloc: Global, map: &RunMap) -> Result<Vec<(RunKey, Run)>, AllocError>
    ensures same { IfOk result (λ v. IsPermutation map.now.entries v.items) }
    ensures rising { IfOk result (λ v. IsNonDecreasingBy runs.birth_of v.items) }
{
    let mut order = Vec::new(alloc);
    for (key, run) in map.iter() {
        order.push((*key, *run))?;
    }
    order.sort_unstable_by_key(|e| e.1.birth);
    Ok(order)
}

/// Appends the extents of a run.
fn push_pages(rows: &mut Vec<Extent>, key: RunKey, whole: Run) -> Result<(), AllocError>
    requires page { key.1.0 + whole.length < 2 ^ 32 }
    requires block { whole.at.block + whole.length ≤ 2 ^ 32 }
    requires birth { whole.birth + whole.length < 2 ^ 64 }
    ensures { OnOk result (rows.new.items ≡ rows.old.items ++ runs.pages_of (key, whole)) }
{
    for place in 0..whole.length {
        rows.push(extent_in(key, whole, place))?;
    }
    Ok(())
}

/// The extents of runs, one run after another.
fn rows_of(alloc: Global, order: &[(RunKey, Run)]) -> Result<Vec<Extent>, AllocError>
    requires { All runs.HasWords order.now }
    ensures { IfOk result (λ v. v.items ≡ flat_map runs.pages_of order.now) }
{
    let mut rows = Vec::new(alloc);
    for place in 0..order.len() {
        push_pages(&mut rows, order[place].0, order[place].1)?;
    }
    Ok(rows)
}

/// The mapped pages as runs, and how many births were given. Contracts see the list of the pages in
/// the order of their births, too.
#[derive(Drop)]
pub struct Runs {
    map: RunMap,
    births: u64,
    count: usize,
}

impl Model for Runs {
    ghost use Rattle.st_extents.specs.Runs as shown;
    ghost use Rattle.st_extents.specs.Runs.{IsRunTable, rows_of};

    ghost Value = { shown.Runs };

    ghost view = { λ r. record { rows = rows_of r.births r.map.entries; births = r.births; runs = r.map.entries } };

    ghost invariant = { λ r. IsRunTable r.births r.count r.map.entries };
}

impl Runs {
    /// No page is mapped, and no birth was given.
    pub fn new(alloc: Global) -> Runs
        ensures rows { result.rows ≡ [] }
        ensures births { result.births ≡ 0 }
    {
        Runs {
            map: BTreeMap::new(alloc),
            births: 0,
            count: 0,
        }
    }

    /// The extent of a page, if it is mapped.
    pub fn get(&self, file: FileId, page: PageNo) -> Option<Extent>
        ensures { result ≡ find (extents.is_extent_of file page) self.now.rows }
    {
        let Some((key, run)) = last_up_to(&self.map, file, page) else {
            return None;
        };
        if page.0 - key.1.0 < run.length {
            Some(extent_in(key, run, page.0 - key.1.0))
        } else {
            None
        }
    }

    /// How many pages are mapped.
    pub fn len(&self) -> usize
        ensures { result ≡ length self.now.rows }
    {
        self.count
    }

    /// How many births were given.
    pub fn births(&self) -> u64
        ensures { result ≡ self.now.births }
    {
        self.births
    }

    /// Counts births up to this number as given.
    pub fn pass(&mut self, births: u64)
        requires more { self.old.births ≤ births }
        requires few { births < 2 ^ 63 }
        ensures rows { self.new.rows ≡ self.old.rows }
        ensures births { self.new.births ≡ births }
    {
        self.births = births;
    }

    /// The runs, by where they begin.
    pub fn runs(&self) -> &RunMap
        ensures { runs.AreRunsOf self.now.rows (runs.run_at result.now.entries) }
    {
        &self.map
    }

    /// The mapped pages, in the order of their births.
    pub fn rows(&self, alloc: Global) -> Result<Vec<Extent>, AllocError>
        ensures rows { IfOk result (λ v. v.items ≡ self.now.rows) }
        ensures rise { OnOk result (AreBorn 0 self.now.rows self.now.births) }
        ensures few { OnOk result (self.now.births < 2 ^ 63) }
        ensures low { OnOk result (All (λ e. e.page.0 < 1048576) self.now.rows) }
    {
        let order = by_birth(alloc, &self.map)?;
        let rows = rows_of(alloc, order.as_slice())?;
        Ok(rows)
    }

    /// Maps a page that is not mapped, under the next birth. An error changes nothing.
    pub fn push(&mut self, file: FileId, page: PageNo, at: BlockAt) -> Result<(), AllocError>
        requires births { self.old.births < 2 ^ 63 - 1 }
        requires page { page.0 < 1048576 }
        requires fresh { is_some (find (extents.is_extent_of file page) self.old.rows) ≡ false }
        ensures rows { OnOk result (self.new.rows ≡ self.old.rows ++ runs.mapped_to file page at (self.old.births + 1) ∷ []) }
        ensures births { OnOk result (self.new.births ≡ self.old.births + 1) }
        ensures err { OnErr result (self.new ≡ self.old) }
    {
        let new = Run {
            length: 1,
            at,
            birth: self.births + 1,
        };
        let before = last_up_to(&self.map, file, page);
        let (key, run) = grown(before, (file, page), new);
        put(&mut self.map, key, run)?;
        self.births += 1;
        self.count += 1;
        Ok(())
    }

    /// Unmaps the last page of the file, if it is `page` or a later one, and returns what it was
    /// mapped to. It takes no memory.
    pub fn pop_from(&mut self, file: FileId, page: PageNo) -> Option<Extent>
        ensures some { IfSome result (λ e. extents.is_at_or_behind file page e ≡ true) }
        ensures found { IfSome result (λ e. find (extents.is_extent_of file e.page) self.old.rows ≡ Some e) }
        ensures rows { IfSome result (λ e. self.new.rows ≡ filter (λ x. not (extents.is_extent_of file e.page x)) self.old.rows) }
        ensures fewer { IfSome result (λ e. length self.new.rows < length self.old.rows) }
        ensures none { IfNone result (list_any (extents.is_at_or_behind file page) self.old.rows ≡ false) }
        ensures same { IfNone result (self.new.rows ≡ self.old.rows) }
        ensures births { self.new.births ≡ self.old.births }
    {
        let Some((key, run)) = last_up_to(&self.map, file, PageNo(u32::MAX)) else {
            return None;
        };
        let last = run.length - 1;
        if key.1.0 + last < page.0 {
            return None;
        }
        shorten(&mut self.map, key, run);
        self.count -= 1;
        Some(extent_in(key, run, last))
    }

    /// Unmaps the page that was mapped last, takes its birth back, and returns the block. It takes
    /// no memory.
    pub fn take_back(&mut self, file: FileId, page: PageNo) -> BlockAt
        requires { IsSomeAnd (find (extents.is_extent_of file page) self.old.rows) (λ e. e.birth ≡ self.old.births) }
        ensures last { (e : Extent) → find (extents.is_extent_of file page) self.old.rows ≡ Some e → runs.Unmaps self.old.rows self.new.rows result e }
        ensures rows { self.new.rows ≡ filter (λ x. not (extents.is_extent_of file page x)) self.old.rows }
        ensures births { self.new.births + 1 ≡ self.old.births }
    {
        let Some((key, run)) = last_up_to(&self.map, file, page) else {
            unreachable!()
        };
        shorten(&mut self.map, key, run);
        self.births -= 1;
        self.count -= 1;
        BlockAt {
            disk: run.at.disk,
            block: run.at.block + (run.length - 1),
        }
    }
}
