ghost use Rattle.std.specs.Prelude.{◌≡◌, ◌+◌, ◌<◌, ◌&&◌, ◌++◌, ◌∷◌, [], if◌then◌else◌, is_ok, length, ℕ, OnOk, Some, None};
ghost use Rattle.indexmap.specs.IndexMap.{spare};
ghost use Rattle.st_base.specs.declared.ids.FileId.{FileId};
ghost use Rattle.st_model.specs.declared.file_pages.FilePage.{FilePage};
ghost use Rattle.st_model.specs.PagePlaces as by_page;

use indexmap::IndexMap;
use st_base::{FileId, PageNo};
use std::alloc::{AllocError, Global};
use std::marker::Model;

/// A page of a file, by plain numbers: a key of a table.
#[derive(Clone, Copy, Debug, PartialEq, Eq, Hash)]
pub struct FilePage {
    pub server: u16,
    pub ino: u32,
    pub page: u32,
}

/// Returns the key of a page of a file.
pub(crate) fn file_page(file: FileId, page: PageNo) -> FilePage
    ensures { result ≡ by_page.file_page file page }
{
    FilePage {
        server: file.server.0,
        ino: file.ino,
        page: page.0,
    }
}

/// Places of entries in a log, counted from 0, rising.
#[derive(Drop)]
pub struct Places {
    places: Vec<usize>,
}

impl Model for Places {
    ghost use Rattle.std.specs.Prelude.{List, ℕ};

    ghost Value = { List ℕ };

    ghost view = { λ p. p.places.items };
}

impl Places {
    /// Makes an empty list. It does not allocate.
    pub fn new(alloc: Global) -> Places
        ensures { result ≡ [] }
    {
        Places {
            places: Vec::new(alloc),
        }
    }

    /// Adds a place after all others. If it runs out of memory, the list is unchanged.
    pub fn push(&mut self, place: usize) -> Result<(), AllocError>
        ensures { self.new ≡ (if is_ok result then self.old ++ place ∷ [] else self.old) }
    {
        self.places.push(place)?;
        Ok(())
    }

    /// Returns the places.
    pub fn as_slice(&self) -> &[usize]
        ensures { result.now ≡ self.now }
    {
        self.places.as_slice()
    }
}

/// Takes the places of a page out of the table. The table has room for one more key afterwards.
fn take(rows: &mut IndexMap<FilePage, Places>, page: FilePage, alloc: Global) -> Places
    requires { 0 < spare rows.old }
    ensures value { result ≡ by_page.at rows.old page }
    ensures rest { (q : FilePage) → by_page.at rows.new q ≡ (if by_page.same_file_page page q then [] else by_page.at rows.old q) }
    ensures room { 0 < spare rows.new }
{
    match rows.swap_remove(&page) {
        Some(places) => places,
        None => Places::new(alloc),
    }
}

/// Puts the places of a page into the table, which has room for one more key.
fn put(rows: &mut IndexMap<FilePage, Places>, page: FilePage, places: Places)
    requires { 0 < spare rows.old }
    ensures { (q : FilePage) → by_page.at rows.new q ≡ (if by_page.same_file_page page q then places else by_page.at rows.old q) }
{
    // The places that were there are dropped; there is room, so no memory is taken.
    let _old = rows.insert(page, places).unwrap();
}

/// Adds a place to a page. If it runs out of memory, each page has the places that it had.
pub(crate) fn add(
    rows: &mut IndexMap<FilePage, Places>,
    page: FilePage,
    place: usize,
    alloc: Global,
) -> Result<(), AllocError>
    ensures { (q : FilePage) → by_page.at rows.new q ≡ by_page.one_more (is_ok result && by_page.same_file_page page q) (by_page.at rows.old q) place }
{
    rows.reserve(1)?;
    let mut places = take(rows, page, alloc);
    let pushed = places.push(place);
    put(rows, page, places);
    pushed
}

/// Returns the places of a page.
pub(crate) fn slice_at(rows: &IndexMap<FilePage, Places>, page: FilePage) -> &[usize]
    ensures { result.now ≡ by_page.at rows.now page }
{
    match rows.get(&page) {
        Some(places) => places.as_slice(),
        None => &[],
    }
}
