// What a client was told about the places of pages.
ghost use Rattle.std.specs.Prelude.{◌≡◌, ◌≤◌, ◌<◌, ◌+◌, [], OnOk, OnErr, length, true};
ghost use Rattle.indexmap.specs.IndexMap.{IsUnique, insert_entry, spare};
ghost use Rattle.st_rules.specs.ClientInvariants.{same_known};
ghost use Rattle.st_rules.specs.ClientPages as pages;
ghost use Rattle.st_rules.specs.ServerInvariants.{are_once};
ghost use Rattle.st_page_cache.specs.KeyedPages.{known_key, same_key};

use crate::key::{PageKey, key};
use indexmap::IndexMap;
use st_base::{ExtentRow, PageNo};
use st_rules::{KnownExtent, MappedBlock};
use std::alloc::{AllocError, Global};
use std::marker::Model;

/// Puts what is known of a page in the place of what was known, or last. There is room for it.
fn store(rows: &mut IndexMap<PageKey, KnownExtent>, extent: KnownExtent)
    requires { 0 < spare rows.old }
    ensures entries { rows.new.entries ≡ insert_entry same_key rows.old.entries (known_key extent) extent }
    ensures room { spare rows.old ≤ spare rows.new + 1 }
    ensures unique { IsUnique same_key rows.new }
{
    // What was known is dropped; there is room, so no memory is taken.
    let _old = rows.insert(key(extent.ino, extent.page), extent).unwrap();
}

/// A told row as it is known.
fn told(ino: u32, row: &ExtentRow) -> KnownExtent
    ensures { result ≡ pages.known_row ino row.now }
{
    KnownExtent {
        ino,
        page: row.page,
        mapping: Some(MappedBlock {
            at: row.at,
            birth: row.birth,
        }),
    }
}

/// What a client knows about where a server's pages lie. Contracts see the list of what is known,
/// of each page once.
#[derive(Drop)]
pub struct KnownExtents {
    rows: IndexMap<PageKey, KnownExtent>,
}

impl Model for KnownExtents {
    ghost use Rattle.std.specs.Prelude.{List};
    ghost use Rattle.indexmap.specs.IndexMap.{values};
    ghost use Rattle.st_rules.specs.declared.client.KnownExtent.{KnownExtent};

    ghost Value = { List KnownExtent };

    ghost use Rattle.st_page_cache.specs.KeyedPages.{IsKnown};

    ghost view = { λ k. values k.rows };

    ghost invariant = { λ k. IsKnown k.rows.entries };
}

impl KnownExtents {
    /// Nothing is known.
    pub fn new(alloc: Global) -> KnownExtents
        ensures { result ≡ [] }
    {
        KnownExtents {
            rows: IndexMap::new(alloc),
        }
    }

    /// Of how many pages something is known.
    pub fn len(&self) -> usize
        ensures len { result ≡ length self.now }
        ensures once { are_once same_known self.now ≡ true }
    {
        self.rows.len()
    }

    /// What is known of a page: its mapping, or that it has none.
    pub fn get(&self, ino: u32, page: PageNo) -> Option<KnownExtent>
        ensures { result ≡ pages.known_of self.now ino page }
    {
        self.rows.get(&key(ino, page)).copied()
    }

    /// The known mapping of a page.
    pub fn mapping(&self, ino: u32, page: PageNo) -> Option<MappedBlock>
        ensures { result ≡ pages.mapping_of self.now ino page }
    {
        match self.get(ino, page) {
            None => None,
            Some(extent) => extent.mapping,
        }
    }

    /// This is known of a page, in place of anything else.
    pub fn know(&mut self, extent: KnownExtent) -> Result<(), AllocError>
        ensures ok { OnOk result (self.new ≡ pages.with_known extent self.old) }
        ensures err { OnErr result (self.new ≡ self.old) }
    {
        self.rows.reserve(1)?;
        store(&mut self.rows, extent);
        Ok(())
    }

    /// Told rows of a file are known, one after another.
    #[tactic(auto, unfolding(st_rules::specs::ClientPages::with_known_rows))]
    pub fn know_rows(&mut self, ino: u32, rows: &[ExtentRow]) -> Result<(), AllocError>
        ensures ok { OnOk result (self.new ≡ pages.with_known_rows ino rows.now self.old) }
        ensures err { OnErr result (self.new ≡ self.old) }
    {
        self.rows.reserve(rows.len())?;
        for i in 0..rows.len() {
            store(&mut self.rows, told(ino, &rows[i]));
        }
        Ok(())
    }

    /// What is known of the file from this page on is forgotten. It does not allocate.
    pub fn forget_from(&mut self, ino: u32, page: PageNo)
        ensures { self.new ≡ pages.known_before ino page self.old }
    {
        self.rows.retain(|_at, extent| !(extent.ino == ino && page.0 <= extent.page.0));
    }

    /// Nothing is known. It does not allocate.
    pub fn clear(&mut self)
        ensures { self.new ≡ [] }
    {
        self.rows.clear();
    }
}
