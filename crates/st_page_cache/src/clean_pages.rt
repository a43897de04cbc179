// The clean pages, the most recently used first.
ghost use Rattle.std.specs.Prelude.{◌≡◌, ◌≤◌, [], IfOk, OnOk, OnErr, find, filter, length, not, option_map, true};
ghost use Rattle.std.specs.Option.{option_copied};
ghost use Rattle.st_rules.specs.ClientInvariants.{same_clean};
ghost use Rattle.st_rules.specs.ClientPages as pages;
ghost use Rattle.st_rules.specs.ServerInvariants.{are_once};
ghost use Rattle.st_page_cache.specs.KeyedPages.{clean_key, touched};

use crate::key::{PageKey, key};
use lru::LruCache;
use st_base::PageNo;
use st_rules::CleanPage;
use std::alloc::{AllocError, Global};
use std::marker::Model;
use std::num::NonZeroUsize;

/// At most 256 clean pages. Contracts see the list of them, the most recently used first.
#[derive(Drop)]
pub struct CleanPages {
    pages: LruCache<PageKey, CleanPage>,
}

impl Model for CleanPages {
    ghost use Rattle.std.specs.Prelude.{List};
    ghost use Rattle.std.specs.Map.{values_of};
    ghost use Rattle.st_rules.specs.declared.client.CleanPage.{CleanPage};

    ghost Value = { List CleanPage };

    ghost use Rattle.st_page_cache.specs.KeyedPages.{IsCache};

    ghost view = { λ c. values_of c.pages.entries };

    ghost invariant = { λ c. IsCache c.pages };
}

impl CleanPages {
    /// No pages. Memory for each comes with it.
    pub fn new(alloc: Global) -> Result<CleanPages, AllocError>
        ensures { IfOk result (λ c. c ≡ []) }
    {
        Ok(CleanPages {
            pages: LruCache::sparse(alloc, NonZeroUsize::new(256).unwrap())?,
        })
    }

    /// How many pages are clean.
    pub fn len(&self) -> usize
        ensures len { result ≡ length self.now }
        ensures few { length self.now ≤ 256 }
        ensures once { are_once same_clean self.now ≡ true }
    {
        self.pages.len()
    }

    /// The clean page, which stays in its place.
    pub fn get(&self, ino: u32, page: PageNo) -> Option<&CleanPage>
        ensures { option_copied result ≡ find (pages.is_clean_of ino page) self.now }
    {
        self.pages.peek(&key(ino, page))
    }

    /// The page becomes the newest one, and the last of more than 256 goes.
    pub fn put(&mut self, page: CleanPage) -> Result<(), AllocError>
        ensures ok { OnOk result (self.new ≡ pages.with_newest 256 page self.old) }
        ensures err { OnErr result (self.new ≡ self.old) }
    {
        let at = key(page.ino, page.page);
        // The page that goes is dropped. `len` is called for its clauses `few` and `once`.
        let _old = self.pages.put(at, page)?;
        let _len = self.pages.len();
        Ok(())
    }

    /// The page goes, if it is clean.
    pub fn remove(&mut self, ino: u32, page: PageNo)
        ensures { self.new ≡ pages.without_clean ino page self.old }
    {
        // The page is dropped. `len` is called for its clauses `few` and `once`.
        let _old = self.pages.pop(&key(ino, page));
        let _len = self.pages.len();
    }

    /// The page becomes the newest one, if it is clean.
    pub fn touch(&mut self, ino: u32, page: PageNo)
        ensures { self.new ≡ touched (find (pages.is_clean_of ino page) self.old) self.old }
    {
        // If it is not there, nothing changes. `len` is called for its clauses `few` and `once`.
        let _found = self.pages.promote(&key(ino, page));
        let _len = self.pages.len();
    }

    /// No page is clean.
    pub fn clear(&mut self)
        ensures { self.new ≡ [] }
    {
        self.pages.clear();
    }

    /// The key of the first clean page of the file from this page on.
    fn first_behind(&self, ino: u32, page: PageNo) -> Option<PageKey>
        ensures { result ≡ option_map clean_key (find (pages.is_clean_behind ino page) self.now) }
    {
        let found = self
            .pages
            .iter()
            .find(|entry| entry.0.ino == ino && page.0 <= entry.0.page);
        match found {
            Some((at, _page)) => Some(*at),
            None => None,
        }
    }

    /// The pages of the file from this page on go.
    pub fn drop_from(&mut self, ino: u32, page: PageNo)
        ensures { self.new ≡ filter (λ c. not (pages.is_clean_behind ino page c)) self.old }
    {
        while let Some(at) = self.first_behind(ino, page) {
            self.remove(at.ino, PageNo(at.page));
        }
    }
}
