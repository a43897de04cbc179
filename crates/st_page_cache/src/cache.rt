// The page cache: its calls are the rules of the definitions.
ghost use Rattle.std.specs.Prelude.{◌≡◌, ◌<◌, ◌+◌, ◌^◌, IfOk, OnOk, OnErr, None, Some, is_some, length, slice_get};
ghost use Rattle.std.specs.Option.{option_copied, option_map};
ghost use Rattle.st_rules.specs.ClientPages as pages;
ghost use Rattle.st_page_cache.specs.Caches.{ArePages, Writes, facts_of, shown, with_pages};

use crate::clean_pages::CleanPages;
use crate::dirty_pages::DirtyPages;
use crate::refusal::CacheRefusal;
use crate::shown::Dirty;
use st_base::{PageBytes, PageNo, ServerId};
use st_lease_client::{PageLoss, PagesGone, UsePermit};
use st_rules::{CleanPage, DirtyPage};
use std::alloc::{AllocError, Global};
use std::marker::Model;

/// The pages that a client has of one server. Contracts see the server, the list of the clean
/// pages, the most recently used first, the list of the dirty pages, and the version that the next
/// change of a page gets.
#[derive(Drop)]
pub struct PageCache {
    alloc: Global,
    server: ServerId,
    clean: CleanPages,
    dirty: DirtyPages,
    next_version: u64,
}

impl Model for PageCache {
    ghost use Rattle.st_page_cache.specs.Caches.{ServerPages};

    ghost Value = { ServerPages };

    ghost use Rattle.st_page_cache.specs.Caches.{IsSound, pages_of};

    ghost view = { λ c. record { server = c.server; pages = pages_of c.clean c.dirty c.next_version } };

    ghost invariant = { λ c. IsSound (pages_of c.clean c.dirty c.next_version) };
}

impl PageCache {
    /// No page of this server was read or written.
    pub fn new(alloc: Global, server: ServerId) -> Result<PageCache, AllocError>
        ensures { IfOk result (λ c. c ≡ record { server = server; pages = pages.no_pages }) }
    {
        Ok(PageCache {
            alloc,
            server,
            clean: CleanPages::new(alloc)?,
            dirty: DirtyPages::new(alloc),
            next_version: 1,
        })
    }

    /// How many pages are dirty.
    pub fn dirty_count(&self) -> usize
        ensures count { result ≡ length self.now.pages.dirty }
        ensures pages { ArePages self.now.pages }
    {
        // For its clauses `few` and `once`, which are parts of `pages`.
        let _clean = self.clean.len();
        self.dirty.len()
    }

    /// How many pages are clean.
    pub fn clean_count(&self) -> usize
        ensures { result ≡ length self.now.pages.clean }
    {
        self.clean.len()
    }

    /// The dirty page at a place of the list.
    pub fn dirty_at(&self, i: usize) -> &DirtyPage
        requires { i < length self.now.pages.dirty }
        ensures { slice_get self.now.pages.dirty i ≡ Some result.now }
    {
        self.dirty.at(i)
    }

    /// The dirty page, with its place.
    pub fn dirty_page(&self, ino: u32, page: PageNo) -> Option<&DirtyPage>
        ensures { option_copied result ≡ pages.dirty_of self.now.pages ino page }
    {
        self.dirty.get(ino, page)
    }

    /// The bytes of the dirty page, its version and its failed command. `None` exactly if the
    /// page is not dirty.
    pub fn dirty(&self, ino: u32, page: PageNo) -> Option<Dirty<'_>>
        ensures { option_map shown result ≡ option_map facts_of (pages.dirty_of self.now.pages ino page) }
    {
        match self.dirty.get(ino, page) {
            None => None,
            Some(page) => Some(Dirty {
                bytes: &page.bytes,
                version: page.version,
                failed: page.failed,
            }),
        }
    }

    /// Whether a page is dirty or clean. A clean page stays in its place.
    pub fn is_cached(&self, ino: u32, page: PageNo) -> bool
        ensures { result ≡ is_some (pages.cached self.now.pages ino page) }
    {
        self.bytes(ino, page).is_some()
    }

    /// The bytes of a page that is dirty or clean. A clean page stays in its place. Its callers
    /// that hand the bytes on take a permit.
    pub(crate) fn bytes(&self, ino: u32, page: PageNo) -> Option<&PageBytes>
        ensures { option_copied result ≡ pages.cached self.now.pages ino page }
    {
        match self.dirty.get(ino, page) {
            Some(page) => Some(&page.bytes),
            None => match self.clean.get(ino, page) {
                Some(page) => Some(&page.bytes),
                None => None,
            },
        }
    }

    /// The version of the dirty page, or 0.
    pub fn version(&self, ino: u32, page: PageNo) -> u64
        ensures { result ≡ pages.version_of self.now.pages ino page }
    {
        match self.dirty.get(ino, page) {
            Some(page) => page.version,
            None => 0,
        }
    }

    /// The version that the next change of a page gets.
    pub fn next_version(&self) -> u64
        ensures { result ≡ self.now.pages.next_version }
    {
        self.next_version
    }

    /// Whether a page of the file is dirty.
    pub fn has_dirty(&self, ino: u32) -> bool
        ensures { result ≡ pages.has_dirty self.now.pages ino }
    {
        self.dirty.has_on(ino)
    }

    /// The places of all dirty pages, by rising file and page. They are sorted once.
    pub fn dirty_places(&self) -> Result<Vec<(u32, PageNo)>, AllocError>
        ensures { IfOk result (λ v. v.items ≡ pages.dirty_places self.now.pages) }
    {
        let places = self.dirty.places(self.alloc)?;
        Ok(places)
    }

    /// The least dirty page above a place, or the least of all. `None` exactly if there is none. It
    /// does not allocate.
    pub fn next_dirty(&self, after: Option<(u32, PageNo)>) -> Option<(u32, PageNo)>
        ensures { result ≡ pages.next_dirty self.now.pages after }
    {
        self.dirty.next(after)
    }

    /// A page that is read becomes the newest clean one, if it is clean and not dirty. It does
    /// not allocate.
    #[tactic(auto, unfolding(st_rules::specs::ClientPages::use_page, st_rules::specs::ClientPages::use_clean, st_rules::specs::ClientPages::use_at))]
    pub(crate) fn use_page(&mut self, permit: &UsePermit, ino: u32, page: PageNo)
        requires { permit.now.server ≡ self.old.server }
        ensures used { self.new ≡ with_pages (pages.use_page self.old.pages ino page) self.old }
        ensures most { self.old.pages.most_clean ≡ 256 }
    {
        if self.dirty.get(ino, page).is_none() {
            self.clean.touch(ino, page);
        }
    }

    /// Changes a page, if fewer than 64 others are dirty: it is dirty with these bytes, the next
    /// version and no failed command, and its clean copy goes. The bytes are shared.
    #[tactic(auto, unfolding(st_rules::specs::ClientPages::written))]
    fn change(&mut self, ino: u32, page: PageNo, bytes: &PageBytes) -> Result<(), AllocError>
        requires room { self.old.pages.next_version + 1 < 2 ^ 64 }
        requires few { length (pages.without_dirty ino page self.old.pages.dirty) < 64 }
        ensures ok { OnOk result (self.new ≡ with_pages (pages.written self.old.pages ino page bytes.now) self.old) }
        ensures err { OnErr result (self.new ≡ self.old) }
    {
        let bytes = bytes.copy()?;
        self.dirty.put(DirtyPage {
            ino,
            page,
            bytes,
            version: self.next_version,
            failed: None,
        })?;
        self.clean.remove(ino, page);
        self.next_version += 1;
        Ok(())
    }

    /// Changes a page: it is dirty with these bytes, the next version and no failed command, and
    /// its clean copy goes. It is refused exactly if 64 other pages are dirty. The bytes are
    /// shared.
    #[tactic(auto, unfolding(st_rules::specs::ClientPages::write))]
    pub fn write(
        &mut self,
        permit: &UsePermit,
        ino: u32,
        page: PageNo,
        bytes: &PageBytes,
    ) -> Result<(), CacheRefusal>
        requires server { permit.now.server ≡ self.old.server }
        requires room { self.old.pages.next_version + 1 < 2 ^ 64 }
        ensures { Writes self.old self.new result (pages.write self.old.pages ino page bytes.now) }
    {
        if self.dirty.others(ino, page) >= 64 {
            Err(CacheRefusal::DirtyFull)
        } else {
            self.change(ino, page, bytes)?;
            Ok(())
        }
    }

    /// The command is the last one that failed for the page, if it is dirty. It does not
    /// allocate.
    #[tactic(auto, unfolding(st_rules::specs::ClientPages::fail))]
    pub fn fail(&mut self, ino: u32, page: PageNo, command: u64)
        ensures { self.new ≡ with_pages (pages.fail self.old.pages ino page command) self.old }
    {
        self.dirty.fail(ino, page, command);
    }

    /// A page that is not dirty becomes the newest clean one with these bytes. The bytes are
    /// shared.
    #[tactic(auto, unfolding(st_rules::specs::ClientPages::fill))]
    pub fn fill(&mut self, ino: u32, page: PageNo, bytes: &PageBytes) -> Result<(), AllocError>
        requires { pages.dirty_of self.old.pages ino page ≡ None }
        ensures ok { OnOk result (self.new ≡ with_pages (pages.fill self.old.pages ino page bytes.now) self.old) }
        ensures err { OnErr result (self.new ≡ self.old) }
    {
        let bytes = bytes.copy()?;
        self.clean.put(CleanPage { ino, page, bytes })?;
        Ok(())
    }

    /// The dirty page becomes the newest clean one, if it is dirty. The bytes are shared.
    #[tactic(auto, unfolding(st_rules::specs::ClientPages::harden, st_rules::specs::ClientPages::harden_at, st_rules::specs::ClientPages::harden_page))]
    pub fn harden(&mut self, ino: u32, page: PageNo) -> Result<(), AllocError>
        ensures ok { OnOk result (self.new ≡ with_pages (pages.harden self.old.pages ino page) self.old) }
        ensures err { OnErr result (self.new ≡ self.old) }
    {
        match self.dirty.get(ino, page) {
            None => Ok(()),
            Some(old) => {
                let bytes = old.bytes.copy()?;
                self.clean.put(CleanPage { ino, page, bytes })?;
                self.dirty.remove(ino, page);
                Ok(())
            }
        }
    }

    /// The clean pages of the file from this page on go. It does not allocate.
    #[tactic(auto, unfolding(st_rules::specs::ClientPages::drop_from))]
    pub fn drop_from(&mut self, ino: u32, page: PageNo)
        ensures { self.new ≡ with_pages (pages.drop_from self.old.pages ino page) self.old }
    {
        self.clean.drop_from(ino, page);
    }

    /// The lease is lost: no page is dirty or clean, and versions begin at 1 again. It does not
    /// allocate.
    pub fn clear(&mut self, loss: PageLoss) -> PagesGone
        requires { loss.server ≡ self.old.server }
        ensures pages { self.new ≡ with_pages pages.no_pages self.old }
        ensures gone { result ≡ loss }
    {
        self.clean.clear();
        self.dirty.clear();
        self.next_version = 1;
        loss.done()
    }
}
