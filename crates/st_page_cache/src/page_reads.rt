// Reading a page, which lends its bytes.
ghost use Rattle.std.specs.Prelude.{◌≡◌};
ghost use Rattle.std.specs.Borrow.{sem};
ghost use Rattle.std.specs.Option.{option_copied};
ghost use Rattle.st_rules.specs.ClientPages as pages;
ghost use Rattle.st_page_cache.specs.Caches.{bytes_shown};
ghost use Rattle.st_page_cache.specs.LentPages.{EndsUsed};

use crate::cache::PageCache;
use crate::shown::Page;
use st_base::{PageBytes, PageNo};
use st_lease_client::UsePermit;

impl PageCache {
    /// Reads a page: `Miss` exactly if it is neither dirty nor clean. A clean page becomes the
    /// newest one. It does not allocate.
    pub fn read(&mut self, permit: &UsePermit, ino: u32, page: PageNo) -> Page<'_>
        requires { permit.now.server ≡ self.old.server }
        ensures* used { sem 𝓛 (EndsUsed self.entry ino page) }
        ensures value { bytes_shown result ≡ pages.cached self.old.pages ino page }
    {
        self.use_page(permit, ino, page);
        match self.bytes(ino, page) {
            Some(bytes) => Page::Hit(bytes),
            None => Page::Miss,
        }
    }

    /// The bytes that a patch of a page changes: `None` exactly if the page is neither dirty nor
    /// clean. A clean page stays in its place. It does not allocate.
    pub fn base(&self, permit: &UsePermit, ino: u32, page: PageNo) -> Option<&PageBytes>
        requires { permit.now.server ≡ self.now.server }
        ensures { option_copied result ≡ pages.cached self.now.pages ino page }
    {
        self.bytes(ino, page)
    }
}
