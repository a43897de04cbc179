ghost use Rattle.std.specs.Prelude.{◌≡◌, is_some};

use st_base::PageNo;
use st_rules::DirtyPage;
use std::marker::Model;

/// A dirty page without its bytes, as the rules at the end of a step look at it. Contracts see the
/// dirty page.
#[derive(Drop)]
pub struct DirtyRow<'a> {
    page: &'a DirtyPage,
}

impl<'a> Model for DirtyRow<'a> {
    ghost use Rattle.st_rules.specs.declared.pages.DirtyPage.{DirtyPage};

    ghost Value = { DirtyPage };

    ghost view = { λ r. r.page.now };
}

impl<'a> DirtyRow<'a> {
    pub(crate) fn of(page: &'a DirtyPage) -> DirtyRow<'a>
        ensures { result ≡ page.now }
    {
        DirtyRow { page }
    }

    /// The file.
    pub fn ino(&self) -> u32
        ensures { result ≡ self.now.ino }
    {
        self.page.ino
    }

    /// The page of the file.
    pub fn page(&self) -> PageNo
        ensures { result ≡ self.now.page }
    {
        self.page.page
    }

    /// Whether the last command for its bytes failed.
    pub fn has_failed(&self) -> bool
        ensures { result ≡ is_some self.now.failed }
    {
        self.page.failed.is_some()
    }
}
