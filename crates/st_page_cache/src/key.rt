ghost use Rattle.std.specs.Prelude.{◌≡◌};

use st_base::PageNo;

/// What a page is found by: its file and its number.
#[derive(Clone, Copy, Debug, PartialEq, Eq, PartialOrd, Ord, Hash)]
pub struct PageKey {
    pub ino: u32,
    pub page: u32,
}

/// The key of a page of a file.
pub fn key(ino: u32, page: PageNo) -> PageKey
    ensures { result ≡ record { ino = ino; page = page.0 } }
{
    PageKey { ino, page: page.0 }
}
