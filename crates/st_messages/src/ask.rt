ghost use Rattle.std.specs.Prelude.{◌≡◌, IfOk};

use crate::patch::PatchBytes;
use st_base::{FileId, NameAsk, PageBytes, PageNo, ServerId};
use std::alloc::AllocError;

/// A request of an application to its client.
#[derive(Drop)]
pub enum Ask {
    Write(FileId, PageNo, PageBytes),
    Read(FileId, PageNo),
    Sync(FileId),
    /// Drops all pages of the file from this one.
    Cut(FileId, PageNo),
    Name(ServerId, NameAsk),
    /// The bytes of the page from index `at` are replaced by these.
    Patch(FileId, PageNo, u16, PatchBytes),
}

impl Clone for Ask {
    ghost is_clone = { λ a c. c ≡ a };

    fn clone(&self) -> Result<Ask, AllocError> {
        self.copy()
    }
}

impl Ask {
    /// Returns a copy of the request. A page is shared.
    pub fn copy(&self) -> Result<Ask, AllocError>
        ensures { IfOk result (λ a. a ≡ self.now) }
    {
        match self {
            Ask::Write(file, page, bytes) => Ok(Ask::Write(*file, *page, bytes.copy()?)),
            Ask::Read(file, page) => Ok(Ask::Read(*file, *page)),
            Ask::Sync(file) => Ok(Ask::Sync(*file)),
            Ask::Cut(file, page) => Ok(Ask::Cut(*file, *page)),
            Ask::Name(server, ask) => Ok(Ask::Name(*server, ask.copy()?)),
            Ask::Patch(file, page, at, bytes) => Ok(Ask::Patch(*file, *page, *at, bytes.copy()?)),
        }
    }
}
