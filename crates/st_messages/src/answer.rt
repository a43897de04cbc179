ghost use Rattle.std.specs.Prelude.{◌≡◌, IfOk};

use st_base::{LostRows, NameRows, PageBytes};
use std::alloc::AllocError;

/// An answer to an application. `docs/PROTOCOL.md`, "The cast", lists the answers.
#[derive(Drop)]
pub enum AppAnswer {
    Written,
    Read(PageBytes),
    Hard,
    Cut,
    /// The inode number of the entry.
    Named(u32),
    Listed(NameRows),
    /// The number of the refusal of the server's names.
    Refused(u8),
    Quiesced,
    NoFile,
    /// The number of free blocks, and the number of blocks that were requested.
    NoSpace(u64, u64),
    /// The number of the disk command that failed.
    DiskFault(u64),
    OpsFull,
    /// The epoch in which the request was sent, and the new epoch, or 0.
    Uncertain(u64, u64),
    Lost(LostRows),
    DirtyFull,
    NotHolder,
    TooManyLocks,
}

impl Clone for AppAnswer {
    ghost is_clone = { λ a c. c ≡ a };

    fn clone(&self) -> Result<AppAnswer, AllocError> {
        self.copy()
    }
}

impl AppAnswer {
    /// Returns a copy of the answer. A page is shared.
    pub fn copy(&self) -> Result<AppAnswer, AllocError>
        ensures { IfOk result (λ a. a ≡ self.now) }
    {
        match self {
            AppAnswer::Written => Ok(AppAnswer::Written),
            AppAnswer::Read(bytes) => Ok(AppAnswer::Read(bytes.copy()?)),
            AppAnswer::Hard => Ok(AppAnswer::Hard),
            AppAnswer::Cut => Ok(AppAnswer::Cut),
            AppAnswer::Named(ino) => Ok(AppAnswer::Named(*ino)),
            AppAnswer::Listed(rows) => Ok(AppAnswer::Listed(rows.copy()?)),
            AppAnswer::Refused(code) => Ok(AppAnswer::Refused(*code)),
            AppAnswer::Quiesced => Ok(AppAnswer::Quiesced),
            AppAnswer::NoFile => Ok(AppAnswer::NoFile),
            AppAnswer::NoSpace(free, asked) => Ok(AppAnswer::NoSpace(*free, *asked)),
            AppAnswer::DiskFault(command) => Ok(AppAnswer::DiskFault(*command)),
            AppAnswer::OpsFull => Ok(AppAnswer::OpsFull),
            AppAnswer::Uncertain(old, new) => Ok(AppAnswer::Uncertain(*old, *new)),
            AppAnswer::Lost(rows) => Ok(AppAnswer::Lost(rows.copy()?)),
            AppAnswer::DirtyFull => Ok(AppAnswer::DirtyFull),
            AppAnswer::NotHolder => Ok(AppAnswer::NotHolder),
            AppAnswer::TooManyLocks => Ok(AppAnswer::TooManyLocks),
        }
    }
}
