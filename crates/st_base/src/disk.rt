ghost use Rattle.std.specs.Prelude.{◌≡◌, IfOk};

use crate::ids::{DiskId, FileId, PageNo};
use crate::page::PageBytes;
use std::alloc::AllocError;

/// The tag that is stored with a block: the page whose bytes it holds, and the birth of the mapping
/// under which it was written.
#[derive(Clone, Copy, Debug, PartialEq, Eq)]
pub struct Tag {
    pub file: FileId,
    pub page: PageNo,
    pub birth: u64,
}

/// A block of a disk. Blocks are numbered from 0.
#[derive(Clone, Copy, Debug, PartialEq, Eq)]
pub struct BlockAt {
    pub disk: DiskId,
    pub block: u32,
}

/// A disk command: it reads or writes one whole block.
#[derive(Drop)]
pub enum Command {
    Read {
        at: BlockAt,
    },
    Write {
        at: BlockAt,
        tag: Tag,
        bytes: PageBytes,
    },
}

impl Clone for Command {
    ghost is_clone = { λ k c. c ≡ k };

    fn clone(&self) -> Result<Command, AllocError> {
        self.copy()
    }
}

impl Command {
    /// Returns a copy of the command. The page is shared.
    pub fn copy(&self) -> Result<Command, AllocError>
        ensures { IfOk result (λ c. c ≡ self.now) }
    {
        match self {
            Command::Read { at } => Ok(Command::Read { at: *at }),
            Command::Write { at, tag, bytes } => Ok(Command::Write {
                at: *at,
                tag: *tag,
                bytes: bytes.copy()?,
            }),
        }
    }
}
