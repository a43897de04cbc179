ghost use Rattle.std.specs.Prelude.{◌≡◌, IfOk};

use st_base::Name;
use std::alloc::AllocError;

/// An entry of a directory: each inode but the root has one.
#[derive(Drop)]
pub struct NameEntry {
    pub dir: u32,
    pub name: Name,
    pub ino: u32,
    pub directory: bool,
}

/// Why a request on the names of a server is refused.
#[derive(Clone, Copy, Debug, PartialEq, Eq)]
pub enum EntryRefusal {
    /// There is no such entry, or no such directory.
    NoEntry,
    /// The entry exists already.
    Exists,
    /// The inode is not a directory.
    NotDir,
    /// The entry is a directory.
    IsDir,
    /// The directory is not empty.
    NotEmpty,
    /// A directory would be moved under itself.
    Cycle,
    /// The bytes are not a name.
    BadName,
    /// There are 4,096 inodes.
    TooMany,
}

impl NameEntry {
    /// Returns a copy of the entry.
    pub fn copy(&self) -> Result<NameEntry, AllocError>
        ensures { IfOk result (λ e. e ≡ self.now) }
    {
        Ok(NameEntry {
            dir: self.dir,
            name: self.name.copy()?,
            ino: self.ino,
            directory: self.directory,
        })
    }
}
