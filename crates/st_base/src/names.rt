ghost use Rattle.std.specs.Prelude.{◌≡◌, ◌<◌, IfOk, length, slice_get, Some};

use crate::rows::Rows;
use std::alloc::{AllocError, Global};
use std::marker::Model;
use thiserror::Error;

/// A name in a directory. Contracts see it as the list of its bytes; its length is not limited
/// here.
#[derive(Drop)]
pub struct Name {
    bytes: Vec<u8>,
}

impl Model for Name {
    ghost use Rattle.std.specs.Prelude.{List, ℕ};

    ghost Value = { List ℕ };

    ghost view = { λ n. n.bytes.items };
}

impl Name {
    /// Makes a name of these bytes. It does not allocate.
    pub fn from_vec(bytes: Vec<u8>) -> Name
        ensures { result ≡ bytes.items }
    {
        Name { bytes }
    }

    /// Makes a name of a copy of these bytes.
    pub fn from_slice(alloc: Global, bytes: &[u8]) -> Result<Name, AllocError>
        ensures { IfOk result (λ n. n ≡ bytes.now) }
    {
        Ok(Name {
            bytes: Vec::from_slice(alloc, bytes)?,
        })
    }

    /// Returns the number of bytes.
    pub fn len(&self) -> usize
        ensures { result ≡ length self.now }
    {
        self.bytes.len()
    }

    /// Returns the byte at index `i`.
    pub fn get(&self, i: usize) -> &u8
        requires { i < length self.now }
        ensures { slice_get self.now i ≡ Some result.now }
    {
        &self.bytes[i]
    }

    /// Returns the bytes.
    pub fn as_slice(&self) -> &[u8]
        ensures { result.now ≡ self.now }
    {
        self.bytes.as_slice()
    }

    /// Returns a copy of the name.
    pub fn copy(&self) -> Result<Name, AllocError>
        ensures { IfOk result (λ n. n ≡ self.now) }
    {
        Ok(Name {
            bytes: self.bytes.clone()?,
        })
    }
}

impl Clone for Name {
    ghost is_clone = { λ p q. q ≡ p };

    fn clone(&self) -> Result<Name, AllocError> {
        self.copy()
    }
}

/// A request on the names of a server. `dir` and `dir2` are the inode numbers of directories.
#[derive(Drop)]
pub enum NameAsk {
    Lookup {
        dir: u32,
        name: Name,
    },
    Create {
        dir: u32,
        name: Name,
    },
    Mkdir {
        dir: u32,
        name: Name,
    },
    /// `ino` is the inode number of the file to be removed, or 0 for a directory.
    Remove {
        dir: u32,
        name: Name,
        ino: u32,
    },
    Rename {
        dir: u32,
        name: Name,
        dir2: u32,
        name2: Name,
    },
    /// Lists the entries whose names are greater than `after`. An empty `after` lists from the
    /// beginning.
    List {
        dir: u32,
        after: Name,
    },
}

/// An entry of a directory: its inode number, whether it is a directory, and its name.
#[derive(Drop)]
pub struct NameRow {
    pub ino: u32,
    pub directory: bool,
    pub name: Name,
}

impl NameRow {
    /// Returns a copy of the entry.
    pub fn copy(&self) -> Result<NameRow, AllocError>
        ensures { IfOk result (λ r. r ≡ self.now) }
    {
        Ok(NameRow {
            ino: self.ino,
            directory: self.directory,
            name: self.name.copy()?,
        })
    }
}

impl Clone for NameRow {
    ghost is_clone = { λ p q. q ≡ p };

    fn clone(&self) -> Result<NameRow, AllocError> {
        self.copy()
    }
}

/// Entries of a directory, in the order of an answer.
pub type NameRows = Rows<NameRow>;

impl Rows<NameRow> {
    /// Returns a copy of the entries.
    pub fn copy(&self) -> Result<NameRows, AllocError>
        ensures { IfOk result (λ r. r ≡ self.now) }
    {
        let mut rows = Vec::new(self.alloc());
        for row in self.as_slice() {
            rows.push(row.copy()?)?;
        }
        Ok(Rows::from_vec(rows))
    }
}

/// Why a request on names is refused. The number of a refusal is its position in this list, from 1.
#[derive(Clone, Copy, Debug, PartialEq, Eq, Error)]
pub enum NameRefusal {
    #[error("no such entry")]
    NoEntry,
    #[error("the entry exists")]
    Exists,
    #[error("not a directory")]
    NotDir,
    #[error("a directory")]
    IsDir,
    #[error("the directory has entries")]
    NotEmpty,
    #[error("a directory would come under itself")]
    Cycle,
    #[error("not a name")]
    BadName,
    #[error("too many inodes")]
    TooMany,
    #[error("out of memory")]
    Memory,
}

impl Clone for NameAsk {
    ghost is_clone = { λ a c. c ≡ a };

    fn clone(&self) -> Result<NameAsk, AllocError> {
        self.copy()
    }
}

impl NameAsk {
    /// Returns a copy of the request.
    pub fn copy(&self) -> Result<NameAsk, AllocError>
        ensures { IfOk result (λ a. a ≡ self.now) }
    {
        match self {
            NameAsk::Lookup { dir, name } => Ok(NameAsk::Lookup {
                dir: *dir,
                name: name.copy()?,
            }),
            NameAsk::Create { dir, name } => Ok(NameAsk::Create {
                dir: *dir,
                name: name.copy()?,
            }),
            NameAsk::Mkdir { dir, name } => Ok(NameAsk::Mkdir {
                dir: *dir,
                name: name.copy()?,
            }),
            NameAsk::Remove { dir, name, ino } => Ok(NameAsk::Remove {
                dir: *dir,
                name: name.copy()?,
                ino: *ino,
            }),
            NameAsk::Rename {
                dir,
                name,
                dir2,
                name2,
            } => Ok(NameAsk::Rename {
                dir: *dir,
                name: name.copy()?,
                dir2: *dir2,
                name2: name2.copy()?,
            }),
            NameAsk::List { dir, after } => Ok(NameAsk::List {
                dir: *dir,
                after: after.copy()?,
            }),
        }
    }
}
