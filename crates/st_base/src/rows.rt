ghost use Rattle.std.specs.Prelude.{◌≡◌, ◌<◌, ◌∷◌, ◌++◌, [], IfOk, OnOk, OnErr, length, slice_get, Some};

use crate::disk::BlockAt;
use crate::ids::{ClientId, GrantNo, PageNo};
use crate::mode::Mode;
use std::alloc::{AllocError, Global};
use std::marker::Model;

/// The rows of a message or an answer. Contracts see them as a list.
#[derive(Clone, Drop)]
pub struct Rows<T> {
    rows: Vec<T>,
}

impl<T> Model for Rows<T> {
    ghost use Rattle.std.specs.Prelude.{List};

    ghost Value = { List T };

    ghost view = { λ r. r.rows.items };
}

impl<T> Rows<T> {
    /// Makes an empty list of rows. It does not allocate.
    pub fn new(alloc: Global) -> Rows<T>
        ensures { result ≡ [] }
    {
        Rows {
            rows: Vec::new(alloc),
        }
    }

    /// Makes a list of these rows. It does not allocate.
    pub fn from_vec(rows: Vec<T>) -> Rows<T>
        ensures { result ≡ rows.items }
    {
        Rows { rows }
    }

    /// Returns the rows as a `Vec`. It does not allocate.
    pub fn into_vec(self) -> Vec<T>
        ensures { result.items ≡ self }
    {
        self.rows
    }

    /// Returns the number of rows.
    pub fn len(&self) -> usize
        ensures { result ≡ length self.now }
    {
        self.rows.len()
    }

    /// Returns the row at index `i`.
    pub fn get(&self, i: usize) -> &T
        requires { i < length self.now }
        ensures { slice_get self.now i ≡ Some result.now }
    {
        &self.rows[i]
    }

    /// Returns the rows.
    pub fn as_slice(&self) -> &[T]
        ensures { result.now ≡ self.now }
    {
        self.rows.as_slice()
    }

    pub(crate) fn alloc(&self) -> Global {
        *self.rows.allocator()
    }
}

impl<T: Copy> Rows<T> {
    /// Returns a copy of the rows.
    pub fn copy(&self) -> Result<Rows<T>, AllocError>
        ensures { IfOk result (λ r. r ≡ self.now) }
    {
        let mut rows = Vec::new(self.alloc());
        rows.extend_from_slice(self.rows.as_slice())?;
        Ok(Rows { rows })
    }
}

/// The mapping of a page: the block that holds it, and the birth of the mapping.
#[derive(Clone, Copy, Debug, PartialEq, Eq)]
pub struct ExtentRow {
    pub page: PageNo,
    pub at: BlockAt,
    pub birth: u64,
}

/// A page whose bytes were lost, and the number of the command that should have written it, or 0 if
/// there was none.
#[derive(Clone, Copy, Debug, PartialEq, Eq)]
pub struct LostRow {
    pub page: PageNo,
    pub command: u64,
}

/// The numbers of clients.
pub type Clients = Rows<ClientId>;

/// Locks, each with its inode number, the number of its grant, and its mode.
pub type LockRows = Rows<(u32, GrantNo, Mode)>;

/// Mappings of pages.
pub type ExtentRows = Rows<ExtentRow>;

/// Lost pages.
pub type LostRows = Rows<LostRow>;
