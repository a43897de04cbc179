// What a store in memory has recorded: each write and each sync that it did.
ghost use Rattle.std.specs.Prelude.{◌≡◌, IfOk};

use std::alloc::{AllocError, Global};
use std::marker::Model;

/// Bytes that were written in one call. Contracts see their list.
#[derive(Drop)]
pub struct Piece {
    bytes: Vec<u8>,
}

impl Model for Piece {
    ghost use Rattle.std.specs.Prelude.{List, ℕ};

    ghost Value = { List ℕ };

    ghost view = { λ p. p.bytes.items };
}

impl Piece {
    /// A copy of these bytes.
    pub(crate) fn from_slice(alloc: Global, bytes: &[u8]) -> Result<Piece, AllocError>
        ensures { IfOk result (λ p. p ≡ bytes.now) }
    {
        Ok(Piece {
            bytes: Vec::from_slice(alloc, bytes)?,
        })
    }

    /// The bytes.
    pub fn as_slice(&self) -> &[u8]
        ensures { result.now ≡ self.now }
    {
        self.bytes.as_slice()
    }
}

/// A write or a sync that a store in memory did. `fill` is the byte that the unsynced bytes became
/// by the last stop since the call before, if one came.
#[derive(Drop)]
pub enum StoreCall {
    Write {
        fill: Option<u8>,
        at: u64,
        piece: Piece,
    },
    Sync {
        fill: Option<u8>,
    },
}

/// A range of bytes: the place of the first one, and how many there are.
#[derive(Clone, Copy, Debug, PartialEq, Eq)]
pub struct Span {
    pub at: u64,
    pub count: u64,
}
