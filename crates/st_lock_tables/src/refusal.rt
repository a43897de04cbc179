ghost use Rattle.std.specs.Prelude.{◌≡◌};
ghost use Rattle.st_lock_tables.specs.declared.refusal.LockRefusal.TheVariants as refusals;

use st_base::ClientId;
use std::alloc::{AllocError, AllocFailed};
use thiserror::Error;

/// Why a lock table refuses a call.
#[derive(Clone, Copy, Debug, PartialEq, Eq, Error)]
pub enum LockRefusal {
    #[error("the client has locks or waits on 1024 other files")]
    TooManyLocks,
    /// The first file on which another client's lock conflicts, and the least such client.
    #[error("another client's lock conflicts")]
    Conflict(u32, ClientId),
    #[error("out of memory")]
    Memory,
}

impl From<AllocError> for LockRefusal {
    ghost from_gives = { λ _ e. e ≡ refusals.Memory };

    fn from(_e: AllocError) -> LockRefusal {
        LockRefusal::Memory
    }
}

impl<T: Drop> From<AllocFailed<T>> for LockRefusal {
    ghost from_gives = { λ _ e. e ≡ refusals.Memory };

    fn from(_e: AllocFailed<T>) -> LockRefusal {
        LockRefusal::Memory
    }
}
