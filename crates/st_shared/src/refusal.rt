ghost use Rattle.std.specs.Prelude.{◌≡◌};
ghost use Rattle.st_shared.specs.declared.refusal.SharedRefusal.TheVariants as refusals;

use st_base::{ClientId, PageNo};
use st_disk::DiskRefusal;
use std::alloc::{AllocError, AllocFailed};
use thiserror::Error;

/// Why a call on a shared file is refused. Each call says in which order its reasons are asked.
/// `Held` names the client that has the lock row, and `SharedBy` the least client that is in.
/// `Busy` and `Late` have a command's number. `Disk` is never `Disk(DiskRefusal::Memory)`.
#[derive(Clone, Copy, Debug, PartialEq, Eq, Error)]
pub enum SharedRefusal {
    #[error("a client has the lock")]
    Held(ClientId),
    #[error("the client is not in")]
    NotIn,
    #[error("command {0} of the client was not reported")]
    Busy(u64),
    #[error("the client of command {0} expired since")]
    Late(u64),
    #[error("a client is in")]
    SharedBy(ClientId),
    #[error("the client is stopped")]
    Stopped(ClientId),
    #[error("the client is not stopped")]
    NotStopped(ClientId),
    #[error("{0}")]
    Disk(DiskRefusal),
    #[error("no such page")]
    NoPage(PageNo),
    #[error("the client has no lock")]
    NoLock,
    #[error("out of memory")]
    Memory,
}

impl From<AllocError> for SharedRefusal {
    ghost from_gives = { λ _ e. e ≡ refusals.Memory };

    fn from(_e: AllocError) -> SharedRefusal {
        SharedRefusal::Memory
    }
}

impl<T: Drop> From<AllocFailed<T>> for SharedRefusal {
    ghost from_gives = { λ _ e. e ≡ refusals.Memory };

    fn from(_e: AllocFailed<T>) -> SharedRefusal {
        SharedRefusal::Memory
    }
}
