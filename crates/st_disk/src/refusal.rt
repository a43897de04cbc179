ghost use Rattle.std.specs.Prelude.{◌≡◌};
ghost use Rattle.st_disk.specs.declared.refusal.DiskRefusal.TheVariants as refusals;

use std::alloc::{AllocError, AllocFailed};
use thiserror::Error;

/// Why the disks refuse a call; the value is the command's number.
#[derive(Clone, Copy, Debug, PartialEq, Eq, Error)]
pub enum DiskRefusal {
    #[error("no command {0}")]
    NoCommand(u64),
    #[error("command {0} was done")]
    Twice(u64),
    #[error("command {0} had no effect")]
    NotEffected(u64),
    #[error("command {0} was reported")]
    Reported(u64),
    #[error("out of memory")]
    Memory,
}

impl From<AllocError> for DiskRefusal {
    ghost from_gives = { λ _ e. e ≡ refusals.Memory };

    fn from(_e: AllocError) -> DiskRefusal {
        DiskRefusal::Memory
    }
}

impl<T: Drop> From<AllocFailed<T>> for DiskRefusal {
    ghost from_gives = { λ _ e. e ≡ refusals.Memory };

    fn from(_e: AllocFailed<T>) -> DiskRefusal {
        DiskRefusal::Memory
    }
}
