ghost use Rattle.std.specs.Prelude.{◌≡◌};
ghost use Rattle.st_reassert.specs.declared.refusal.ReassertRefusal.TheVariants as refusals;

use st_base::{ClientId, GrantNo, Stamp};
use st_locks::LockRefusal;
use std::alloc::{AllocError, AllocFailed};
use thiserror::Error;

/// Why a reassertion is not accepted.
#[derive(Clone, Copy, Debug, PartialEq, Eq, Error)]
pub enum ReassertRefusal {
    /// When the grace began, or 0 if the epoch had none, and the present moment.
    #[error("no grace")]
    GraceOver(Stamp, Stamp),
    /// The file, and the client whose lock on it conflicts.
    #[error("file {0} has a lock that conflicts")]
    Conflict(u32, ClientId),
    /// The file, and a grant number that no earlier epoch gave.
    #[error("no earlier epoch gave the grant of file {0}")]
    NotHolder(u32, GrantNo),
    #[error("out of memory")]
    Memory,
}

impl From<AllocError> for ReassertRefusal {
    ghost from_gives = { λ _ e. e ≡ refusals.Memory };

    fn from(_e: AllocError) -> ReassertRefusal {
        ReassertRefusal::Memory
    }
}

impl<T: Drop> From<AllocFailed<T>> for ReassertRefusal {
    ghost from_gives = { λ _ e. e ≡ refusals.Memory };

    fn from(_e: AllocFailed<T>) -> ReassertRefusal {
        ReassertRefusal::Memory
    }
}
