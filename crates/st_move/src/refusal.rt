ghost use Rattle.std.specs.Prelude.{◌≡◌};
ghost use Rattle.st_move.specs.declared.refusal.MoveRefusal.TheVariants as refusals;

use st_base::ServerId;
use std::alloc::{AllocError, AllocFailed};
use thiserror::Error;

/// Why a server refuses a call on a container. If several hold, the first of this list is
/// answered, except for `Same`, which comes before `Full`.
#[derive(Clone, Copy, Debug, PartialEq, Eq, Error)]
pub enum MoveRefusal {
    /// There is no container of this number.
    #[error("no container {0}")]
    NoContainer(u32),
    /// The server never had the container.
    #[error("the container was never here")]
    Absent,
    /// The container is about to move to this server.
    #[error("the container leaves for another server")]
    Leaving(ServerId),
    /// The container was sent to this server, under this version.
    #[error("the container was sent to another server")]
    Redirect(ServerId, u64),
    /// The updates would have that many bytes, more than 60,000.
    #[error("the updates would have {0} bytes")]
    Full(u64),
    /// The order would move the container to where it is.
    #[error("the container is here")]
    Same,
    #[error("out of memory")]
    Memory,
}

impl From<AllocError> for MoveRefusal {
    ghost from_gives = { λ _ e. e ≡ refusals.Memory };

    fn from(_e: AllocError) -> MoveRefusal {
        MoveRefusal::Memory
    }
}

impl<T: Drop> From<AllocFailed<T>> for MoveRefusal {
    ghost from_gives = { λ _ e. e ≡ refusals.Memory };

    fn from(_e: AllocFailed<T>) -> MoveRefusal {
        MoveRefusal::Memory
    }
}
