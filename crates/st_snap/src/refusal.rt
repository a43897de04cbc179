ghost use Rattle.std.specs.Prelude.{◌≡◌};
ghost use Rattle.st_snap.specs.declared.refusal.SnapRefusal.TheVariants as refusals;

use std::alloc::{AllocError, AllocFailed};
use thiserror::Error;

/// Why a volume refuses a call.
#[derive(Clone, Copy, Debug, PartialEq, Eq, Error)]
pub enum SnapRefusal {
    #[error("{free} free blocks for {asked} pages")]
    NoSpace { free: u64, asked: u64 },
    #[error("no image {0}")]
    NoImage(u32),
    #[error("{0} images are kept")]
    TooMany(u32),
    #[error("out of memory")]
    Memory,
}

impl From<AllocError> for SnapRefusal {
    ghost from_gives = { λ _ e. e ≡ refusals.Memory };

    fn from(_e: AllocError) -> SnapRefusal {
        SnapRefusal::Memory
    }
}

impl<T: Drop> From<AllocFailed<T>> for SnapRefusal {
    ghost from_gives = { λ _ e. e ≡ refusals.Memory };

    fn from(_e: AllocFailed<T>) -> SnapRefusal {
        SnapRefusal::Memory
    }
}
