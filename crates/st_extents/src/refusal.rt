ghost use Rattle.std.specs.Prelude.{◌≡◌};
ghost use Rattle.st_extents.specs.declared.refusal.ExtentRefusal.TheVariants as refusals;

use std::alloc::{AllocError, AllocFailed};
use thiserror::Error;

/// Why pages are not mapped.
#[derive(Clone, Copy, Debug, PartialEq, Eq, Error)]
pub enum ExtentRefusal {
    #[error("{free} free blocks for {asked} pages")]
    NoSpace { free: u64, asked: u64 },
    #[error("out of memory")]
    Memory,
}

impl From<AllocError> for ExtentRefusal {
    ghost from_gives = { λ _ e. e ≡ refusals.Memory };

    fn from(_e: AllocError) -> ExtentRefusal {
        ExtentRefusal::Memory
    }
}

impl<T: Drop> From<AllocFailed<T>> for ExtentRefusal {
    ghost from_gives = { λ _ e. e ≡ refusals.Memory };

    fn from(_e: AllocFailed<T>) -> ExtentRefusal {
        ExtentRefusal::Memory
    }
}
