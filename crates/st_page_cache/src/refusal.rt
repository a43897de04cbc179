ghost use Rattle.std.specs.Prelude.{◌≡◌};
ghost use Rattle.st_page_cache.specs.declared.refusal.CacheRefusal.TheVariants as refusals;

use std::alloc::{AllocError, AllocFailed};
use thiserror::Error;

/// Why a page is not written.
#[derive(Clone, Copy, Debug, PartialEq, Eq, Error)]
pub enum CacheRefusal {
    #[error("64 other pages are dirty")]
    DirtyFull,
    #[error("out of memory")]
    Memory,
}

impl From<AllocError> for CacheRefusal {
    ghost from_gives = { λ _ e. e ≡ refusals.Memory };

    fn from(_e: AllocError) -> CacheRefusal {
        CacheRefusal::Memory
    }
}

impl<T: Drop> From<AllocFailed<T>> for CacheRefusal {
    ghost from_gives = { λ _ e. e ≡ refusals.Memory };

    fn from(_e: AllocFailed<T>) -> CacheRefusal {
        CacheRefusal::Memory
    }
}
