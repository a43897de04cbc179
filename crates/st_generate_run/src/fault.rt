ghost use Rattle.std.specs.Prelude.{◌≡◌};
ghost use Rattle.st_generate_run.specs.declared.fault.WorkFault.TheVariants.{Memory, Write};

use st_link::Failed;
use std::alloc::AllocError;
use thiserror::Error;

/// Why a text was not written whole.
#[derive(Clone, Copy, Debug, PartialEq, Eq, Error)]
pub enum WorkFault {
    #[error("a write failed")]
    Write,
    #[error("out of memory")]
    Memory,
}

impl From<AllocError> for WorkFault {
    ghost from_gives = { λ _ e. e ≡ Memory };

    fn from(_e: AllocError) -> WorkFault {
        WorkFault::Memory
    }
}

impl From<Failed> for WorkFault {
    ghost from_gives = { λ _ e. e ≡ Write };

    fn from(_e: Failed) -> WorkFault {
        WorkFault::Write
    }
}
