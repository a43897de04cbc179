ghost use Rattle.std.specs.Prelude.{◌≡◌};
ghost use Rattle.st_replay.specs.declared.fault.Stop.TheVariants.{Memory};

use st_runs::LineRefusal;
use std::alloc::{AllocError, AllocFailed};
use thiserror::Error;

/// Why a replay did not go through the end of its schedule.
#[derive(Debug, Drop, Error)]
pub enum ReplayFault {
    /// The line of this number, from 1, is refused.
    #[error("line {0}: {1}")]
    Line(u64, LineRefusal),
    #[error("a read failed")]
    Read,
    #[error("a write failed")]
    Write,
    #[error("out of memory")]
    Memory,
}

/// Why lines were not all run.
#[derive(Debug, Drop)]
pub(crate) enum Stop {
    /// The line of this number, from 1, is refused.
    Line(u64, LineRefusal),
    Memory,
}

impl From<AllocError> for Stop {
    ghost from_gives = { λ _ e. e ≡ Memory };

    fn from(_e: AllocError) -> Stop {
        Stop::Memory
    }
}

impl<T: Drop> From<AllocFailed<T>> for Stop {
    ghost from_gives = { λ _ e. e ≡ Memory };

    fn from(_e: AllocFailed<T>) -> Stop {
        Stop::Memory
    }
}
