ghost use Rattle.std.specs.Prelude.{◌≡◌};
ghost use Rattle.st_script.specs.declared.fault.ScriptFault.TheVariants.{Memory};
ghost use Rattle.st_script.specs.declared.fault.Stop.TheVariants as stops;

use std::alloc::AllocError;
use thiserror::Error;

/// Why a script did not go through its end.
#[derive(Clone, Copy, Debug, PartialEq, Eq, Error)]
pub enum ScriptFault {
    /// The line of this number, from 1, is malformed, or missing.
    #[error("line {0} Malformed")]
    Line(u64),
    #[error("a read failed")]
    Read,
    #[error("a write failed")]
    Write,
    #[error("out of memory")]
    Memory,
}

impl From<AllocError> for ScriptFault {
    ghost from_gives = { λ _ e. e ≡ Memory };

    fn from(_e: AllocError) -> ScriptFault {
        ScriptFault::Memory
    }
}

/// Why a line was not read: it is malformed or missing, the source failed, or memory ran out.
#[derive(Clone, Copy, Debug, PartialEq, Eq)]
pub(crate) enum Stop {
    Malformed,
    Read,
    Memory,
}

impl From<AllocError> for Stop {
    ghost from_gives = { λ _ e. e ≡ stops.Memory };

    fn from(_e: AllocError) -> Stop {
        Stop::Memory
    }
}
