ghost use Rattle.std.specs.Prelude.{◌≡◌};
ghost use Rattle.st_schedule.specs.declared.fault.ReadError.TheVariants.{Memory};

use st_base::ConfigRefusal;
use std::alloc::{AllocError, AllocFailed};
use thiserror::Error;

/// Why a line, or the end of the lines, is refused. Columns count the bytes of a line from 1; the
/// column of a missing word is the length of the line plus 1.
#[derive(Debug, Drop, Error)]
pub enum ScheduleRefusal {
    #[error("a word is wrong, missing or superfluous at column {0}")]
    Syntax(u64),
    #[error("the line is longer than 256 bytes")]
    LineTooLong,
    #[error("the number at column {0} has a leading zero or is out of range")]
    Number(u64),
    #[error("the first line does not begin with the word tank")]
    NoHead,
    #[error("the line end is missing")]
    NoEnd,
    #[error("bytes follow the line end")]
    AfterEnd,
    #[error("more than 100000 events")]
    TooMany,
    #[error("the settings are refused: {0}")]
    Config(ConfigRefusal),
    #[error("out of memory")]
    Memory,
}

/// What is wrong with a word, with the number of bytes from its first byte to the end of the line.
#[derive(Clone, Copy, Debug, PartialEq, Eq)]
pub enum Fault {
    Syntax(usize),
    Number(usize),
}

/// Why words could not be read.
#[derive(Debug, Drop)]
pub enum ReadError {
    Memory,
    Fault(Fault),
}

impl From<AllocError> for ReadError {
    ghost from_gives = { λ _ e. e ≡ Memory };

    fn from(_e: AllocError) -> ReadError {
        ReadError::Memory
    }
}

impl<T: Drop> From<AllocFailed<T>> for ReadError {
    ghost from_gives = { λ _ e. e ≡ Memory };

    fn from(_e: AllocFailed<T>) -> ReadError {
        ReadError::Memory
    }
}
