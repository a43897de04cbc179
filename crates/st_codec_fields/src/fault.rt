ghost use Rattle.std.specs.Prelude.{◌≡◌};
ghost use Rattle.st_codec_fields.specs.declared.fault.ReadError.TheVariants.{Memory};

use std::alloc::{AllocError, AllocFailed};

/// The first fault, from the left, of the bytes of a message.
#[derive(Clone, Copy, Debug, PartialEq, Eq)]
pub enum Fault {
    Short,
    Long,
    Kind,
    /// A field is out of range; the value is the number of bytes from its beginning to the end.
    Value(usize),
    Version,
}

/// Why a part of a message could not be read.
#[derive(Debug, Drop)]
pub enum ReadError {
    Memory,
    Fault(Fault),
}

impl From<AllocError> for ReadError {
    ghost from_gives = { λ _ e. e ≡ Memory };

    fn from(_e: AllocError) -> ReadError {
        ReadError::Memory
    }
}

impl<T: Drop> From<AllocFailed<T>> for ReadError {
    ghost from_gives = { λ _ e. e ≡ Memory };

    fn from(_e: AllocFailed<T>) -> ReadError {
        ReadError::Memory
    }
}
