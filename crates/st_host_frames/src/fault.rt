ghost use Rattle.std.specs.Prelude.{◌≡◌};
ghost use Rattle.st_host_frames.specs.declared.fault.HostFault.TheVariants.{Memory};

use st_codec::CodecRefusal;
use std::alloc::AllocError;
use thiserror::Error;

/// Why bytes are not one frame.
#[derive(Clone, Copy, Debug, PartialEq, Eq, Error)]
pub enum FrameFault {
    /// The bytes end before the frame does.
    #[error("the frame is cut")]
    Cut,
    /// Bytes follow the frame.
    #[error("bytes follow the frame")]
    Extra,
    /// The frame is too long, or its bytes spell no message. The refusal is never `Memory`.
    #[error("{0}")]
    Refused(CodecRefusal),
}

/// Why a struct has no frame, or a frame no struct. Nothing is written then.
#[derive(Clone, Copy, Debug, PartialEq, Eq, Error)]
pub enum HostFault {
    /// No ask, and no end of a disk command, has this number.
    #[error("no ask and no result has this number")]
    Unknown,
    /// A field of the message is out of its range, or a name or a page has another number of bytes.
    #[error("a field is out of its range")]
    Range,
    /// The buffer is too short; the value is what it must have room for.
    #[error("the buffer is too short: {0} are needed")]
    Room(usize),
    /// The bytes are not one frame.
    #[error("{0}")]
    Frame(FrameFault),
    /// The frame is one of another kind.
    #[error("the frame is of another kind")]
    OtherKind,
    #[error("out of memory")]
    Memory,
}

impl From<AllocError> for HostFault {
    ghost from_gives = { λ _ e. e ≡ Memory };

    fn from(_e: AllocError) -> HostFault {
        HostFault::Memory
    }
}
