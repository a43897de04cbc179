ghost use Rattle.std.specs.Prelude.{◌≡◌};
ghost use Rattle.st_node.specs.declared.fault.NodeFault.TheVariants.{Memory};

use st_codec::CodecRefusal;
use std::alloc::{AllocError, AllocFailed};
use thiserror::Error;

/// Why a node was not served to the end of its stream, at a frame's boundary.
#[derive(Clone, Copy, Debug, PartialEq, Eq, Error)]
pub enum NodeFault {
    /// The frame at this offset spells no message or is too long. The refusal is never `Memory`.
    #[error("frame at {0}: {1}")]
    Frame(u64, CodecRefusal),
    /// The stream ends inside the frame at this offset.
    #[error("frame cut at {0}")]
    Cut(u64),
    /// Frame 1,048,577 begins.
    #[error("too many frames")]
    TooManyFrames,
    #[error("a read failed")]
    Read,
    #[error("a write failed")]
    Write,
    #[error("out of memory")]
    Memory,
}

impl From<AllocError> for NodeFault {
    ghost from_gives = { λ _ e. e ≡ Memory };

    fn from(_e: AllocError) -> NodeFault {
        NodeFault::Memory
    }
}

impl<T: Drop> From<AllocFailed<T>> for NodeFault {
    ghost from_gives = { λ _ e. e ≡ Memory };

    fn from(_e: AllocFailed<T>) -> NodeFault {
        NodeFault::Memory
    }
}
