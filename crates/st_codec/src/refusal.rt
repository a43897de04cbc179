ghost use Rattle.std.specs.Prelude.{◌≡◌};
ghost use Rattle.st_codec.specs.Decoder as reading;

use st_codec_fields::Fault;
use thiserror::Error;

/// Why bytes are not a message. `docs/PROTOCOL.md`, "Wire", says which refusal is returned.
#[derive(Clone, Copy, Debug, PartialEq, Eq, Error)]
pub enum CodecRefusal {
    /// The bytes end inside a field.
    #[error("the message ends inside a field")]
    Short,
    /// Bytes follow the body.
    #[error("bytes follow the message")]
    Long,
    /// No message of this version has this kind.
    #[error("no such kind of message")]
    Kind,
    /// A field that begins at this byte of the message is out of range.
    #[error("the field at byte {0} is out of its range")]
    Value(u64),
    /// The version is neither 1 nor 2.
    #[error("no such version")]
    Version,
    /// The length of a frame is above 65,536.
    #[error("a frame of {0} bytes is too long")]
    FrameTooLong(u32),
    /// Reading ran out of memory for the lists of the message.
    #[error("out of memory")]
    Memory,
}

/// Returns the fault as a refusal of a message of `len` bytes.
pub(crate) fn refusal_of(len: usize, fault: Fault) -> CodecRefusal
    ensures { result ≡ reading.refusal_of len fault }
{
    match fault {
        Fault::Short => CodecRefusal::Short,
        Fault::Long => CodecRefusal::Long,
        Fault::Kind => CodecRefusal::Kind,
        Fault::Value(left) => CodecRefusal::Value(len.saturating_sub(left) as u64),
        Fault::Version => CodecRefusal::Version,
    }
}
