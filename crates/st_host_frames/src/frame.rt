// One frame, as bytes.
ghost use Rattle.std.specs.Prelude.{◌≡◌, ◌≤◌, ◌+◌, true, IfOk, length};
ghost use Rattle.st_codec.specs.Frames.{front};
ghost use Rattle.st_codec.specs.Decoder.{decoded};
ghost use Rattle.st_host_frames.specs.Frame.{received, received_whole, spelled, whole_by};
ghost use Rattle.st_messages.specs.Ranges.{fits};

use crate::fault::FrameFault;
use st_codec::{CodecRefusal, Front, decode, front_of};
use st_messages::Message;
use std::alloc::{AllocError, Global};

/// The number of bytes after the length of the frame that the bytes begin with.
pub(crate) fn whole_len(bytes: &[u8]) -> Result<usize, FrameFault>
    ensures exact { result ≡ whole_by (front bytes.now) }
    ensures within { IfOk result (λ n. 4 + n ≤ length bytes.now) }
{
    match front_of(bytes) {
        Front::Partial => Err(FrameFault::Cut),
        Front::TooLong(length) => Err(FrameFault::Refused(CodecRefusal::FrameTooLong(length))),
        Front::Whole(len) => Ok(len),
    }
}

/// Reads bytes that should be one frame: its message, which fits, or why they aren't one.
#[tactic(auto, unfolding(crate::specs::Frame::received))]
pub fn read_frame(alloc: Global, bytes: &[u8]) -> Result<Result<Message, FrameFault>, AllocError>
    ensures exact { IfOk result (λ r. r ≡ received bytes.now) }
    ensures fits { IfOk result (λ r. IfOk r (λ m. fits m ≡ true)) }
{
    let len = match whole_len(bytes) {
        Ok(len) => len,
        Err(fault) => return Ok(Err(fault)),
    };
    if 4 + len < bytes.len() {
        return Ok(Err(FrameFault::Extra));
    }
    let (_, body) = bytes.split_at(4);
    match decode(alloc, body) {
        Ok(message) => Ok(Ok(message)),
        Err(CodecRefusal::Memory) => Err(AllocError),
        Err(refusal) => Ok(Err(FrameFault::Refused(refusal))),
    }
}
