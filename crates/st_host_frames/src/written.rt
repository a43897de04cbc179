// Frames of messages, and items that are written into a buffer.
ghost use Rattle.std.specs.Prelude.{◌≡◌, ◌++◌, IfOk, IfErr, OnErr, Ok, length, true};
ghost use Rattle.st_codec.specs.Stream.{message_frame};
ghost use Rattle.st_host_frames.specs.Messages as messages;
ghost use Rattle.st_host_frames.specs.Results.{Gives, NotPut, Wrote};
ghost use Rattle.st_messages.specs.Ranges.{fits};

use crate::fault::HostFault;
use st_codec::{encode, fits_a_frame, spelled_size};
use st_messages::{Header, Message};
use std::alloc::{AllocError, Global};

/// The header of a message from a node's own surroundings.
pub(crate) fn local_header(node: u16) -> Header
    ensures { result ≡ messages.local_header node }
{
    Header {
        from: 0,
        to: node,
        life: 0,
        epoch: 0,
        number: 0,
        stamp: 0,
    }
}

/// The frame of a message: its length in four bytes, and its bytes.
#[tactic(auto, unfolding(st_codec_fields::specs::Spelling::word32))]
pub(crate) fn frame_of(alloc: Global, message: &Message) -> Result<Vec<u8>, HostFault>
    ensures { Gives (λ v. v.items) result (messages.framed message.now) }
{
    if !message.fits() {
        return Err(HostFault::Range);
    }
    fits_a_frame();
    spelled_size();
    let bytes = encode(alloc, message)?;
    let length = bytes.len() as u32;
    let mut frame = Vec::with_capacity(alloc, 4 + bytes.len())?;
    frame.extend_from_slice(&length.to_be_bytes())?;
    frame.extend_from_slice(bytes.as_slice())?;
    Ok(frame)
}

/// Writes items to the front of a buffer, and returns how many there are.
pub(crate) fn write_first<T: Copy>(items: &[T], out: &mut [T]) -> Result<usize, HostFault>
    ensures ok { IfOk result (Wrote items.now out.old out.new) }
    ensures err { IfErr result (NotPut (Ok items.now) (length out.old)) }
    ensures kept { OnErr result (out.new ≡ out.old) }
{
    let count = items.len();
    if out.len() < count {
        return Err(HostFault::Room(count));
    }
    out[..count].copy_from_slice(items);
    Ok(count)
}
