// Messages as frames.
ghost use Rattle.std.specs.Prelude.{◌≡◌, ◌≤◌, ◌<◌, ◌++◌, true, OnOk, length};
ghost use Rattle.st_codec.specs.Stream.{message_frame};
ghost use Rattle.st_codec.specs.Spelling.{spelling};
ghost use Rattle.st_messages.specs.Ranges.{fits};

use st_codec::{encode, fits_a_frame, spelled_size};
use st_messages::Message;
use std::alloc::AllocError;

/// Appends a message as a frame: its length in four bytes, and its bytes.
#[tactic(auto, unfolding(st_codec_fields::specs::Spelling::word32))]
pub(crate) fn put_frame(out: &mut Vec<u8>, message: &Message) -> Result<(), AllocError>
    requires { fits message.now ≡ true }
    ensures { OnOk result (out.new.items ≡ out.old.items ++ message_frame message.now) }
{
    fits_a_frame();
    spelled_size();
    let bytes = encode(*out.allocator(), message)?;
    let length = bytes.len() as u32;
    out.extend_from_slice(&length.to_be_bytes())?;
    out.extend_from_slice(&bytes)?;
    Ok(())
}
