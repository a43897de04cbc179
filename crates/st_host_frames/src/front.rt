// The frame with which a stream begins.
ghost use Rattle.std.specs.Prelude.{◌≡◌};
ghost use Rattle.st_codec_fields.specs.Decoder as fields;
ghost use Rattle.st_host_frames.specs.Fronts as fronts;
ghost use Rattle.st_host_frames.specs.Results.{Gives};

use crate::fault::{FrameFault, HostFault};
use crate::frame::whole_len;
use st_codec::CodecRefusal;
use st_codec_fields::{ReadError, read_byte, read_word16};

/// A frame: how many bytes it has with its length, the version and kind of its message, and the
/// nodes from which and to which it goes.
#[repr(C)]
#[derive(Clone, Copy)]
pub struct TankFrame {
    pub size: usize,
    pub version: u16,
    pub kind: u16,
    pub from: u16,
    pub to: u16,
}

#[tactic(auto, unfolding(crate::specs::Fronts::route_at))]
fn read_route(bytes: &[u8]) -> Result<((u8, (u8, (u16, u16))), &[u8]), ReadError>
    ensures { fields.Gives (λ x. (x.0, x.1.now)) result (fronts.route_at bytes.now) }
{
    let (version, rest) = read_byte(bytes)?;
    let (kind, rest) = read_byte(rest)?;
    let (from, rest) = read_word16(rest)?;
    let (to, rest) = read_word16(rest)?;
    Ok(((version, (kind, (from, to))), rest))
}

/// The frame with which bytes begin. Its message is not read: only its first fields are.
pub fn front_of(bytes: &[u8]) -> Result<TankFrame, HostFault>
    ensures { Gives (λ f. f) result (fronts.frame_at bytes.now) }
{
    let len = match whole_len(bytes) {
        Ok(len) => len,
        Err(fault) => return Err(HostFault::Frame(fault)),
    };
    let (_, body) = bytes.split_at(4);
    let (message, _) = body.split_at(len);
    match read_route(message) {
        Ok(((version, (kind, (from, to))), _)) => Ok(TankFrame {
            size: 4 + len,
            version: u16::from(version),
            kind: u16::from(kind),
            from,
            to,
        }),
        Err(ReadError::Memory) => Err(HostFault::Memory),
        Err(ReadError::Fault(_)) => Err(HostFault::Frame(FrameFault::Refused(CodecRefusal::Short))),
    }
}
