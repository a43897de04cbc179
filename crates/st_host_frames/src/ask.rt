// The frame of an ask.
ghost use Rattle.std.specs.Prelude.{◌≡◌, IfOk, IfErr, OnErr, length};
ghost use Rattle.st_host_frames.specs.Asks as asks;
ghost use Rattle.st_host_frames.specs.Results.{Gives, NotPut, Puts};

use crate::ask_fields::{TankAsk, ask_of};
use crate::fault::HostFault;
use crate::written::{frame_of, local_header, write_first};
use st_messages::{Body, Message};
use std::alloc::Global;

/// The bytes of the frame of an ask.
#[tactic(auto, using(crate::proofs::Asked::ask_fails, crate::proofs::Asked::ask_measured, crate::proofs::Asked::no_such_op, crate::proofs::Faults::gives_same))]
fn ask_frame(alloc: Global, ask: &TankAsk, bytes: &[u8], other: &[u8]) -> Result<Vec<u8>, HostFault>
    ensures { Gives (λ v. v.items) result (asks.ask_frame ask.now bytes.now other.now) }
{
    let asked = ask_of(alloc, ask, bytes, other)?;
    if 4_294_967_295 < ask.op {
        return Err(HostFault::Range);
    }
    let body = Body::App {
        op: ask.op as u32,
        ask: asked,
    };
    let message = Message {
        header: local_header(ask.client),
        body,
    };
    frame_of(alloc, &message)
}

/// Writes the frame of an ask to the front of a buffer, and returns how many bytes it has.
/// `bytes` are those of the page, of the patch or of the name (of a list: the name after which it
/// begins), and `other` those of a renaming's new name. `Unknown` comes before `Range`, and both
/// before `Room`.
#[tactic(auto, using(crate::proofs::Faults::is_put, crate::proofs::Faults::not_due, crate::proofs::Faults::not_put))]
pub fn encode_ask(
    alloc: Global,
    ask: &TankAsk,
    bytes: &[u8],
    other: &[u8],
    out: &mut [u8],
) -> Result<usize, HostFault>
    ensures ok { IfOk result (Puts (asks.ask_frame ask.now bytes.now other.now) out.old out.new) }
    ensures err { IfErr result (NotPut (asks.ask_frame ask.now bytes.now other.now) (length out.old)) }
    ensures kept { OnErr result (out.new ≡ out.old) }
{
    let frame = ask_frame(alloc, ask, bytes, other)?;
    write_first(frame.as_slice(), out)
}
