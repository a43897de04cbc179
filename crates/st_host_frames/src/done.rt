// The frames of a tick and of the end of a disk command.
ghost use Rattle.std.specs.Prelude.{◌≡◌, IfOk, IfErr, OnErr, Some, length};
ghost use Rattle.st_host_frames.specs.Ends as ends;
ghost use Rattle.st_host_frames.specs.Messages.{tag_of, tick_frame};
ghost use Rattle.st_host_frames.specs.Results.{Gives, NotPut, Puts};
ghost use Rattle.st_messages.specs.declared.message.DiskResult.TheVariants as results;

use crate::fault::HostFault;
use crate::tag::{TankTag, tag_of};
use crate::written::{frame_of, local_header, write_first};
use st_base::PageBytes;
use st_messages::{Body, DiskResult, Message};
use std::alloc::Global;

/// The end of a disk command. The tag counts only for a read that was done.
#[repr(C)]
#[derive(Clone, Copy)]
pub struct TankDone {
    /// The number of the command.
    pub number: u64,
    /// The tag that the block had.
    pub tag: TankTag,
    /// 0 if it failed, 1 for a write that was done, 2 for a read that was done.
    pub result: u32,
    /// The client to which it goes.
    pub client: u16,
}

/// The end that a struct means.
#[tactic(auto, unfolding(crate::specs::Ends::ended))]
fn end_of(alloc: Global, done: &TankDone, page: &[u8]) -> Result<DiskResult, HostFault>
    ensures { Gives (λ x. x) result (ends.measured (ends.ended done.now page.now)) }
{
    match done.result {
        0 => Ok(DiskResult::Failed),
        1 => Ok(DiskResult::WriteDone),
        2 => {
            if page.len() != 4_096 {
                return Err(HostFault::Range);
            }
            let page = PageBytes::from_slice(alloc, page)?;
            Ok(DiskResult::ReadDone(tag_of(done.tag), page))
        }
        _ => Err(HostFault::Unknown),
    }
}

/// The bytes of the frame of an end.
#[tactic(auto, using(crate::proofs::Asked::end_fails, crate::proofs::Asked::end_measured, crate::proofs::Faults::gives_same))]
fn done_frame(alloc: Global, done: &TankDone, page: &[u8]) -> Result<Vec<u8>, HostFault>
    ensures { Gives (λ v. v.items) result (ends.done_frame done.now page.now) }
{
    let body = Body::Done {
        command: done.number,
        result: end_of(alloc, done, page)?,
    };
    let message = Message {
        header: local_header(done.client),
        body,
    };
    frame_of(alloc, &message)
}

/// Writes the frame of the end of a disk command to the front of a buffer, and returns how many
/// bytes it has. `page` is the page that was read; otherwise it may be empty. `Unknown` comes
/// before `Range`, and both before `Room`.
#[tactic(auto, using(crate::proofs::Faults::is_put, crate::proofs::Faults::not_due, crate::proofs::Faults::not_put))]
pub fn encode_done(
    alloc: Global,
    done: &TankDone,
    page: &[u8],
    out: &mut [u8],
) -> Result<usize, HostFault>
    ensures ok { IfOk result (Puts (ends.done_frame done.now page.now) out.old out.new) }
    ensures err { IfErr result (NotPut (ends.done_frame done.now page.now) (length out.old)) }
    ensures kept { OnErr result (out.new ≡ out.old) }
{
    let frame = done_frame(alloc, done, page)?;
    write_first(frame.as_slice(), out)
}

/// Writes the frame of a tick for this node to the front of a buffer, and returns how many bytes it
/// has. `Range` comes before `Room`.
#[tactic(auto, using(crate::proofs::Faults::is_put, crate::proofs::Faults::not_due, crate::proofs::Faults::not_put))]
pub fn encode_tick(alloc: Global, node: u16, out: &mut [u8]) -> Result<usize, HostFault>
    ensures ok { IfOk result (Puts (tick_frame node) out.old out.new) }
    ensures err { IfErr result (NotPut (tick_frame node) (length out.old)) }
    ensures kept { OnErr result (out.new ≡ out.old) }
{
    let message = Message {
        header: local_header(node),
        body: Body::Tick,
    };
    let frame = frame_of(alloc, &message)?;
    write_first(frame.as_slice(), out)
}
