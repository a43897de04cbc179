// What is checked before a step.
ghost use Rattle.std.specs.Prelude.{◌≡◌, [], true, Ok, IfOk, IfErr, OnOk};
ghost use Rattle.st_embed.specs.Checks as checks;
ghost use Rattle.st_embed.specs.Checks.{IsMisread, IsUntaken};
ghost use Rattle.st_host_frames.specs.Frame.{received};
ghost use Rattle.st_messages.specs.Ranges.{fits};

use crate::fault::StepRefusal;
use crate::pending_frames::PendingFrames;
use st_base::Stamp;
use st_host_frames::read_frame;
use st_messages::Message;
use std::alloc::Global;

/// Whether a step may be taken at this moment.
pub(crate) fn is_in_time(last: Stamp, now: Stamp) -> bool
    ensures { result ≡ checks.is_in_time last now }
{
    last.0 <= now.0 && now.0 <= 4_611_686_018_427_387_904
}

/// Reads the frame of a step. An error is a refusal.
pub(crate) fn read_step(alloc: Global, frame: &[u8]) -> Result<Message, StepRefusal>
    ensures ok { IfOk result (λ m. received frame.now ≡ Ok m) }
    ensures fits { IfOk result (λ m. fits m ≡ true) }
    ensures err { IfErr result (IsMisread frame.now) }
{
    match read_frame(alloc, frame) {
        Ok(Ok(message)) => Ok(message),
        Ok(Err(fault)) => Err(StepRefusal::Frame(fault)),
        Err(_) => Err(StepRefusal::Memory),
    }
}

/// Whether all bytes were taken out.
pub(crate) fn check_taken(pending: &mut PendingFrames) -> Result<(), StepRefusal>
    ensures same { pending.new ≡ pending.old }
    ensures ok { OnOk result (pending.old.left ≡ []) }
    ensures err { IfErr result (IsUntaken pending.old.left) }
{
    match pending.len() {
        Ok(0) => Ok(()),
        Ok(_) => Err(StepRefusal::Untaken),
        Err(_) => Err(StepRefusal::Memory),
    }
}
