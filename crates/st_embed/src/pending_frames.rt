// What a step gave, until it is taken out.
ghost use Rattle.std.specs.Prelude.{◌≡◌, [], true, IfOk, IfErr, IfSome, OnOk, OnErr, Ok, length};
ghost use Rattle.st_embed.specs.FramePieces.{AreReady, Takes, are_sent, frames_of, left_of, outputs_of};
ghost use Rattle.st_embed.specs.Events.{events_in};
ghost use Rattle.st_host_frames.specs.Results.{NotPut, Puts};

use crate::events::{TankEvent, write_events};
use crate::outbox::{Outbox, Sender};
use st_host_frames::HostFault;
use st_messages::Outputs;
use std::alloc::{AllocError, Global};
use std::marker::Model;

/// The outputs of a step, and whether their frames are spelled.
#[derive(Drop)]
pub struct StepOutputs {
    pub(crate) sender: Sender,
    pub(crate) outputs: Outputs,
    pub(crate) spelled: bool,
}

/// What the last step gave. Contracts see the bytes of its frames that are left, and its outputs.
/// If memory runs out as the frames are spelled, nothing is lost, and the call may be tried again.
#[derive(Drop)]
pub(crate) struct PendingFrames {
    ready: Outbox,
    given: Option<StepOutputs>,
}

impl Model for PendingFrames {
    ghost use Rattle.std.specs.Prelude.{◌≡◌, true, IfSome};
    ghost use Rattle.st_embed.specs.FramePieces as shown;
    ghost use Rattle.st_embed.specs.FramePieces.{are_sent, left_of, outputs_of};

    ghost Value = { shown.StepGives };

    ghost view = { λ p. record { left = left_of p.ready p.given; outputs = outputs_of p.given } };

    ghost invariant = { λ p. IfSome p.given (λ u. are_sent u.sender u.outputs ≡ true) };
}

/// Spells the outputs that are not spelled yet.
fn spell(ready: &mut Outbox, given: &mut Option<StepOutputs>) -> Result<(), AllocError>
    requires sent { IfSome given.old (λ u. are_sent u.sender u.outputs ≡ true) }
    ensures all { OnOk result (AreReady given.new) }
    ensures sent { IfSome given.new (λ u. are_sent u.sender u.outputs ≡ true) }
    ensures outputs { outputs_of given.new ≡ outputs_of given.old }
    ensures same { left_of ready.new given.new ≡ left_of ready.old given.old }
{
    match given {
        None => Ok(()),
        Some(step) => {
            if !step.spelled {
                ready.put(step.sender, step.outputs.as_slice())?;
                step.spelled = true;
            }
            Ok(())
        }
    }
}

impl PendingFrames {
    /// No step was taken. It does not allocate.
    pub(crate) fn new(alloc: Global) -> PendingFrames
        ensures left { result.left ≡ [] }
        ensures outputs { result.outputs ≡ [] }
    {
        PendingFrames {
            ready: Outbox::new(alloc),
            given: None,
        }
    }

    /// These outputs take the place of those of the step before, of which no bytes are left.
    pub(crate) fn put(&mut self, sender: Sender, outputs: Outputs)
        requires sent { are_sent sender outputs ≡ true }
        ensures left { self.new.left ≡ frames_of sender outputs }
        ensures outputs { self.new.outputs ≡ outputs }
    {
        self.given = Some(StepOutputs {
            sender,
            outputs,
            spelled: false,
        });
    }

    /// How many bytes are left.
    pub(crate) fn len(&mut self) -> Result<usize, AllocError>
        ensures same { self.new ≡ self.old }
        ensures count { IfOk result (λ n. n ≡ length self.old.left) }
    {
        spell(&mut self.ready, &mut self.given)?;
        Ok(self.ready.len())
    }

    /// Takes the first bytes out, as many as there is room for, and returns how many.
    pub(crate) fn take(&mut self, out: &mut [u8]) -> Result<usize, AllocError>
        ensures ok { IfOk result (Takes self.old.left self.new.left out.old out.new) }
        ensures outputs { self.new.outputs ≡ self.old.outputs }
        ensures same { OnErr result (self.new ≡ self.old) }
        ensures kept { OnErr result (out.new ≡ out.old) }
    {
        spell(&mut self.ready, &mut self.given)?;
        Ok(self.ready.take(out))
    }

    /// Writes to the front of a buffer what the step told, in order, and returns how many events
    /// there are.
    pub(crate) fn events(&self, alloc: Global, out: &mut [TankEvent]) -> Result<usize, HostFault>
        ensures ok { IfOk result (Puts (Ok (events_in self.now.outputs)) out.old out.new) }
        ensures err { IfErr result (NotPut (Ok (events_in self.now.outputs)) (length out.old)) }
        ensures kept { OnErr result (out.new ≡ out.old) }
    {
        match &self.given {
            None => write_events(alloc, &[], out),
            Some(step) => write_events(alloc, step.outputs.as_slice(), out),
        }
    }
}
