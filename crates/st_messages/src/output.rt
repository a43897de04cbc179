ghost use Rattle.std.specs.Prelude.{◌≡◌};
ghost use Rattle.st_messages.specs.declared.output.StepFault.TheVariants.{Memory};

use crate::answer::AppAnswer;
use crate::message::Message;
use crate::patch::PatchBytes;
use st_base::{BlockAt, ClientId, Command, FileId, Life, PageBytes, PageNo, Rows, ServerId, Stamp};
use std::alloc::{AllocError, AllocFailed};
use thiserror::Error;

/// A node's note on what it did, for its surroundings.
#[derive(Drop)]
pub enum Note {
    Leased {
        server: ServerId,
        end: Stamp,
    },
    Lost {
        server: ServerId,
        life: Life,
    },
    Accepted {
        file: FileId,
        page: PageNo,
        bytes: PageBytes,
    },
    Suspected {
        client: ClientId,
        start: Stamp,
    },
    Stolen {
        client: ClientId,
        life: Life,
    },
    CutDone {
        file: FileId,
        from: PageNo,
    },
    Patched {
        file: FileId,
        page: PageNo,
        at: u16,
        bytes: PatchBytes,
    },
}

/// An output of a node's step to its surroundings.
#[derive(Drop)]
pub enum Output {
    Send(Message),
    /// `command` is the client's own number for the command.
    Submit {
        command: u64,
        at: BlockAt,
        what: Command,
    },
    Answer {
        op: u32,
        answer: AppAnswer,
    },
    Note(Note),
}

/// The outputs of one step, in order.
pub type Outputs = Rows<Output>;

/// Why a step of a node has no outputs.
#[derive(Clone, Copy, Debug, PartialEq, Eq, Error)]
pub enum StepFault {
    #[error("out of memory")]
    Memory,
    #[error("the node is not running")]
    Crashed,
}

impl From<AllocError> for StepFault {
    ghost from_gives = { λ _ e. e ≡ Memory };

    fn from(_e: AllocError) -> StepFault {
        StepFault::Memory
    }
}

impl<T: Drop> From<AllocFailed<T>> for StepFault {
    ghost from_gives = { λ _ e. e ≡ Memory };

    fn from(_e: AllocFailed<T>) -> StepFault {
        StepFault::Memory
    }
}
