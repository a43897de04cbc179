ghost use Rattle.std.specs.Prelude.{◌≡◌, IfOk};

use crate::log::Cause;
use st_base::{ClientId, Command, FileId, Life, NodeId, PageBytes, PageNo, ServerId, Stamp};
use st_messages::{AppAnswer, Message, PatchBytes};
use std::alloc::AllocError;
use thiserror::Error;

/// An observation of a world: one variant for each kind of line in a report.
#[derive(Clone, Drop)]
pub enum Observation {
    /// Message `k` is sent.
    Sent {
        k: u64,
        message: Message,
    },
    /// Disk command `k` is submitted. `number` is the client's own number for it.
    Submitted {
        k: u64,
        client: ClientId,
        number: u64,
        what: Command,
    },
    Answered {
        client: ClientId,
        op: u32,
        answer: AppAnswer,
    },
    /// Entry `index` of the log is a write.
    Wrote {
        index: u64,
        client: ClientId,
        file: FileId,
        page: PageNo,
        bytes: PageBytes,
    },
    /// Entry `index` of the log is a patch.
    Patched {
        index: u64,
        client: ClientId,
        file: FileId,
        page: PageNo,
        at: u16,
        bytes: PatchBytes,
    },
    /// Entry `index` of the log is a cut.
    CutAt {
        index: u64,
        file: FileId,
        from: PageNo,
    },
    Hardened(u64),
    Dropped {
        index: u64,
        cause: Cause,
    },
    Leased {
        client: ClientId,
        server: ServerId,
        end: Stamp,
    },
    Lost {
        client: ClientId,
        server: ServerId,
        life: Life,
    },
    Suspected {
        server: ServerId,
        client: ClientId,
        start: Stamp,
    },
    Stolen {
        server: ServerId,
        client: ClientId,
        life: Life,
    },
}

/// The counts of a run.
#[derive(Clone, Copy, Debug, PartialEq, Eq)]
pub struct Summary {
    pub events: u64,
    pub sent: u64,
    pub commands: u64,
    pub writes: u64,
    pub reads: u64,
    pub hard: u64,
    pub gone: u64,
    pub stolen: u64,
}

/// Why an event is refused in a world.
#[derive(Clone, Copy, Debug, PartialEq, Eq, Error)]
pub enum WorldRefusal {
    #[error("no such node")]
    NoNode(NodeId),
    #[error("the node is not running")]
    NotRunning(NodeId),
    #[error("the node is running")]
    Running(NodeId),
    #[error("no message {0}")]
    NoMessage(u64),
    #[error("message {0} is lost")]
    LostMessage(u64),
    #[error("the link is cut")]
    LinkCut(NodeId, NodeId),
    #[error("no command {0}")]
    NoCommand(u64),
    #[error("command {0} had its effect or its report")]
    DiskState(u64),
    /// The greatest and the least increment.
    #[error("clocks differ too much: {0} and {1}")]
    ClockRate(u64, u64),
    /// The client's clock, and the end of the lease, which the clock reached.
    #[error("a disk command after its lease's end")]
    LateDisk(Stamp, Stamp),
    #[error("dirty pages were not flushed before the lease's end")]
    FlushMissed(ClientId, ServerId),
    /// The number of bytes of all messages so far.
    #[error("{0} bytes of messages")]
    NetFull(u64),
    /// The node whose clock ran ahead, the node that it ran ahead of, and the excess over the
    /// bound.
    #[error("clocks drifted apart")]
    ClockDrift(NodeId, NodeId, u128),
}

impl Observation {
    /// Returns a copy of the observation. Pages are shared.
    pub fn copy(&self) -> Result<Observation, AllocError>
        ensures { IfOk result (λ o. o ≡ self.now) }
    {
        self.clone()
    }
}
