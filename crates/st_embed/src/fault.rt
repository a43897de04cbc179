use st_base::ConfigRefusal;
use st_host_frames::FrameFault;
use thiserror::Error;

/// Why a step is refused, in the order of the checks. All but `Starved` change nothing.
#[derive(Clone, Copy, Debug, PartialEq, Eq, Error)]
pub enum StepRefusal {
    /// The node crashed, as it does if memory runs out in a step.
    #[error("the node does not run")]
    Crashed,
    /// Frames of the step before must still be taken.
    #[error("frames of an earlier step were not taken")]
    Untaken,
    /// The moment is before that of an earlier step, or above 2^62.
    #[error("the moment is before an earlier one, or above 2^62")]
    Time,
    /// The bytes are not one frame.
    #[error("{0}")]
    Frame(FrameFault),
    /// A counter of the node is at its end.
    #[error("a counter of the node is at its end")]
    Full,
    /// Memory ran out before the step was begun.
    #[error("out of memory")]
    Memory,
    /// Memory ran out in the step: the node is crashed.
    #[error("memory ran out in the step, and the node is crashed")]
    Starved,
}

/// Why a node is not opened, in the order of the checks.
#[derive(Clone, Copy, Debug, PartialEq, Eq, Error)]
pub enum OpenFault {
    #[error("{0}")]
    Settings(ConfigRefusal),
    #[error("the number of the node is out of its range")]
    Number,
    #[error("there are more than four servers")]
    Servers,
    /// Some lives are 0 and some are not, or one is above 2^62 - 2.
    #[error("the lives are not those of a client")]
    Lives,
    #[error("out of memory")]
    Memory,
}

/// Why a step of a server is refused. All but `Starved` change nothing.
#[derive(Clone, Copy, Debug, PartialEq, Eq, Error)]
pub enum ServerRefusal {
    /// The change of an earlier step, or the beginning of the epoch, must still be kept.
    #[error("a change was not kept")]
    Unkept,
    /// As of any node.
    #[error("{0}")]
    Step(StepRefusal),
    /// The journal has too little room for the change that the request asks for.
    #[error("the journal is full")]
    JournalFull,
}

/// Why a server is not opened, in the order of the checks.
#[derive(Clone, Copy, Debug, PartialEq, Eq, Error)]
pub enum ServerFault {
    #[error("{0}")]
    Settings(ConfigRefusal),
    #[error("the numbers of the server, of servers, disks or blocks are out of their ranges")]
    Shape,
    #[error("the moment is above 2^62")]
    Time,
    #[error("the journal has no byte, or 2^32 or more")]
    Size,
    #[error("no change that applies lies behind the open gate at {0}")]
    Damaged(u64),
    #[error("the journal is full")]
    Full,
    #[error("the changes of the journal begin no epoch")]
    NoEpoch,
    #[error("no epoch is left")]
    Epochs,
    #[error("out of memory")]
    Memory,
}
