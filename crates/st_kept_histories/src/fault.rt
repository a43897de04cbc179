use st_stable_file::OpenFault;
use thiserror::Error;

/// Why a server is not opened, in the order of the checks.
#[derive(Clone, Copy, Debug, PartialEq, Eq, Error)]
pub enum KeptFault {
    /// The file was not made yet: nothing was ever kept in it.
    #[error("the file of the journal was not made")]
    Unmade,
    #[error("{0}")]
    File(OpenFault),
    /// The journal begins no epoch, but has what a server has that never began one.
    #[error("the journal has changes, and none of them begins an epoch")]
    NoEpoch,
    #[error("no epoch is left")]
    Epochs,
    /// A name, a page or the number of the server is none that could be told in a message.
    #[error("the names and pages of the journal are not those of the server")]
    NotTold,
    /// The area has too little room for the change that begins the epoch.
    #[error("the journal is full")]
    Full,
    #[error("out of memory")]
    Memory,
}

/// Why a step is refused, in the order of the checks. All but `Starved` change nothing.
#[derive(Clone, Copy, Debug, PartialEq, Eq, Error)]
pub enum KeptRefusal {
    /// The node crashed, as it does if memory runs out in a step.
    #[error("the node does not run")]
    Crashed,
    /// The moment is before that of an earlier step, or above 2^62.
    #[error("the moment is before an earlier one, or above 2^62")]
    Time,
    /// A counter of the node is at its end.
    #[error("a counter of the node is at its end")]
    Counters,
    /// As many changes wait to be kept as may.
    #[error("too many changes wait to be kept")]
    Waits,
    /// The journal has too little room for the change that the input asks for.
    #[error("the journal is full")]
    Full,
    /// Memory ran out in the step: the node is crashed.
    #[error("memory ran out in the step, and the node is crashed")]
    Starved,
}
