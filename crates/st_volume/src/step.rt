use st_base::{ClientId, ServerId};
use st_messages::{AppAnswer, Ask};

/// What becomes of an entry of the log.
#[derive(Clone, Copy, Debug, PartialEq, Eq)]
pub enum Fate {
    Open,
    Hard,
    Dropped,
}

/// A step of the volume. All but `TakesEffect` can be seen in a schedule and its report.
#[derive(Drop)]
pub enum VolumeStep {
    /// A client is asked. Its asks are numbered from 1.
    Asked(ClientId, Ask),
    /// The ask with this number takes effect.
    TakesEffect(ClientId, u32),
    /// Entry `index` has joined the log: a write or a patch of this client, or somebody's cut.
    Joined(u64, Option<ClientId>, Ask),
    Answered(ClientId, u32, AppAnswer),
    Hardened(u64),
    /// The entry is dropped: its client crashed, or this command of its client failed.
    Dropped(u64, Option<u64>),
    Crashed(ClientId),
    /// A server starts again.
    Restarted(ServerId),
    /// A client that still runs is told that this write failed. It carried the entry.
    WriteFailed(ClientId, u64, u64),
    /// A client that still runs is told that this read of the server's disks failed.
    ReadFailed(ClientId, ServerId, u64),
}
