use st_base::{ClientId, FileId, Life, NodeId, PageNo, ServerId, Stamp};
use st_messages::Message;

/// A message that was sent. A lost message is never delivered again.
#[derive(Drop)]
pub struct SentMessage {
    pub message: Message,
    pub lost: bool,
}

/// A pair of nodes: no message from `from` to `to` is delivered.
#[derive(Clone, Copy, Debug, PartialEq, Eq)]
pub struct CutLink {
    pub from: NodeId,
    pub to: NodeId,
}

/// What a write command carries: its page, and the number of the log entry that it makes hard, or
/// 0.
#[derive(Clone, Copy, Debug, PartialEq, Eq)]
pub struct Carried {
    pub file: FileId,
    pub page: PageNo,
    pub index: u64,
}

/// An issued disk command: its client, the client's own number for it, how often the client had
/// been started before, and the server and the life under whose lease it was submitted. A write
/// carries its page and log entry.
#[derive(Clone, Copy, Debug, PartialEq, Eq)]
pub struct IssuedCommand {
    pub client: ClientId,
    pub number: u64,
    pub starts: u64,
    pub server: ServerId,
    pub life: Life,
    pub carries: Option<Carried>,
}

/// A life of a client at a server: the end of its lease, if it had one, and whether a crash ended
/// the life.
#[derive(Clone, Copy, Debug, PartialEq, Eq)]
pub struct LeaseLife {
    pub client: ClientId,
    pub server: ServerId,
    pub life: Life,
    pub end: Option<Stamp>,
    pub crashed: bool,
}

/// The last step of a client that ended in the flush phase at a server, by the lease end at that
/// step.
#[derive(Clone, Copy, Debug, PartialEq, Eq)]
pub struct FlushStep {
    pub client: ClientId,
    pub server: ServerId,
    pub end: Stamp,
}
