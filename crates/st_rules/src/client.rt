ghost use Rattle.std.specs.Prelude.{◌≡◌, IfOk};

use st_base::{BlockAt, GrantNo, Mode, PageBytes, PageNo, Stamp, Tag};
use st_messages::{Ask, Body, Message};
use std::alloc::AllocError;

/// An input of a client.
#[derive(Drop)]
pub enum ClientInput {
    /// Time passed.
    Tick,
    App {
        op: u32,
        ask: Ask,
    },
    Control(Message),
    /// A disk command ended: it failed (`None`), it wrote its block (`Some(None)`), or it read this
    /// tag and these bytes.
    Done {
        command: u64,
        result: Option<Option<(Tag, PageBytes)>>,
    },
}

/// What a client may do at a moment under its lease at a server: nothing without a lease; read and
/// write pages; keep what it has; write out its dirty pages; or discard everything, if the lease is
/// over.
#[derive(Clone, Copy, Debug, PartialEq, Eq)]
pub enum StandingKind {
    Idle,
    Serve,
    Hold,
    Drain,
    Lost,
}

/// A lock that a client holds.
#[derive(Clone, Copy, Debug, PartialEq, Eq)]
pub struct HeldLock {
    pub ino: u32,
    pub g: GrantNo,
    pub mode: Mode,
}

/// The greatest grant number of a file that a client has seen.
#[derive(Clone, Copy, Debug, PartialEq, Eq)]
pub struct SeenGrant {
    pub ino: u32,
    pub g: GrantNo,
}

/// A file of which a lock is demanded, and the mode to which it must be lowered.
#[derive(Clone, Copy, Debug, PartialEq, Eq)]
pub struct DemandedFile {
    pub ino: u32,
    pub to: Mode,
}

/// A lock for which a client was told to wait, and when it was told so.
#[derive(Clone, Copy, Debug, PartialEq, Eq)]
pub struct LockWait {
    pub ino: u32,
    pub mode: Mode,
    pub at: Stamp,
}

/// A release that must be sent.
#[derive(Clone, Copy, Debug, PartialEq, Eq)]
pub struct Release {
    pub ino: u32,
    pub g: GrantNo,
    pub to: Mode,
}

/// The result of a demand.
#[derive(Clone, Copy, Debug, PartialEq, Eq)]
pub enum Asked {
    /// The lock must be lowered.
    Reduce,
    NotHeld,
    /// The lock has a later grant.
    Stale,
}

/// The block of a mapped page, and the birth of its mapping.
#[derive(Clone, Copy, Debug, PartialEq, Eq)]
pub struct MappedBlock {
    pub at: BlockAt,
    pub birth: u64,
}

/// What a client knows about the mapping of a page: the mapping, or that the page has none.
#[derive(Clone, Copy, Debug, PartialEq, Eq)]
pub struct KnownExtent {
    pub ino: u32,
    pub page: PageNo,
    pub mapping: Option<MappedBlock>,
}

/// A page in a client's cache that is as on its disk.
#[derive(Drop)]
pub struct CleanPage {
    pub ino: u32,
    pub page: PageNo,
    pub bytes: PageBytes,
}

/// Why a write of a page is refused.
#[derive(Clone, Copy, Debug, PartialEq, Eq)]
pub enum WriteRefusal {
    /// 64 other pages are dirty.
    DirtyFull,
}

/// What a disk command does: it reads its page, or it writes this version of it.
#[derive(Clone, Copy, Debug, PartialEq, Eq)]
pub enum IoKind {
    Read,
    Write(u64),
}

/// A disk command that was not reported yet. `number` is the client's own number for it.
#[derive(Clone, Copy, Debug, PartialEq, Eq)]
pub struct PageCommand {
    pub number: u64,
    pub ino: u32,
    pub page: PageNo,
    pub kind: IoKind,
}

/// How a disk command ended.
#[derive(Clone, Copy, Debug, PartialEq, Eq)]
pub enum Ended {
    Unknown,
    /// A read is done.
    Filled,
    /// A write is done, and the page was not changed since.
    Hard,
    /// A write is done, and the page was changed since.
    Redirty,
    Failed,
}

/// A page that was dirty when a lease was lost and that no application was told about yet, and the
/// command that should have written it, or 0.
#[derive(Clone, Copy, Debug, PartialEq, Eq)]
pub struct LostPage {
    pub ino: u32,
    pub page: PageNo,
    pub command: u64,
}

/// A request that was sent and not answered yet, and when it was last sent.
#[derive(Drop)]
pub struct Request {
    pub number: u64,
    pub body: Body,
    pub sent: Stamp,
}

/// The stage of an operation that asks a server to cut a file or to change or find a name.
#[derive(Clone, Copy, Debug, PartialEq, Eq)]
pub enum Stage {
    Unsent,
    /// Its request is the outstanding one.
    Sent,
    /// Its request ended without a reply to it.
    Stuck,
}

/// A request of an application that was not answered yet.
#[derive(Drop)]
pub struct Operation {
    pub op: u32,
    pub ask: Ask,
    pub stage: Stage,
}

fn copy_block(block: &Option<(Tag, PageBytes)>) -> Result<Option<(Tag, PageBytes)>, AllocError>
    ensures { IfOk result (λ b. b ≡ block.now) }
{
    match block {
        None => Ok(None),
        Some((tag, bytes)) => Ok(Some((*tag, bytes.copy()?))),
    }
}

fn copy_result(
    ended: &Option<Option<(Tag, PageBytes)>>,
) -> Result<Option<Option<(Tag, PageBytes)>>, AllocError>
    ensures { IfOk result (λ r. r ≡ ended.now) }
{
    match ended {
        None => Ok(None),
        Some(block) => Ok(Some(copy_block(block)?)),
    }
}

impl ClientInput {
    /// Returns a copy of the input. A page is shared.
    pub fn copy(&self) -> Result<ClientInput, AllocError>
        ensures { IfOk result (λ i. i ≡ self.now) }
    {
        match self {
            ClientInput::Tick => Ok(ClientInput::Tick),
            ClientInput::App { op, ask } => Ok(ClientInput::App {
                op: *op,
                ask: ask.copy()?,
            }),
            ClientInput::Control(message) => Ok(ClientInput::Control(message.copy()?)),
            ClientInput::Done { command, result } => Ok(ClientInput::Done {
                command: *command,
                result: copy_result(result)?,
            }),
        }
    }
}

impl CleanPage {
    /// Returns a copy of the page. Its bytes are shared.
    pub fn copy(&self) -> Result<CleanPage, AllocError>
        ensures { IfOk result (λ c. c ≡ self.now) }
    {
        Ok(CleanPage {
            ino: self.ino,
            page: self.page,
            bytes: self.bytes.copy()?,
        })
    }
}

impl Request {
    /// Returns a copy of the request.
    pub fn copy(&self) -> Result<Request, AllocError>
        ensures { IfOk result (λ r. r ≡ self.now) }
    {
        Ok(Request {
            number: self.number,
            body: self.body.copy()?,
            sent: self.sent,
        })
    }
}

impl Operation {
    /// Returns a copy of the operation. A page is shared.
    pub fn copy(&self) -> Result<Operation, AllocError>
        ensures { IfOk result (λ o. o ≡ self.now) }
    {
        Ok(Operation {
            op: self.op,
            ask: self.ask.copy()?,
            stage: self.stage,
        })
    }
}
