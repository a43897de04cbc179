ghost use Rattle.std.specs.Prelude.{◌≡◌, IfOk};

use crate::record::MoveMessage;
use crate::refusal::MoveRefusal;
use crate::update::Update;
use crate::updates::Updates;
use st_base::ServerId;
use std::alloc::AllocError;

/// A message that was sent from one server to another. A lost message is never delivered again.
#[derive(Drop)]
pub struct SentMove {
    pub from: ServerId,
    pub to: ServerId,
    pub message: MoveMessage,
    pub lost: bool,
}

impl SentMove {
    /// Returns a copy of the message.
    pub(crate) fn copy(&self) -> Result<SentMove, AllocError>
        ensures { IfOk result (λ m. m ≡ self.now) }
    {
        Ok(SentMove {
            from: self.from,
            to: self.to,
            message: self.message.copy()?,
            lost: self.lost,
        })
    }
}

/// What may happen to servers with containers. A server comes first, then a container.
#[derive(Drop)]
pub enum MoveEvent {
    /// An update is put.
    Put(ServerId, u32, Update),
    /// The updates are listed.
    List(ServerId, u32),
    /// Client 1 asks for an exclusive lock of the container.
    Lock(ServerId, u32),
    /// Client 1 releases its lock of the container.
    Unlock(ServerId, u32),
    /// The container must move to another server, which comes last.
    Order(ServerId, u32, ServerId),
    /// The server's tick.
    Tick(ServerId),
    /// The message of this number is delivered, for the first time or once more.
    Deliver(u32),
    /// The message of this number is lost.
    Lose(u32),
}

/// What is answered to an event.
#[derive(Drop)]
pub enum MoveAnswer {
    /// It was done.
    Done,
    /// The number of updates after a put.
    Counted(u32),
    /// The updates of a list.
    Listed(Updates),
    /// The server refused it.
    Refused(MoveRefusal),
    /// There is no server of this number.
    NoServer(ServerId),
    /// Client 1 has no lock to release.
    NoLock,
    /// No message of this number was sent.
    NoMessage(u32),
    /// The message of this number was lost.
    LostMessage(u32),
    /// A message was sent, under this number from 1.
    Sends(u64, SentMove),
}
