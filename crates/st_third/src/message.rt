use st_base::ServerId;
use st_messages::{Header, Message};

/// A message of version 3.
#[derive(Drop)]
pub enum ThirdMessage {
    /// A message that the other versions have too.
    Plain(Message),
    /// The ask with this number: leave this server.
    Leave(Header, u32, ServerId),
    /// The ask with this number is answered *left*.
    Left(Header, u32),
    /// The ask with this number is answered *unsynced*, with this inode.
    Unsynced(Header, u32, u32),
}
