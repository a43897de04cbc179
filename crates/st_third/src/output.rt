use st_base::{Life, ServerId, Stamp};
use st_messages::Output;

/// What a client of the third form says.
#[derive(Drop)]
pub enum ThirdOutput {
    /// What a client of the other forms says too.
    Plain(Output),
    /// The leave with this number is answered *left*.
    Left(u32),
    /// The leave with this number is answered *unsynced*: the inode has lost rows that haven't been
    /// reported.
    Unsynced(u32, u32),
    /// The life at the server ends, because the client leaves; and when its lease would have ended.
    Ended(ServerId, Life, Stamp),
}
