use st_base::{ClientId, Life, ServerId};
use st_rules::Observation;

/// An observation of a world of the third form: one variant for each kind of line in a report.
#[derive(Drop)]
pub enum ThirdObservation {
    /// An observation that the other forms have too.
    Plain(Observation),
    /// The leave of this number is answered *left*.
    Left(ClientId, u32),
    /// The leave of this number is answered *unsynced*, with this inode.
    Unsynced(ClientId, u32, u32),
    /// The client's life at the server ended, because the client leaves.
    Ended(ClientId, ServerId, Life),
}
