use st_base::{ClientId, GrantNo, Stamp};

/// A client that left a demand unanswered, or that greeted in a later life while it still had
/// locks. Its timer began at `start`; when the timer ends, its locks are stolen.
#[derive(Clone, Copy, Debug, PartialEq, Eq)]
pub struct Suspect {
    pub client: ClientId,
    pub start: Stamp,
}

/// Why a reassertion is refused.
#[derive(Clone, Copy, Debug, PartialEq, Eq)]
pub enum AcceptRefusal {
    /// When the grace began, or 0 if the epoch had none, and the current reading of the server's
    /// clock.
    GraceOver(Stamp, Stamp),
    /// The file, and the client whose lock on it conflicts.
    Conflict(u32, ClientId),
    /// The file, and a grant number that no earlier epoch gave.
    NotHolder(u32, GrantNo),
}
