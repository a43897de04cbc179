ghost use Rattle.std.specs.Prelude.{◌≡◌, IfOk};

use st_base::{ClientId, Life};
use st_messages::Body;
use std::alloc::AllocError;

/// The state of a session. While it is live, requests of its life are served: `last` is the
/// greatest number that was served, and `reply` the reply to it. A theft ends a session.
#[derive(Drop)]
pub enum SessionState {
    Live { last: u64, reply: Option<Body> },
    Ended,
}

/// A server's session with a client that greeted it, or that reasserted its locks, in this epoch.
#[derive(Drop)]
pub struct Session {
    pub client: ClientId,
    pub life: Life,
    pub state: SessionState,
}

/// The result of a greeting.
#[derive(Clone, Copy, Debug, PartialEq, Eq)]
pub enum Hello {
    /// The session has this life: it existed before or is new.
    Welcome,
    /// A new session replaced a live session of a lower life.
    Replaced,
    /// The greeting belongs to a life that has ended.
    Old,
    /// Locks of a lower life still exist, so the client must wait until they are stolen.
    Wait,
}

/// How a request is taken, by its life, epoch and number.
#[derive(Clone, Copy, Drop)]
pub enum Taken<R> {
    OtherEpoch,
    NoSession,
    Stale,
    /// The last request again, with the reply that was kept.
    Again(R),
    Fresh,
    OutOfOrder,
}

fn copy_reply(reply: &Option<Body>) -> Result<Option<Body>, AllocError>
    ensures { IfOk result (λ r. r ≡ reply.now) }
{
    match reply {
        None => Ok(None),
        Some(body) => Ok(Some(body.copy()?)),
    }
}

impl SessionState {
    /// Returns a copy of the state.
    pub fn copy(&self) -> Result<SessionState, AllocError>
        ensures { IfOk result (λ s. s ≡ self.now) }
    {
        match self {
            SessionState::Live { last, reply } => Ok(SessionState::Live {
                last: *last,
                reply: copy_reply(reply)?,
            }),
            SessionState::Ended => Ok(SessionState::Ended),
        }
    }
}

impl Session {
    /// Returns a copy of the session.
    pub fn copy(&self) -> Result<Session, AllocError>
        ensures { IfOk result (λ s. s ≡ self.now) }
    {
        Ok(Session {
            client: self.client,
            life: self.life,
            state: self.state.copy()?,
        })
    }
}
