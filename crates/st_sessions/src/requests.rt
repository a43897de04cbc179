// What becomes of a request.
ghost use Rattle.std.specs.Prelude.{◌≡◌};
ghost use Rattle.std.specs.Option.{option_copied};
ghost use Rattle.st_rules.specs.declared.sessions.SessionState.{SessionState};
ghost use Rattle.st_rules.specs.Sessions as sessions;
ghost use Rattle.st_rules.specs.Server.{serves_life};

use crate::greeting::is_live;
use st_base::Life;
use st_messages::Body;
use st_rules::{Session, SessionState, Taken};

/// A number against the last one that a living session served.
#[tactic(auto, unfolding(st_rules::specs::Sessions::take_state, st_rules::specs::Sessions::take_number, st_rules::specs::Sessions::take_from, st_rules::specs::Sessions::take_next, st_rules::specs::Sessions::again))]
fn take_state(state: &SessionState, number: u64) -> Taken<&Body>
    ensures { sessions.taken_copied result ≡ sessions.take_state state.now number }
{
    let SessionState::Live { last, reply } = state else {
        return Taken::Stale;
    };
    if number < *last {
        return Taken::Stale;
    }
    if number == *last {
        return match reply {
            None => Taken::Stale,
            Some(reply) => Taken::Again(reply),
        };
    }
    if number == *last + 1 {
        return Taken::Fresh;
    }
    Taken::OutOfOrder
}

/// A request of this life and number against the client's session.
#[tactic(auto, unfolding(st_rules::specs::Sessions::take_life, st_rules::specs::Sessions::take_past))]
pub fn take_life(session: &Session, life: Life, number: u64) -> Taken<&Body>
    ensures { sessions.taken_copied result ≡ sessions.take_life session.now life number }
{
    if session.life.0 < life.0 {
        return Taken::NoSession;
    }
    if life.0 < session.life.0 {
        return Taken::Stale;
    }
    take_state(&session.state, number)
}

/// Whether a session lives in this life.
pub fn serves_life(session: &Session, life: Life) -> bool
    ensures { result ≡ serves_life life session.now }
{
    is_live(session) && session.life.0 == life.0
}

/// Whether a session lives in this life, or is of a higher one.
pub fn knows_life(session: &Session, life: Life) -> bool
    ensures { result ≡ sessions.knows_life life session.now }
{
    life.0 < session.life.0 || serves_life(session, life)
}

/// The state of a session after this number was served with this reply. `live` tells whether it
/// served requests before.
pub fn kept_state(live: bool, number: u64, reply: Body) -> SessionState
    ensures { (s : SessionState) → sessions.is_live_state s ≡ live → result ≡ sessions.kept_state number reply s }
{
    if live {
        SessionState::Live {
            last: number,
            reply: Some(reply),
        }
    } else {
        SessionState::Ended
    }
}
