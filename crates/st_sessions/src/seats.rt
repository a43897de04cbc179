// The places of sessions, by the numbers of their clients.
ghost use Rattle.std.specs.Prelude.{◌≡◌, ◌<◌, ◌++◌, ◌∷◌, [], Some, None, OnOk, OnErr, length, set, slice_get};
ghost use Rattle.std.specs.List.{position};
ghost use Rattle.st_rules.specs.declared.sessions.Session.{Session};
ghost use Rattle.st_rules.specs.Keys as keys;
ghost use Rattle.st_rules.specs.Sessions as sessions;
ghost use Rattle.st_sessions.specs.Seats.{AreSeated, SameSeats, seat_of};

use st_base::ClientId;
use st_rules::{Session, SessionState};
use std::alloc::AllocError;

/// The entry at the client's number, or `None` past the end.
pub fn seat_of(seats: &[Option<usize>], client: ClientId) -> Option<usize>
    ensures { result ≡ seat_of seats.now client }
{
    match seats.get(client.0 as usize) {
        Some(seat) => *seat,
        None => None,
    }
}

/// There is an entry at the client's number, and each entry stays as it was. If the call runs out
/// of memory, nothing changes.
fn reach(seats: &mut Vec<Option<usize>>, client: ClientId) -> Result<(), AllocError>
    ensures ok { OnOk result (client.0 < length seats.new.items) }
    ensures same { SameSeats seats.old.items seats.new.items }
{
    let room = client.0 as usize + 1;
    if seats.len() < room {
        seats.resize(room, None)?;
    }
    Ok(())
}

/// Puts the session of a client that has none last, and its place into the entry at the client's
/// number. If the call runs out of memory, no session changes.
fn seat_last(
    rows: &mut Vec<Session>,
    seats: &mut Vec<Option<usize>>,
    session: Session,
) -> Result<(), AllocError>
    requires seated { AreSeated rows.old.items seats.old.items }
    requires absent { position (sessions.is_session_of session.client) rows.old.items ≡ None }
    ensures ok { OnOk result (rows.new.items ≡ rows.old.items ++ session ∷ []) }
    ensures err { OnErr result (rows.new.items ≡ rows.old.items) }
    ensures seated { AreSeated rows.new.items seats.new.items }
{
    let client = session.client;
    let place = rows.len();
    reach(seats, client)?;
    rows.push(session)?;
    seats[client.0 as usize] = Some(place);
    Ok(())
}

/// Puts a session in place of the one that is there.
fn replace(rows: &mut Vec<Session>, place: usize, session: Session)
    requires { place < length rows.old.items }
    ensures { rows.new.items ≡ set rows.old.items place session }
{
    rows[place] = session;
}

/// Puts a session in place of its client's, or last. If the call runs out of memory, no session
/// changes.
pub fn put_session(
    rows: &mut Vec<Session>,
    seats: &mut Vec<Option<usize>>,
    session: Session,
) -> Result<(), AllocError>
    requires { AreSeated rows.old.items seats.old.items }
    ensures ok { OnOk result (rows.new.items ≡ keys.put (sessions.is_session_of session.client) session rows.old.items) }
    ensures err { OnErr result (rows.new.items ≡ rows.old.items) }
    ensures seated { AreSeated rows.new.items seats.new.items }
{
    match seat_of(seats, session.client) {
        None => seat_last(rows, seats, session),
        Some(place) => {
            replace(rows, place, session);
            Ok(())
        }
    }
}

/// Gives the session at a place another state.
pub fn set_state(rows: &mut Vec<Session>, place: usize, state: SessionState)
    requires { place < length rows.old.items }
    ensures { (s : Session) → slice_get rows.old.items place ≡ Some s → rows.new.items ≡ set rows.old.items place (record s { state = state }) }
{
    let session = &mut rows[place];
    session.state = state;
}
