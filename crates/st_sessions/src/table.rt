// The sessions in the order in which their clients greeted first.
ghost use Rattle.std.specs.Prelude.{◌≡◌, ◌<◌, Some, [], OnOk, OnErr, find, length, set, slice_get};
ghost use Rattle.std.specs.List.{position};
ghost use Rattle.std.specs.Option.{option_copied};
ghost use Rattle.st_rules.specs.declared.sessions.Session.{Session};
ghost use Rattle.st_rules.specs.Keys as keys;
ghost use Rattle.st_rules.specs.Sessions as sessions;

use crate::seats::{put_session, seat_of, set_state};
use st_base::ClientId;
use st_rules::{Session, SessionState};
use std::alloc::{AllocError, Global};
use std::marker::Model;

/// Sessions in the order in which their clients greeted first, and a vector that has at each
/// client's number where its session is, if it has one. So a session is found without a search.
/// Contracts see the list of the sessions.
#[derive(Drop)]
pub struct SessionTable {
    rows: Vec<Session>,
    seats: Vec<Option<usize>>,
}

impl Model for SessionTable {
    ghost use Rattle.std.specs.Prelude.{List};
    ghost use Rattle.st_rules.specs.declared.sessions.Session.{Session};
    ghost use Rattle.st_sessions.specs.Seats.{AreSeated};

    ghost Value = { List Session };

    ghost view = { λ t. t.rows.items };

    ghost invariant = { λ t. AreSeated t.rows.items t.seats.items };
}

impl SessionTable {
    /// No sessions. It does not allocate.
    pub fn new(alloc: Global) -> SessionTable
        ensures { result ≡ [] }
    {
        SessionTable {
            rows: Vec::new(alloc),
            seats: Vec::new(alloc),
        }
    }

    /// How many sessions there are.
    pub fn len(&self) -> usize
        ensures { result ≡ length self.now }
    {
        self.rows.len()
    }

    /// Where the client's session is, if it has one.
    pub fn place(&self, client: ClientId) -> Option<usize>
        ensures { result ≡ position (sessions.is_session_of client) self.now }
    {
        seat_of(&self.seats, client)
    }

    /// The session at a place.
    pub fn at(&self, place: usize) -> &Session
        requires { place < length self.now }
        ensures { slice_get self.now place ≡ Some result.now }
    {
        &self.rows[place]
    }

    /// The client's session, if it has one.
    pub fn get(&self, client: ClientId) -> Option<&Session>
        ensures { option_copied result ≡ find (λ s. sessions.is_session_of client s) self.now }
    {
        match self.place(client) {
            None => None,
            Some(place) => Some(self.at(place)),
        }
    }

    /// Puts a session in place of its client's, or last. If the call runs out of memory, nothing
    /// changes.
    pub fn put(&mut self, session: Session) -> Result<(), AllocError>
        ensures ok { OnOk result (self.new ≡ keys.put (sessions.is_session_of session.client) session self.old) }
        ensures err { OnErr result (self.new ≡ self.old) }
    {
        put_session(&mut self.rows, &mut self.seats, session)
    }

    /// Gives the session at a place another state.
    pub fn set_state(&mut self, place: usize, state: SessionState)
        requires { place < length self.old }
        ensures { (s : Session) → slice_get self.old place ≡ Some s → self.new ≡ set self.old place (record s { state = state }) }
    {
        set_state(&mut self.rows, place, state);
    }
}
