ghost use Rattle.std.specs.Prelude.{◌≡◌, true, IfOk, OnOk, OnErr, length};
ghost use Rattle.st_rules.specs.Sessions as sessions;
ghost use Rattle.st_rules.specs.Server.{serves_at};
ghost use Rattle.st_rules.specs.ServerInvariants.{are_once, same_session};

use crate::greeting::{is_live, judge};
use crate::requests::{kept_state, knows_life, serves_life, take_life};
use crate::table::SessionTable;
use st_base::{ClientId, Epoch, Life};
use st_messages::Body;
use st_rules::{Hello, Session, SessionState, Taken};
use std::alloc::{AllocError, Global};
use std::marker::Model;

/// The sessions of one server in one epoch. Contracts see them as the epoch and the list of the
/// sessions, of which a client has at most one.
#[derive(Drop)]
pub struct Sessions {
    epoch: Epoch,
    rows: SessionTable,
}

impl Model for Sessions {
    ghost use Rattle.std.specs.Prelude.{◌≡◌, true};
    ghost use Rattle.st_rules.specs.Sessions as sessions;
    ghost use Rattle.st_rules.specs.ServerInvariants.{are_once, same_session};

    ghost Value = { sessions.Sessions };

    ghost view = { λ t. record { epoch = t.epoch; rows = t.rows } };

    ghost invariant = { λ t. are_once same_session t.rows ≡ true };
}

impl Sessions {
    /// The sessions of an epoch in which nobody greeted yet. It does not allocate.
    #[tactic(auto, unfolding(st_rules::specs::ServerInvariants::are_once))]
    pub fn new(alloc: Global, epoch: Epoch) -> Sessions
        ensures { result ≡ sessions.no_sessions epoch }
    {
        Sessions {
            epoch,
            rows: SessionTable::new(alloc),
        }
    }

    /// Puts a session in place of its client's, or last.
    fn put(&mut self, session: Session) -> Result<(), AllocError>
        ensures ok { OnOk result (self.new ≡ sessions.with_session session self.old) }
        ensures err { OnErr result (self.new ≡ self.old) }
    {
        self.rows.put(session)
    }

    /// A client greets in this life; `rows` tells whether it has locks. It is welcome in the life
    /// of its living session, and wherever a new session begins: without a session, or in a life
    /// above an ended one's. A life above a living session's waits if the client has locks, and
    /// otherwise replaces that session. Every other life is old. `Old` and `Wait` change nothing.
    /// If the call runs out of memory, nothing changes either.
    #[tactic(auto, unfolding(st_rules::specs::Sessions::hello, st_rules::specs::Sessions::begin_session))]
    pub fn hello(&mut self, client: ClientId, life: Life, rows: bool) -> Result<Hello, AllocError>
        ensures ok { IfOk result (λ h. sessions.greeted h self.new ≡ sessions.hello self.old client life rows) }
        ensures err { OnErr result (self.new ≡ self.old) }
    {
        let judgement = judge(self.rows.get(client), life, rows);
        if judgement.begins {
            self.put(Session {
                client,
                life,
                state: SessionState::Live {
                    last: 0,
                    reply: None,
                },
            })?;
            return Ok(judgement.hello);
        }
        Ok(judgement.hello)
    }

    /// What becomes of a request of this life, epoch and number. It is `Fresh` if it is the next
    /// one of the client's living session; `Again` lends the reply that was kept for the last one.
    /// It does not allocate.
    #[tactic(auto, unfolding(st_rules::specs::Sessions::take))]
    pub fn take(&self, client: ClientId, life: Life, epoch: Epoch, number: u64) -> Taken<&Body>
        ensures { sessions.taken_copied result ≡ sessions.take self.now client life epoch number }
    {
        if epoch.0 == self.epoch.0 {
            self.take_at(client, life, number)
        } else {
            Taken::OtherEpoch
        }
    }

    /// What becomes of a request of this epoch.
    #[tactic(auto, unfolding(st_rules::specs::Sessions::take_at))]
    fn take_at(&self, client: ClientId, life: Life, number: u64) -> Taken<&Body>
        ensures { sessions.taken_copied result ≡ sessions.take_at (sessions.session_of self.now client) life number }
    {
        match self.rows.get(client) {
            None => Taken::NoSession,
            Some(session) => take_life(session, life, number),
        }
    }

    /// Keeps a copy of the reply to this number, which is then the last one that the client's
    /// living session served. Without a living session nothing changes. If the call runs out of
    /// memory, nothing changes either.
    #[tactic(auto, unfolding(st_rules::specs::Sessions::store))]
    pub fn store(&mut self, client: ClientId, number: u64, reply: &Body) -> Result<(), AllocError>
        ensures ok { OnOk result (self.new ≡ sessions.store self.old client number reply.now) }
        ensures err { OnErr result (self.new ≡ self.old) }
    {
        let Some(place) = self.rows.place(client) else {
            return Ok(());
        };
        let live = is_live(self.rows.at(place));
        let reply = reply.copy()?;
        self.rows.set_state(place, kept_state(live, number, reply));
        Ok(())
    }

    /// Makes the client's session a living one of this life, whose last number is 1 with the kept
    /// reply `Reasserted`. If the call runs out of memory, nothing changes.
    #[tactic(auto, unfolding(st_rules::specs::Sessions::reasserted))]
    pub fn reasserted(&mut self, client: ClientId, life: Life) -> Result<(), AllocError>
        ensures ok { OnOk result (self.new ≡ sessions.reasserted self.old client life) }
        ensures err { OnErr result (self.new ≡ self.old) }
    {
        self.put(Session {
            client,
            life,
            state: SessionState::Live {
                last: 1,
                reply: Some(Body::Reasserted),
            },
        })
    }

    /// Ends the client's session, if it has one; its life stays known. It does not allocate.
    #[tactic(auto, unfolding(st_rules::specs::Sessions::end))]
    pub fn end(&mut self, client: ClientId)
        ensures { self.new ≡ sessions.end self.old client }
    {
        let Some(place) = self.rows.place(client) else {
            return;
        };
        self.rows.set_state(place, SessionState::Ended);
    }

    /// The life of the client's session, living or ended, or `None` if it had none in this epoch.
    /// It does not allocate.
    pub fn life(&self, client: ClientId) -> Option<Life>
        ensures life { result ≡ sessions.life_of self.now client }
        ensures once { are_once same_session self.now.rows ≡ true }
    {
        let session = self.rows.get(client)?;
        Some(session.life)
    }

    /// How many clients have a session, living or ended.
    pub fn len(&self) -> usize
        ensures { result ≡ length self.now.rows }
    {
        self.rows.len()
    }

    /// Whether the client has a living session of this life, or a session of a higher one. It does
    /// not allocate.
    pub fn knows(&self, client: ClientId, life: Life) -> bool
        ensures { result ≡ sessions.knows self.now client life }
    {
        match self.rows.get(client) {
            None => false,
            Some(session) => knows_life(session, life),
        }
    }

    /// Whether the client has a living session of this life. It does not allocate.
    pub fn serves(&self, client: ClientId, life: Life) -> bool
        ensures { result ≡ serves_at life (sessions.session_of self.now client) }
    {
        match self.rows.get(client) {
            None => false,
            Some(session) => serves_life(session, life),
        }
    }
}
