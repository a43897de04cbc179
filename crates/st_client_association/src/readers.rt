// What an association says about itself between steps.
ghost use Rattle.std.specs.Prelude.{◌≡◌, ◌+◌, false, nat_le, not, is_some, Some};
ghost use Rattle.st_client_association.specs.Associations.{has_room_at, may_ask};
ghost use Rattle.st_client_association.specs.Activity.{is_awake, is_awake_by, may_send, takes_all};
ghost use Rattle.st_rules.specs.Client as client;
ghost use Rattle.st_rules.specs.ClientInvariants.{lasts_here};
ghost use Rattle.st_rules.specs.ClientLease as leases;
ghost use Rattle.st_rules.specs.ClientLocks as locks;
ghost use Rattle.st_rules.specs.ClientPages as pages;
ghost use Rattle.st_rules.specs.ClientPasses as passes;

use crate::association::Association;
use st_base::{Life, Stamp};
use st_client_session::Session;
use st_rules::Phase;

impl Association {
    /// The life at the server.
    pub fn life(&self) -> Life
        ensures { result ≡ self.now.here.life }
    {
        self.here.life
    }

    /// The moment from which the lease is over, if one is held.
    pub fn lease_end(&self) -> Option<Stamp>
        ensures { result ≡ leases.end_at self.now.config (client.lease_at (Some self.now.here)) }
    {
        match &self.here.session {
            Some(session) => Some(session.end()),
            None => None,
        }
    }

    /// The phase of the lease, if one is held.
    pub fn phase(&self, now: Stamp) -> Option<Phase>
        ensures { result ≡ leases.phase_at self.now.config (client.lease_at (Some self.now.here)) now }
    {
        match &self.here.session {
            Some(session) => Some(session.phase(now)),
            None => None,
        }
    }

    /// Whether a page is dirty.
    #[tactic(auto, using(crate::proofs::Emptiness::any_is))]
    pub fn has_dirty(&self) -> bool
        ensures { result ≡ client.is_any self.now.here.store.pages.dirty }
    {
        self.here.store.dirty_count() > 0
    }

    /// Whether a command of this number is outstanding.
    pub fn has_command(&self, number: u64) -> bool
        ensures { result ≡ is_some (pages.command_of self.now.here.store.commands number) }
    {
        self.here.store.command(number).is_some()
    }

    /// Whether a number is left for one more request.
    fn may_ask(&self) -> bool
        ensures { result ≡ may_ask self.now.here.session }
    {
        match &self.here.session {
            Some(session) => session.has_room(),
            None => true,
        }
    }

    /// Whether no counter is at its end.
    pub fn has_room(&self) -> bool
        ensures { result ≡ has_room_at self.now.here }
    {
        self.here.store.has_room() && self.here.life.0 < 4_611_686_018_427_387_904 && self.may_ask()
    }

    /// Whether the lease is over.
    pub fn is_over(&self, now: Stamp) -> bool
        ensures { result ≡ not (lasts_here self.now.config now self.now.here) }
    {
        match &self.here.session {
            Some(session) => session.is_over(now),
            None => false,
        }
    }

    /// Whether anything waits or is due at a session.
    fn is_session_awake(&self, session: &Session, now: Stamp, tick: bool) -> bool
        requires config { session.now.of.config ≡ self.now.config }
        ensures { result ≡ false → is_awake_by self.now.config now tick self.now.here.store (Some session.now.session) ≡ false }
    {
        has_demands(session) || self.has_dirty() || may_send(session, now, tick)
    }

    /// Whether anything waits or is due at the server, pending operations apart.
    pub fn is_awake(&self, now: Stamp, tick: bool) -> bool
        ensures { result ≡ false → is_awake self.now.config now tick self.now.here ≡ false }
    {
        match &self.here.session {
            Some(session) => self.is_session_awake(session, now, tick),
            None => false,
        }
    }

    /// Whether a greeting is due: none was sent yet, or on a tick the last one is old.
    fn is_greeting_due(&self, now: Stamp, tick: bool) -> bool
        ensures { result ≡ passes.is_greeting_due self.now.config now tick self.now.here.greeting }
    {
        match self.here.greeting {
            None => true,
            Some(at) => tick && has_passed(self.here.config.retry, at, now),
        }
    }

    /// Whether each pending operation of the server may do something there: with a session, or
    /// if a greeting is due.
    pub fn takes_all(&self, now: Stamp, tick: bool) -> bool
        ensures { result ≡ takes_all self.now.config now tick self.now.here }
    {
        self.here.session.is_some() || self.is_greeting_due(now, tick)
    }
}

/// Whether this time has passed since a moment.
fn has_passed(time: u64, since: Stamp, now: Stamp) -> bool
    ensures { result ≡ nat_le (since.0 + time) now.0 }
{
    since.0 <= now.0 && time <= now.0 - since.0
}

/// Whether the lease is in renewal, in quiesce or in flush.
fn is_renewing(phase: Phase) -> bool
    ensures { result ≡ leases.is_renewing phase }
{
    match phase {
        Phase::Renewal | Phase::Quiesce | Phase::Flush => true,
        Phase::Valid | Phase::Expired => false,
    }
}

/// Whether a release must be sent.
#[tactic(auto, using(crate::proofs::Emptiness::any_first))]
fn has_release(session: &Session) -> bool
    ensures { result ≡ client.is_any session.now.session.releases }
{
    session.first_release().is_some()
}

/// Whether there is a request to send.
fn may_send(session: &Session, now: Stamp, tick: bool) -> bool
    ensures { result ≡ may_send session.now.of.config now tick session.now.session }
{
    if session.has_asked() {
        tick
    } else {
        session.is_due() || has_release(session) || is_renewing(session.phase(now))
    }
}

/// Whether a file is demanded.
#[tactic(auto, using(crate::proofs::Emptiness::any_demanded))]
fn has_demands(session: &Session) -> bool
    ensures { result ≡ client.is_any (locks.demanded_files session.now.session.locks) }
{
    session.has_demands()
}
