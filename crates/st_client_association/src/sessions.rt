// The session of a step that has one: what its rules change.
ghost use Rattle.std.specs.Prelude.{◌≡◌, ◌≤◌, ◌^◌, true, false, IfOk, OnOk, option_map};
ghost use Rattle.st_client_association.specs.Turns.{has_session, session_of};
ghost use Rattle.st_requests.specs.ServerRequests.{body_of};
ghost use Rattle.st_rules.specs.ClientInvariants.{lasts_here};
ghost use Rattle.st_rules.specs.ClientLease as leases;
ghost use Rattle.st_rules.specs.ClientLocks as locks;
ghost use Rattle.st_rules.specs.ClientReplies as replies;
ghost use Rattle.st_rules.specs.ClientState as client;

use crate::session_turn::SessionTurn;
use st_base::{Epoch, GrantNo, Mode, Stamp};
use st_messages::Body;
use st_rules::Asked;
use std::alloc::AllocError;

impl SessionTurn {
    /// The wait for the file is forgotten. It does not allocate.
    pub fn forget_wait(&mut self, ino: u32)
        ensures { self.new ≡ client.with_session (client.forget_wait ino (session_of self.old)) self.old }
    {
        let turn = &mut self.turn;
        match &mut turn.here.session {
            Some(session) => session.forget_wait(ino),
            None => unreachable!(),
        }
    }

    /// A release goes last.
    pub fn queue_release(&mut self, ino: u32, g: GrantNo, to: Mode) -> Result<(), AllocError>
        ensures { OnOk result (self.new ≡ client.with_session (client.with_release ino g to (session_of self.old)) self.old) }
    {
        let turn = &mut self.turn;
        match &mut turn.here.session {
            Some(session) => session.queue_release(ino, g, to),
            None => unreachable!(),
        }
    }

    /// A grant: above the greatest seen it is installed if there is a place for it, and
    /// otherwise declined.
    pub fn grant(&mut self, ino: u32, g: GrantNo, mode: Mode) -> Result<(), AllocError>
        ensures { OnOk result (self.new ≡ client.with_session (replies.grant (session_of self.old) ino g mode) self.old) }
    {
        let turn = &mut self.turn;
        match &mut turn.here.session {
            Some(session) => session.grant(ino, g, mode),
            None => unreachable!(),
        }
    }

    /// A wait was reported now, if the held mode is lower.
    pub fn queued(&mut self, ino: u32, mode: Mode, now: Stamp) -> Result<(), AllocError>
        ensures { OnOk result (self.new ≡ client.with_session (replies.wait_unless_held (session_of self.old) ino mode now) self.old) }
    {
        let turn = &mut self.turn;
        match &mut turn.here.session {
            Some(session) => session.queued(ino, mode, now),
            None => unreachable!(),
        }
    }

    /// A demand on the file's lock.
    pub fn demand(&mut self, ino: u32, g: GrantNo, to: Mode) -> Result<Asked, AllocError>
        ensures held { has_session self.old ≡ true }
        ensures asked { IfOk result (λ asked. asked ≡ (locks.demand (session_of self.old).locks ino g to).asked) }
        ensures ok { OnOk result (self.new ≡ client.with_session (client.with_cache (locks.demand (session_of self.old).locks ino g to).locks (session_of self.old)) self.old) }
    {
        let turn = &mut self.turn;
        match &mut turn.here.session {
            Some(session) => session.demand(ino, g, to),
            None => unreachable!(),
        }
    }

    /// The release of a file without a lock goes last, unless it is there or outstanding.
    pub fn release_unheld(&mut self, ino: u32, g: GrantNo) -> Result<(), AllocError>
        ensures { OnOk result (self.new ≡ client.with_session (replies.release_unheld (session_of self.old) ino g) self.old) }
    {
        let turn = &mut self.turn;
        match &mut turn.here.session {
            Some(session) => session.release_unheld(ino, g),
            None => unreachable!(),
        }
    }

    /// The file's lock goes, and its demand with it. It does not allocate.
    pub fn drop_lock(&mut self, ino: u32)
        ensures { self.new ≡ client.with_session (client.with_cache (locks.drop_lock (session_of self.old).locks ino) (session_of self.old)) self.old }
    {
        let turn = &mut self.turn;
        match &mut turn.here.session {
            Some(session) => session.drop_lock(ino),
            None => unreachable!(),
        }
    }

    /// The locks need no longer be reasserted.
    pub fn reasserted(&mut self)
        ensures { self.new ≡ client.with_session (record (session_of self.old) { due = false }) self.old }
    {
        let turn = &mut self.turn;
        match &mut turn.here.session {
            Some(session) => session.reasserted(),
            None => unreachable!(),
        }
    }

    /// A newer epoch begins. It does not allocate.
    pub fn begin_epoch(&mut self, epoch: Epoch)
        ensures { self.new ≡ client.with_session (replies.in_epoch epoch (session_of self.old)) self.old }
    {
        let turn = &mut self.turn;
        match &mut turn.here.session {
            Some(session) => session.begin_epoch(epoch),
            None => unreachable!(),
        }
    }

    /// Ends the outstanding request, and returns its body. It does not allocate.
    pub fn end_request(&mut self) -> Option<Body>
        ensures body { result ≡ option_map body_of (session_of self.old).requests.asked }
        ensures left { self.new ≡ client.with_session (client.without_request (session_of self.old)) self.old }
    {
        let turn = &mut self.turn;
        match &mut turn.here.session {
            Some(session) => session.end_request(),
            None => unreachable!(),
        }
    }

    /// The lease is renewed, if it is not condemned and the stamp is later than its date.
    pub fn renew(&mut self, stamp: Stamp, now: Stamp)
        requires lasting { lasts_here self.old.config now self.old.here ≡ true }
        requires past { stamp.0 ≤ now.0 }
        requires reading { now.0 ≤ 2 ^ 62 }
        ensures { self.new ≡ client.with_session (replies.with_renewed stamp (session_of self.old)) self.old }
    {
        let turn = &mut self.turn;
        match &mut turn.here.session {
            Some(session) => session.renew(stamp, now),
            None => unreachable!(),
        }
    }

    /// The lease is no longer renewed.
    pub fn condemn(&mut self, now: Stamp)
        requires { lasts_here self.old.config now self.old.here ≡ true }
        ensures { self.new ≡ client.with_session (client.with_lease (leases.condemned (session_of self.old).lease) (session_of self.old)) self.old }
    {
        let turn = &mut self.turn;
        match &mut turn.here.session {
            Some(session) => session.condemn(now),
            None => unreachable!(),
        }
    }
}
