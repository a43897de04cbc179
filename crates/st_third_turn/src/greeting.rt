// Greeting a server with which there is no session: a pending leave greets as operations do.
ghost use Rattle.std.specs.Prelude.{◌≡◌, ◌+◌, nat_le, false, OnOk};
ghost use Rattle.std.specs.List.{list_any};
ghost use Rattle.st_client_association.specs.Turns.{has_session};
ghost use Rattle.st_rules.specs.ClientPasses as passes;
ghost use Rattle.st_third.specs.Leave as leaving;
ghost use Rattle.st_third.specs.State as third;

use crate::step::Step;
use st_base::{ServerId, Stamp};
use st_client_association::Turn;
use st_messages::Body;
use st_operations::OfServer;
use st_third::Leave;
use std::alloc::AllocError;

/// Whether this time has passed since a moment.
fn has_passed(time: u64, since: Stamp, now: Stamp) -> bool
    ensures { result ≡ nat_le (since.0 + time) now.0 }
{
    since.0 <= now.0 && time <= now.0 - since.0
}

/// Whether the client may greet: it did not yet, or on a tick its last greeting is old.
fn is_greeting_due(turn: &Turn, now: Stamp, tick: bool) -> bool
    ensures { result ≡ passes.is_greeting_due turn.now.config now tick turn.now.here.greeting }
{
    match turn.greeting() {
        None => true,
        Some(at) => tick && has_passed(turn.retry(), at, now),
    }
}

/// Whether a leave of this server is pending.
fn any_leave_of(leaves: &[Leave], server: ServerId) -> bool
    ensures { result ≡ list_any (third.is_leave_of server) leaves.now }
{
    leaves.iter().any(|leave| leave.server.0 == server.0)
}

impl Step {
    /// Whether an operation or a leave waits for the server, and a greeting is due.
    fn must_greet(&self, now: Stamp, tick: bool) -> bool
        ensures { result ≡ leaving.must_greet self.now now tick }
    {
        let server = self.turn.server();
        (self.turn.operations().any(&OfServer { server })
            || any_leave_of(self.aside.leaves.as_slice(), server))
            && is_greeting_due(&self.turn, now, tick)
    }

    /// A greeting is sent.
    fn hello(&mut self, now: Stamp) -> Result<(), AllocError>
        ensures { OnOk result (self.new ≡ third.plainly (leaving.hello now) self.old) }
    {
        let turn = &mut self.turn;
        turn.set_greeting(now);
        match turn.send(0, 0, now.0, Body::Hello) {
            Ok(()) => Ok(()),
            Err(error) => {
                self.aside.give_up();
                Err(error)
            }
        }
    }

    /// Greeting, without a session.
    #[tactic(auto, unfolding(st_third::specs::Leave::greet))]
    pub(crate) fn greet(&mut self, now: Stamp, tick: bool) -> Result<(), AllocError>
        ensures { OnOk result (self.new ≡ leaving.greet self.old now tick) }
    {
        if self.must_greet(now, tick) {
            self.hello(now)
        } else {
            Ok(())
        }
    }
}
