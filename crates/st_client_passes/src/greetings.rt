// Greeting a server with which there is no session.
ghost use Rattle.std.specs.Prelude.{◌≡◌, ◌+◌, nat_le, OnOk};
ghost use Rattle.st_rules.specs.ClientPasses as passes;

use st_base::Stamp;
use st_client_association::Turn;
use st_messages::Body;
use st_operations::OfServer;
use std::alloc::AllocError;

/// Whether this time has passed since a moment.
pub fn has_passed(time: u64, since: Stamp, now: Stamp) -> bool
    ensures { result ≡ nat_le (since.0 + time) now.0 }
{
    since.0 <= now.0 && time <= now.0 - since.0
}

/// Whether the client may greet: it did not yet, or on a tick its last greeting is old.
fn is_greeting_due(t: &Turn, now: Stamp, tick: bool) -> bool
    ensures { result ≡ passes.is_greeting_due t.now.config now tick t.now.here.greeting }
{
    match t.greeting() {
        None => true,
        Some(at) => tick && has_passed(t.retry(), at, now),
    }
}

/// Greeting, if an operation of this server is pending.
#[tactic(auto, unfolding(st_rules::specs::ClientPasses::greet, st_rules::specs::ClientPasses::hello))]
pub fn greet(t: &mut Turn, now: Stamp, tick: bool) -> Result<(), AllocError>
    ensures { OnOk result (t.new ≡ passes.greet t.old now tick) }
{
    let here = OfServer { server: t.server() };
    if t.operations().any(&here) && is_greeting_due(t, now, tick) {
        t.set_greeting(now);
        t.send(0, 0, now.0, Body::Hello)
    } else {
        Ok(())
    }
}
