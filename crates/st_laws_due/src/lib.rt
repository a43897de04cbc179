//! Laws of ticks: from which moment on a tick does something.
#![tactic(auto)]

ghost use Rattle.st_client_due.specs.ClientDue.{ClientTicksAreDue};
ghost use Rattle.st_due.specs.ServerDue.{TicksAreDue};
ghost use Rattle.st_laws_due.specs.DueServers.{DueServersKeepTime};
ghost use Rattle.st_laws_due.specs.IdleTicks.{IdleTicksAreQuiet};

/// At every state of a server and every moment: a tick before the moment that `server_due` tells
/// leaves the state as it is and has no outputs, and a tick at that moment or later does not.
pub fn ticks_are_due()
    ensures { TicksAreDue }
{}

/// At every state of a client and every moment: from then on, a tick before the moment that
/// `client_due` tells leaves the state as it is and has no outputs, and a tick at that moment does
/// not. If it tells none, no later tick does anything.
pub fn client_ticks_are_due()
    ensures { ClientTicksAreDue }
{}

/// In every world, an idle tick of a node, at whose clock nothing is due, changes nothing but the
/// number of events and the client's flush steps, and nothing is observed.
pub fn idle_ticks_are_quiet()
    ensures { IdleTicksAreQuiet }
{}

/// If the clock of a server is at most a gap past the moment that `server_due` tells, none of its
/// times is over for longer than this gap: those of suspects, of demands and of first waits.
pub fn due_servers_keep_time()
    ensures { DueServersKeepTime }
{}
