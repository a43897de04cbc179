//! Laws of clients of the third form that leave: what a server has of them, and what it may still
//! hear of them.
#![tactic(auto)]

ghost use Rattle.st_laws_leaving.specs.Going.{ClientsAreCalmUntilTheyAsk};
ghost use Rattle.st_laws_leaving.specs.Leavers.{EveryLeaverHasNothing, EveryoneWhoLeftHasNothing};
ghost use Rattle.st_laws_leaving.specs.Quiet.{WhoAskedNothingHasNothing};
ghost use Rattle.st_laws_leaving.specs.Serving.{ServersServeOn, ServersStayQuiet, SessionsBeginWithNothing};

/// In a step of a server whoever has a row or a wait has a session that lives. A session has its
/// client's life from before or that of the message that comes. What the server says is of its
/// epoch, and it welcomes only who greets.
pub fn servers_serve_on()
    ensures { ServersServeOn }
{}

/// In a step of a server, a client of which the server has neither a row nor a wait nor a timer
/// stays one, and its session lives on; unless the client asks for something, in this epoch and in
/// no earlier life than that of its session.
pub fn servers_stay_quiet()
    ensures { ServersStayQuiet }
{}

/// A session that begins in a step of a server begins with nothing: the server has neither a row
/// nor a wait nor a timer of the client then, unless the client reasserts locks.
pub fn sessions_begin_with_nothing()
    ensures { SessionsBeginWithNothing }
{}

/// In a step of a client, the life of a message to a server lies between the client's lives there
/// before and after the step, and its epoch is the session's or one that was heard. As long as
/// nothing was asked in a session, the client only greets, or says that it saw a demand. A session
/// begins by a welcome. When a leave is answered `left`, nothing was asked in the session yet.
pub fn clients_are_calm_until_they_ask()
    ensures { ClientsAreCalmUntilTheyAsk }
{}

/// In every run of the third form, after each event: if nothing was asked in the session of a
/// client that runs, its server has neither a row nor a wait of it, and no timer runs for it.
pub fn who_asked_nothing_has_nothing()
    ensures { WhoAskedNothingHasNothing }
{}

/// In every run of the third form, after each event: a client whose leave was answered `left`, and
/// that has sent its server nothing but greetings since, has neither a row nor a wait there.
pub fn every_leaver_has_nothing()
    ensures { EveryLeaverHasNothing }
{}

/// The same, and whoever left so is welcomed at once: a greeting of its present life that is
/// delivered to the server outside grace is answered by a welcome in the same step.
pub fn everyone_who_left_has_nothing()
    ensures { EveryoneWhoLeftHasNothing }
{}
