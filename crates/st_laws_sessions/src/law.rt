ghost use Rattle.st_laws_sessions.specs.TakenOnce.{EachNumberIsTakenOnce};

/// Each request number of a life is taken once. If `take` tells that a number is fresh and
/// `store` keeps its reply, that number is never fresh again, whatever is called after that. While
/// it is the latest, it gets the reply that was kept.
///
/// It holds of calls as a server makes them: a reply is kept only to a fresh number, and a
/// reassertion is accepted of a life above that of the client's session, if it has one.
pub fn each_number_is_taken_once()
    ensures { EachNumberIsTakenOnce }
{}
