//! Laws of suspicions in the third form: for which reasons a server that never stopped suspects a
//! client.
#![tactic(auto)]

ghost use Rattle.st_laws_suspicions.specs.Open.{OpenClientsAreHeard};
ghost use Rattle.st_laws_suspicions.specs.Prompt.{PromptClientsAreHeard};
ghost use Rattle.st_laws_suspicions.specs.Staying.{StayingClientsAreNotSuspected};
ghost use Rattle.st_laws_suspicions.specs.Suspicions.{ThirdSuspicionsHaveACause};

/// In every run of the third form in which a server never stops, it suspects one of its up to 64
/// clients only for one of two reasons: the client greeted in a later life while it had rows; or,
/// at a tick, a demand on one of its rows was sent the demand time ago and the server has heeded no
/// answer since.
pub fn third_suspicions_have_a_cause()
    ensures { ThirdSuspicionsHaveACause }
{}

/// Takes the runs of the third form in which, after every event, a server runs, and messages
/// between it and a client came in time. A demand that the client gets while the server waits for
/// the answer must be answered in the same step. If two trips take less than the demand time, the
/// server suspects the client only for a greeting in a later life while it has rows. It doesn't
/// matter how many locks are demanded at once, nor how many releases wait.
pub fn prompt_clients_are_heard()
    ensures { PromptClientsAreHeard }
{}

/// The same, in place of the answers, if each demand that comes to the client while the server
/// waits for the answer finds it open: it reaches a session of its epoch, whose lease isn't over,
/// and no lock of the file has a later grant. Then the client answers it at once.
pub fn open_clients_are_heard()
    ensures { OpenClientsAreHeard }
{}

/// In every run of the third form, a client that stays isn't suspected. After every event it and
/// the server run, and messages between them came in time; its lease wasn't lost in the event, and
/// its life at the server didn't end because it left. If two trips take less than the demand time,
/// the server never suspects it, however many of its locks are demanded at once.
pub fn staying_clients_are_not_suspected()
    ensures { StayingClientsAreNotSuspected }
{}
