//! Requests in every run: which of them a server served, which replies say so, why `cut` is
//! answered, and what names answer.
#![tactic(auto)]

ghost use Rattle.st_promises.specs.NameAnswers.{NamesAnswerTruly};
ghost use Rattle.st_laws_leases.specs.Sides.Law.{InEveryRun};
ghost use Rattle.st_laws_requests.specs.Cuts.Law.{RunsLogAnswers};
ghost use Rattle.st_laws_requests.specs.Replies.LastRequests.{RequestsAreLast};

/// In every run, the outstanding request of each session of each client is the one with the last
/// number that the session gave.
pub fn requests_are_last()
    ensures { RequestsAreLast }
{}

/// In every run answers are logged: `written` follows directly the line of the change that was
/// asked, and `cut` comes only after a cut of the file from the page that was asked, since then.
pub fn answers_are_logged()
    ensures { RunsLogAnswers }
{}

/// In every run names answer truly: an inode, entries or a refusal of names is only answered to an
/// ask for a name; and it is what the names of the asked server said at one event between the ask
/// and the answer, at which they also became what the ask makes of them.
pub fn names_answer_truly()
    ensures { InEveryRun NamesAnswerTruly }
{}
