//! Names in every run: to each change of the names of a server one ask, and no ask changes names
//! twice.
#![tactic(auto)]

ghost use Rattle.st_laws_leases.specs.Sides.Law.{InEveryRun};
ghost use Rattle.st_laws_names.specs.Changes.{AsksChangeOnce};
ghost use Rattle.st_laws_names.specs.Keys.{RepliesAreOfTheirEvents};
ghost use Rattle.st_laws_names.specs.OutstandingKeys.{KeysHaveOneOperation, OperationsAskOnce};
ghost use Rattle.st_promises.specs.Refusals.{RefusalsChangeNothing};
ghost use Rattle.st_promises.specs.NamesOnce.{NamesChangeOnce};

/// In every run operations ask once: if a client waits for the reply to the request of an
/// operation, that request never had another key, which is a server, a life, an epoch and a number.
pub fn operations_ask_once()
    ensures { InEveryRun OperationsAskOnce }
{}

/// In every run asks change names once: each event that changed the names of a server has an ask of
/// a client that did so, asked before and not settled, whose operation waited under the key of the
/// request by which they changed; and no ask did so at two events.
pub fn asks_change_once()
    ensures { InEveryRun AsksChangeOnce }
{}

/// In every run keys have one operation: operations of a client that waited for the replies to
/// requests of one key are the same.
pub fn keys_have_one_operation()
    ensures { InEveryRun KeysHaveOneOperation }
{}

/// In every run replies are of their events: a reply of a server that tells an operation its end
/// was made in the one event in which the request of its key was delivered and served, unless that
/// request is a reassertion.
pub fn replies_are_of_their_events()
    ensures { InEveryRun RepliesAreOfTheirEvents }
{}

/// In every run names change once: to each event that changed the names of a server one ask can be
/// given that did it, each ask to one event at most; and if this ask was answered, it was with what
/// names said then, or with `uncertain`. Each create, mkdir, remove or rename that was answered
/// with an inode is given its event.
pub fn names_change_once()
    ensures { InEveryRun NamesChangeOnce }
{}

/// In every run refusals change nothing: to each event that cut a file an ask can be given that
/// asked for it, each ask to one event at most, and no refusal answers it.
pub fn refusals_change_nothing()
    ensures { InEveryRun RefusalsChangeNothing }
{}
