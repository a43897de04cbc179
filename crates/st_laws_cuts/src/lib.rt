//! Cuts and names in every run: each line of a cut, and each change of the names of a server, comes
//! from an application's ask.
#![tactic(auto)]

ghost use Rattle.st_laws_cuts.specs.Acknowledgements.{WrongCutsAreRefused};
ghost use Rattle.st_promises.specs.Acknowledgements.{CutsAreAcknowledged};
ghost use Rattle.st_promises.specs.CutAsks.{CutsAreAsked};
ghost use Rattle.st_promises.specs.NameChanges.{NamesChangeAsAsked};
ghost use Rattle.st_laws_leases.specs.Sides.Law.{InEveryRun};

/// In every run cuts are asked: the line of a cut of a file from a page on has an ask before it, of
/// a client that has an exclusive row on the file. It asks to cut this file from this page on, or
/// to remove it, and was not answered before, or with `uncertain`.
pub fn cuts_are_asked()
    ensures { InEveryRun CutsAreAsked }
{}

/// In every run cuts are acknowledged: in the event that cuts a file an acknowledgement is sent, or
/// the inode of a file that was removed, and no refusal.
pub fn cuts_are_acknowledged()
    ensures { InEveryRun CutsAreAcknowledged }
{}

/// This promise refuses a cut that is done and refused, and one without an answer; a cut that is
/// acknowledged is not, nor a refusal without a cut.
pub fn wrong_cuts_are_refused()
    ensures { WrongCutsAreRefused }
{}

/// In every run names change as asked: if an event changed the names of a server, an ask of a
/// client was made before it, and was not answered before, or with `uncertain`, and the names
/// became what this ask makes of them.
pub fn names_change_as_asked()
    ensures { InEveryRun NamesChangeAsAsked }
{}
