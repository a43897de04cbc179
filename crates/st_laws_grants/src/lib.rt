//! Grant numbers in every run: each is given to one client, of one file.
#![tactic(auto)]

ghost use Rattle.st_laws_grants.specs.Examples.{WrongGrantsAreRefused};
ghost use Rattle.st_promises.specs.Grants.{GrantNumbersAreGivenOnce, GrantNumbersRise};
ghost use Rattle.st_laws_leases.specs.Sides.Law.{InEveryRun};

/// In every run grant numbers are given once: all grants that a server ever sent under one number
/// go to one client, for one file.
pub fn grant_numbers_are_given_once()
    ensures { InEveryRun GrantNumbersAreGivenOnce }
{}

/// Grants under one number to two clients, or of two files, are refused, and so is a new grant
/// under a lower number; a grant that is sent again isn't, nor one under a greater number.
pub fn wrong_grants_are_refused()
    ensures { WrongGrantsAreRefused }
{}

/// In every run grant numbers rise: a grant that is there after an event is under a number that its
/// server had sent before the event, or under one above all that it had sent.
pub fn grant_numbers_rise()
    ensures { InEveryRun GrantNumbersRise }
{}
