//! Laws of the lines of a report, over only the definitions: what they count, what is on the
//! disks, and why a fault is answered.
#![tactic(auto)]

ghost use Rattle.std.specs.Prelude.{List};
ghost use Rattle.st_laws_pages.specs.Asks.Law.{InEveryRun};
ghost use Rattle.st_laws_pages.specs.Disks.Runs.{PagesAfter};
ghost use Rattle.st_rules.specs.Safety.{Step, Throughout};
ghost use Rattle.st_promises.specs.Counts.{TheCountsAreTrue};
ghost use Rattle.st_promises.specs.Held.{DisksHoldWhatIsHard};
ghost use Rattle.st_promises.specs.Faults.{FaultsHaveACause};

/// In every run the counts are true: each message and each command has its line, and the last line
/// counts what the lines before it have.
pub fn counts_are_true()
    ensures { InEveryRun TheCountsAreTrue }
{}

/// In every run a fault has its cause: `diskfault` is answered when the command that it names is
/// reported failed, and at no other time; and `opsfull` only to a client of which 16 operations are
/// pending. What a server refused is answered only when its refusal is delivered.
pub fn faults_have_a_cause()
    ensures { InEveryRun FaultsHaveACause }
{}

/// If the pages hold after every step, the disks hold what is hard.
pub fn disks_hold_what_is_hard()
    ensures { (past xs : List Step) → Throughout PagesAfter past xs → Throughout DisksHoldWhatIsHard past xs }
{}
