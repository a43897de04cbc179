//! What the lines of a report tell in every run: losses, and the numbers of messages and commands.
#![tactic(auto)]

ghost use Rattle.st_laws_pages.specs.Asks.Law.{InEveryRun};
ghost use Rattle.st_promises.specs.Numbers.{LinesGiveTheNextNumbers};
ghost use Rattle.st_promises.specs.Losses.{LossesAreTold};

/// In every run losses are reported: while pages of a file that were dirty at a lease's end are
/// owed, a sync of the file is answered `lost` with exactly these, or that 16 operations are
/// pending; and no other answer reports lost pages. An application whose sync was answered so
/// knows which pages are not on the disks, so that it can write them again.
pub fn losses_are_told()
    ensures { InEveryRun LossesAreTold }
{}

/// In every run lines give the next numbers: messages and commands have one line each under the
/// next number, each line describes what has its number, and the last line counts what
/// the lines before it have. So a reader can find each message and each command of a run in its
/// report by its number, and sees from the counts that no line is missing.
pub fn lines_give_the_next_numbers()
    ensures { InEveryRun LinesGiveTheNextNumbers }
{}
