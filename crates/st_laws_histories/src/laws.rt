// Laws over all histories.
ghost use Rattle.st_laws_histories.specs.ImageHistories.{EveryImageIsOneMoment};
ghost use Rattle.st_laws_histories.specs.JournalHistories.{EveryJournalIsKept, NothingCountedIsLost};
ghost use Rattle.st_laws_histories.specs.MoveHistories.{EveryMoveIsKept};
ghost use Rattle.st_laws_histories.specs.SharedHistories.{EveryAnswerHasItsCause};

use st_move::no_update_is_lost;

/// Over every history of appends, failed appends, crashes and openings of a journal: what is left
/// at any moment can be opened, and an opening reads a prefix of the changes that has each
/// acknowledged one, and at most the one under way. What an opening found or an append acknowledged
/// is still there in all that follows.
pub fn every_history_of_journals_is_kept()
    ensures opens { EveryJournalIsKept }
    ensures kept { NothingCountedIsLost }
{}

/// Over every history of writes, takes, drops and reads of a volume: an image is there from its
/// take until it is dropped, and answers what its pages were at the one moment when it was taken.
/// What the live pages answer are the bytes of the last write that was not refused.
pub fn every_history_of_images_reads_right()
    ensures { EveryImageIsOneMoment }
{}

/// Over every history of moves in which servers crash and start: at most one server holds a
/// container, no update is lost, and what a put and a list are answered is of the accepted updates.
pub fn every_history_of_moves_is_kept()
    ensures { EveryMoveIsKept }
{
    no_update_is_lost();
}

/// Over every history of a shared file: only a write and a read get a number, by how many commands
/// came before; only a report gets a success or a failure, as it was reported, if the client of the
/// command has not crashed since. It gets nothing if the client has.
pub fn every_answer_of_a_shared_file_has_its_cause()
    ensures { EveryAnswerHasItsCause }
{}
