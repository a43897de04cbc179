//! Every run of the world is a run of the volume (`every_run_is_a_run_of_the_volume`): what is
//! seen of an event as steps of the volume, and the steps that it is. The other laws are its
//! parts. Those that say "if the volume has taken the steps" don't say that it takes them; the
//! theorem does.
#![tactic(auto)]

ghost use Rattle.st_laws_volume.specs.AnswerKinds.{AnswersFollowLines, FilesAreAnsweredWithoutResults, LossesAreToldWhole, ResultsAreAnswered, is_dirty_full_answer, is_disk_fault, is_lost_answer, is_no_file, is_no_space, is_not_holder, is_opsfull, is_quiesced, is_read_answer, is_too_many_locks, is_uncertain};
ghost use Rattle.st_laws_volume.specs.AskedAsks.{AsksAreAsAsked};
ghost use Rattle.st_laws_volume.specs.Asks.{AsksAgree};
ghost use Rattle.st_laws_volume.specs.DirtyEntries.{DirtyPagesHaveEntries, FullClientsAreFull};
ghost use Rattle.st_laws_volume.specs.DirtyPages.{DirtyPagesWereChanged};
ghost use Rattle.st_laws_volume.specs.Effects.{ChangesFindTheirFiles, ChangesTakeEffect, MappedFilesExist};
ghost use Rattle.st_laws_volume.specs.Epochs.{EpochsAgree};
ghost use Rattle.st_laws_volume.specs.FateMarks.{CrashedEntriesArePast, CrashesAreMarked, FailedWritesAreRemembered};
ghost use Rattle.st_laws_volume.specs.Fates.{StillEventsAreTaken};
ghost use Rattle.st_laws_volume.specs.FullServers.{FullServersAreNoticed, FullServersHaveNoRoom};
ghost use Rattle.st_laws_volume.specs.HardFiles.{HardFilesAreClean};
ghost use Rattle.st_laws_volume.specs.HeldCuts.{CutFilesAreHeld};
ghost use Rattle.st_laws_volume.specs.KnownFiles.{KnownFilesExist};
ghost use Rattle.st_laws_volume.specs.StepKinds.{AnswersAreToOpenAsks, EntriesAreTold, KindsAreEnough, StepsAreTaken, is_ask, is_change_line, is_effect, is_failed_write, is_fate, is_free, is_hard_answer, is_line, is_written};
ghost use Rattle.st_laws_volume.specs.Laws.{RunsInParts, StepsShowTheEvent, TheStartAgrees};
ghost use Rattle.st_laws_volume.specs.LateFiles.{LateFilesAreMissed};
ghost use Rattle.st_laws_volume.specs.Logs.{InEveryRun, LogsAgree};
ghost use Rattle.st_laws_volume.specs.LossMarks.{LatePagesHaveFailed, LossesAreMet, PagesAreOnce};
ghost use Rattle.st_laws_volume.specs.NoFileAnswers.{FilesAreMissing};
ghost use Rattle.st_laws_volume.specs.NoSpaceAnswers.{ServersWereFull};
ghost use Rattle.st_laws_volume.specs.NotHolderAnswers.{LocksWereMissing};
ghost use Rattle.st_laws_volume.specs.Notices.{AsksHaveNoticed};
ghost use Rattle.st_laws_volume.specs.OtherAnswers.{OtherAnswersAreEnough};
ghost use Rattle.st_laws_volume.specs.OwedRows.{OwedRowsNameEntries};
ghost use Rattle.st_laws_volume.specs.PageBlocks.{PagesLieOnOneBlock, RoomIsWanted};
ghost use Rattle.st_laws_volume.specs.ReadFiles.{ReadsAreOfFiles, ReadsFindTheirFiles};
ghost use Rattle.st_laws_volume.specs.Reads.{PagesAgree, ReadsGiveThePages};
ghost use Rattle.st_laws_volume.specs.Refusals.{GoneFilesStayGone, NoticesStay, RefusalsAreNoticed, RepliesStayNoticed};
ghost use Rattle.st_laws_volume.specs.Requests.{AsksOfRequestsAreNext, RequestsAreForTheirAsks, RequestsFindNone, RequestsHaveAsks, RequestsHaveEffects, RequestsTakeEffectInOrder};
ghost use Rattle.st_laws_volume.specs.ResultAnswers.{gives_result};
ghost use Rattle.st_laws_volume.specs.Results.{OrphansHaveNoResult, ResultsAreOfCutsAndNames};
ghost use Rattle.st_laws_volume.specs.SentOrder.{RequestsAreInOrder};
ghost use Rattle.st_laws_volume.specs.TreeNames.{NamesStaySound, SoundNamesDoTheSame};
ghost use Rattle.st_laws_volume.specs.Trees.{TreesAgree};
ghost use Rattle.st_laws_volume.specs.VolumeRuns.{EveryRunIsARunOfTheVolume};

/// What is seen of the steps that an event is, is what is seen of the event, in its order.
pub fn steps_show_the_event()
    ensures { StepsShowTheEvent }
{}

/// The volume takes steps and then others if it takes the others after the first ones.
pub fn runs_go_on_in_parts()
    ensures { RunsInParts }
{}

/// At the start the volume is the view of the world.
pub fn the_start_agrees()
    ensures { TheStartAgrees }
{}

/// In every run, after every event up to which the volume has taken the steps: its log is the
/// world's, and each entry has had its line.
pub fn logs_agree()
    ensures { InEveryRun LogsAgree }
{}

/// In every run, after every event up to which the volume has taken the steps: each page has the
/// bytes in the volume that it has in the world.
pub fn pages_agree()
    ensures { InEveryRun PagesAgree }
{}

/// In every run the volume takes the steps of an event at which no node takes a step and no clock
/// advances, if it has taken those of all events before it.
pub fn still_events_are_taken()
    ensures { InEveryRun StillEventsAreTaken }
{}

/// In every run, after every event up to which the volume has taken the steps: the open asks of
/// each client are its pending operations, by their numbers and in their order, and it was asked as
/// often.
pub fn asks_agree()
    ensures { InEveryRun AsksAgree }
{}

/// In every run, after every event up to which the volume has taken the steps: each open ask and
/// each orphaned one is what its client was asked under its number.
pub fn asks_are_as_asked()
    ensures { InEveryRun AsksAreAsAsked }
{}

/// In every run, after every event up to which the volume has taken the steps: each write and patch
/// of a life that a crash ended remembers that its client crashed since.
pub fn crashes_are_marked()
    ensures { InEveryRun CrashesAreMarked }
{}

/// In every run, after every event up to which the volume has taken the steps: each write and patch
/// that remembers that its client crashed since is of an earlier life than the present one of that
/// client, if it runs.
pub fn crashed_entries_are_past()
    ensures { InEveryRun CrashedEntriesArePast }
{}

/// In every run, after every event up to which the volume has taken the steps: each pending entry
/// of a life that no crash ended remembers the last write of its page by that life, if this write
/// carried it, or carried it along, and was reported failed.
pub fn failed_writes_are_remembered()
    ensures { InEveryRun FailedWritesAreRemembered }
{}

/// In every run the volume takes what becomes of each entry, if it has taken all steps before it:
/// the entry is open, and one that is dropped has its cause, a crash of its client or the last
/// write that carried it.
pub fn fates_are_taken()
    ensures { InEveryRun (StepsAreTaken is_fate) }
{}

/// In every run, after every event up to which the volume has taken the steps: if a write or patch
/// was dropped, its client crashed since or was told, or its page is among those that the client
/// owes an answer about, or is dirty at the client, whose lease is over.
pub fn losses_are_met()
    ensures { InEveryRun LossesAreMet }
{}

/// In every run the volume takes each answer `hard`, if it has taken all steps before it: each
/// write and patch of that file by this client is hard, or was dropped and its client was told, or
/// the client crashed since.
pub fn hard_answers_are_taken()
    ensures { InEveryRun (StepsAreTaken is_hard_answer) }
{}

/// What an ask makes of a tree is what the names of a server do, if they are sound.
pub fn trees_do_what_names_do()
    ensures { SoundNamesDoTheSame }
{}

/// The names of a server are sound at the start, and each change keeps them sound.
pub fn names_stay_sound()
    ensures { NamesStaySound }
{}

/// In every run, after every event up to which the volume has taken the steps: its trees are the
/// names of the servers.
pub fn trees_agree()
    ensures { InEveryRun TreesAgree }
{}

/// A run is a run of the volume if the steps of each kind are taken, and each entry that joins the
/// log has its line in that event.
pub fn kinds_are_enough()
    ensures { KindsAreEnough }
{}

/// In every run, at each answer, each entry of the volume has had its line, if the volume has taken
/// all steps before it.
pub fn answers_follow_lines()
    ensures { InEveryRun AnswersFollowLines }
{}

/// In every run, after every event: each file of which a client that runs knows where pages lie,
/// under a lease that isn't over, is one that its server has.
pub fn known_files_exist()
    ensures { InEveryRun KnownFilesExist }
{}

/// In every run, as an event begins, each read that it answers finds that its file exists, and that
/// what is pending of the file is of the client that reads. In the event only this client changes
/// the log.
pub fn reads_are_of_files()
    ensures { InEveryRun ReadsAreOfFiles }
{}

/// In every run, at each answer that tells the bytes of a page, the file exists in the volume, and
/// no other client has open entries of it, if the volume has taken all steps before it.
pub fn reads_find_their_files()
    ensures { InEveryRun ReadsFindTheirFiles }
{}

/// In every run the volume takes each answer that tells the bytes of a page, if it has taken all
/// steps before it.
pub fn reads_are_taken()
    ensures { InEveryRun (StepsAreTaken is_read_answer) }
{}

/// In every run the volume takes each answer `nospace`, if it has taken all steps before it.
pub fn no_space_is_taken()
    ensures { InEveryRun (StepsAreTaken is_no_space) }
{}

/// In every run the volume takes each answer `nofile`, if it has taken all steps before it.
pub fn no_file_is_taken()
    ensures { InEveryRun (StepsAreTaken is_no_file) }
{}

/// In every run, at each answer `nofile`: the ask may have come after its server had refused a
/// request of the client for the file, and the server may have given the inode only after that.
/// Even so the ask has noticed that its file didn't exist.
pub fn late_files_are_missed()
    ensures { InEveryRun LateFilesAreMissed }
{}

/// Every run is a run of the volume, if in every run the volume takes the answers of six kinds, if
/// it has taken all steps before them: those that tell a read's bytes, `nofile`, `nospace`,
/// `dirtyfull`, `notholder` and `toomanylocks`. All else is proved.
pub fn other_answers_are_enough()
    ensures { OtherAnswersAreEnough }
{}

/// Every run is a run of the volume: from the world of every head and over every list of events in
/// their ranges, up to the first that is refused. What is seen of an event is what is seen of some
/// steps of the volume, and the volume takes them one after another. `docs/PROTOCOL.md`, "The
/// volume".
pub fn every_run_is_a_run_of_the_volume()
    ensures { EveryRunIsARunOfTheVolume }
{}

/// In every run the volume takes each crash of a client, start of a server and failed read, if
/// it has taken all steps before it.
pub fn free_steps_are_taken()
    ensures { InEveryRun (StepsAreTaken is_free) }
{}

/// In every run the volume takes each ask that comes, if it has taken all steps before it: at
/// most sixteen asks of its client are open.
pub fn asks_are_taken()
    ensures { InEveryRun (StepsAreTaken is_ask) }
{}

/// In every run the volume takes each line of a write or a patch, if it has taken all steps
/// before it: it is the next one, and tells what took effect just before it.
pub fn change_lines_are_taken()
    ensures { InEveryRun (StepsAreTaken is_change_line) }
{}

/// In every run the volume takes the line of each entry, if it has taken all steps before it: a
/// cut that a server tells has just taken effect, as the server served the request for it.
pub fn lines_are_taken()
    ensures { InEveryRun (StepsAreTaken is_line) }
{}

/// In every run each entry that joins the log of the volume has its line in that event, if the
/// volume has taken all steps before it.
pub fn entries_are_told()
    ensures { InEveryRun EntriesAreTold }
{}

/// In every run the volume takes each failed write of which a client is told, if it has taken
/// all steps before it: the write carried an entry of the log.
pub fn failed_writes_are_taken()
    ensures { InEveryRun (StepsAreTaken is_failed_write) }
{}

/// In every run, after every event up to which the volume has taken the steps: an open ask that has
/// its result is a cut or an ask for a name.
pub fn results_are_of_cuts_and_names()
    ensures { InEveryRun ResultsAreOfCutsAndNames }
{}

/// In every run, after every event up to which the volume has taken the steps: no orphaned ask has
/// a result.
pub fn orphans_have_no_result()
    ensures { InEveryRun OrphansHaveNoResult }
{}

/// In every run each answer is one to an ask that is open in the volume, if the volume has taken
/// all steps before it.
pub fn answers_are_to_open_asks()
    ensures { InEveryRun AnswersAreToOpenAsks }
{}

/// In every run each read is answered with the bytes that its page contains in the volume at that
/// answer, if the volume has taken all steps before it.
pub fn reads_give_the_pages()
    ensures { InEveryRun ReadsGiveThePages }
{}

/// In every run the volume takes each answer `written`, if it has taken all steps before it: the
/// ask that it answers is open, and has just taken effect.
pub fn written_answers_are_taken()
    ensures { InEveryRun (StepsAreTaken is_written) }
{}

/// In every run, after every event up to which the volume has taken the steps: the epoch of each
/// server is the one in the world.
pub fn epochs_agree()
    ensures { InEveryRun EpochsAgree }
{}

/// In every run, after every event: each page that a server has mapped belongs to a file that it
/// has.
pub fn mapped_files_exist()
    ensures { InEveryRun MappedFilesExist }
{}

/// In every run, after every event, each page that a server has mapped lies on one block, and its
/// file is one of that server.
pub fn pages_lie_on_one_block()
    ensures { InEveryRun PagesLieOnOneBlock }
{}

/// In every run each write and each patch of a page finds that its file exists, and that what is
/// pending of the file is of the client that writes.
pub fn changes_find_their_files()
    ensures { InEveryRun ChangesFindTheirFiles }
{}

/// In every run the volume takes the effect before each line of a write or a patch, if it has taken
/// all steps before the lines of the event: the ask is the first open one of its client that is a
/// write of this file or a patch of this page, and its file is free for it.
pub fn changes_take_effect()
    ensures { InEveryRun ChangesTakeEffect }
{}

/// In every run the volume takes each answer `opsfull`, if it has taken all steps before it: the
/// ask that it answers is its client's newest, and sixteen older ones are open.
pub fn opsfull_answers_are_taken()
    ensures { InEveryRun (StepsAreTaken is_opsfull) }
{}

/// In every run the volume takes each answer `uncertain`, if it has taken all steps before it: the
/// ask that it answers is a cut or an ask for a name, and its epochs are epochs of the asked
/// server.
pub fn uncertain_answers_are_taken()
    ensures { InEveryRun (StepsAreTaken is_uncertain) }
{}

/// In every run the volume takes each answer `quiesced`, if it has taken all steps before it: it
/// goes to an ask that has no result, and if that is a sync, each write and patch of its file by
/// this client is hard, or was dropped and its client was told, or the client crashed since.
pub fn quiesced_answers_are_taken()
    ensures { InEveryRun (StepsAreTaken is_quiesced) }
{}

/// In every run each answer `lost` goes to a sync that has no result, tells at least one row, and
/// its rows rise by page, if the volume has taken all steps before it. Unless they are 1,024, no
/// dropped entry of the file by this client is left of which it was not told.
pub fn losses_are_told_whole()
    ensures { InEveryRun LossesAreToldWhole }
{}

/// In every run, after every event, each row that a client owes of a server names an entry of the
/// volume, if it has taken all steps before: one of this client on the row's page, which the row's
/// command carried, and which it failed to write. The client was not told of the entry, and hasn't
/// crashed since it joined the log.
pub fn owed_rows_name_entries()
    ensures { InEveryRun OwedRowsNameEntries }
{}

/// In every run the volume takes each answer `lost`, if it has taken all steps before it: the
/// answer goes to a sync that has no result, its rows rise by page, and each names an entry of
/// which the client was not told. Unless they are 1,024, no dropped entry of the file by this
/// client is left of which it was not told.
pub fn lost_answers_are_taken()
    ensures { InEveryRun (StepsAreTaken is_lost_answer) }
{}

/// In every run, after every event: each page that is dirty at a client whose lease is over has a
/// command that failed, and no write of that server is outstanding there. The command's number is
/// what will be owed of the page.
pub fn late_pages_have_failed()
    ensures { InEveryRun LatePagesHaveFailed }
{}

/// In every run, after every event: each page that is dirty under a lease that isn't over has an
/// entry of its client in the volume, if it has taken all steps before. The client hasn't crashed
/// since the entry joined the log and was not told of it, and the entry was not dropped.
pub fn dirty_pages_have_entries()
    ensures { InEveryRun DirtyPagesHaveEntries }
{}

/// In every run, after every event: if 64 pages of a server are dirty under a lease that isn't
/// over, other than the one that an ask writes or patches, the volume lets this ask be answered
/// `dirtyfull`, if it has taken all steps before.
pub fn full_clients_are_full()
    ensures { InEveryRun FullClientsAreFull }
{}

/// In every run the volume takes each answer `dirtyfull`, if it has taken all steps before it. At
/// its line 64 other pages of the server are dirty at the client. Each has an entry of the client,
/// which was not dropped. The client hasn't crashed since the entry joined the log, and was not
/// told of it.
pub fn dirty_full_answers_are_taken()
    ensures { InEveryRun (StepsAreTaken is_dirty_full_answer) }
{}

/// In every run the volume takes each answer `toomanylocks`, if it has taken all steps before it. A
/// server refused a request of the client for a lock, since the client had locks of 1,024 other
/// files, or waited for them. The client was asked of each of these files: a lock has the number of
/// a grant that was sent for a request, and a request for a lock is of the file of an open ask.
pub fn too_many_locks_are_taken()
    ensures { InEveryRun (StepsAreTaken is_too_many_locks) }
{}

/// In every run, after every event: no page is dirty twice at a client.
pub fn pages_are_once()
    ensures { InEveryRun PagesAreOnce }
{}

/// In every run each page that is dirty after an event, at a client that runs, was dirty before it
/// in the same life of that client; or the event tells a change of the page by it.
pub fn dirty_pages_were_changed()
    ensures { InEveryRun DirtyPagesWereChanged }
{}

/// In every run, if a sync is answered `hard`, each page of its file that is dirty after that event
/// was changed after the answer.
pub fn hard_files_are_clean()
    ensures { InEveryRun HardFilesAreClean }
{}

/// In every run each answer other than `written` goes to a cut, to an ask for a name, or to an ask
/// that has no result, if the volume has taken all steps before it.
pub fn files_are_answered_without_results()
    ensures { InEveryRun FilesAreAnsweredWithoutResults }
{}

/// In every run each answer that tells no result goes to an ask that has none, if the volume has
/// taken all steps before it: all answers but `uncertain`, and `written`, which follows its effect.
pub fn results_are_answered()
    ensures { InEveryRun ResultsAreAnswered }
{}

/// In every run the volume takes each answer `diskfault`, if it has taken all steps before it: the
/// command that it names was just reported failed. It is a write of the file of the sync that is
/// answered so; or a read of the disks of the server of the read or patch.
pub fn disk_faults_are_taken()
    ensures { InEveryRun (StepsAreTaken is_disk_fault) }
{}

/// In every run, after every event up to which the volume has taken the steps: its open asks have
/// noticed what there is now to notice.
pub fn asks_have_noticed()
    ensures { InEveryRun AsksHaveNoticed }
{}

/// In every run, as a server refuses a request since the file doesn't exist, each open ask of that
/// file has noticed so, if the volume has taken the steps of all events before it. As a server
/// refuses a remove since its client doesn't hold the file under that name, each open ask to remove
/// another file under that name has noticed this file.
pub fn refusals_are_noticed()
    ensures { InEveryRun RefusalsAreNoticed }
{}

/// In every run, after every event up to which the volume has taken the steps: each open ask that
/// had come before a step so far has noticed what there was to notice of names as that step began,
/// that its file didn't exist, and that another file had the name to be removed.
pub fn notices_stay()
    ensures { InEveryRun NoticesStay }
{}

/// In every run, after every event up to which the volume has taken the steps: each open ask that
/// had come before a server served a request, and replied that the file of the ask doesn't exist,
/// has noticed so. If the server refused the request to remove a file, since the client doesn't
/// hold it, each open ask to remove another file under that name, that had come before, has noticed
/// this file.
pub fn replies_stay_noticed()
    ensures { InEveryRun RepliesStayNoticed }
{}

/// In every run each answer `nofile` goes to an ask that has no result, if the volume has taken all
/// steps before it. If the asked server is there, the ask isn't a sync, and has noticed that its
/// file didn't exist; or it came after a server refused a request of its client for the file, and
/// the inode was given only after that.
pub fn files_are_missing()
    ensures { InEveryRun FilesAreMissing }
{}

/// In every run each answer `nospace` tells that no block was left and one was wanted, if the
/// volume has taken all steps before it. It goes to a write or a patch that has no result. Its
/// server had no free block as it refused to map this page for the client.
pub fn servers_were_full()
    ensures { InEveryRun ServersWereFull }
{}

/// In every run each answer `nospace` goes to an ask that has noticed that its server was full.
pub fn full_servers_are_noticed()
    ensures { InEveryRun FullServersAreNoticed }
{}

/// In every run, as each event begins, room was wanted in the volume for each page that a server
/// has mapped, if the volume has taken the steps of all events before it.
pub fn room_is_wanted()
    ensures { InEveryRun RoomIsWanted }
{}

/// In every run, as each event begins, consider a server that has no free block, and hasn't mapped
/// some page of its files for which room is wanted. It is full in the volume, if the volume has
/// taken the steps of all events before this one.
pub fn full_servers_have_no_room()
    ensures { InEveryRun FullServersHaveNoRoom }
{}

/// In every run each answer `notholder` goes to an ask that has no result, if the volume has taken
/// all steps before it. Its server refused a cut or a remove of the client, which didn't hold the
/// file under the grant that it named.
pub fn locks_were_missing()
    ensures { InEveryRun LocksWereMissing }
{}

/// In every run the volume takes each answer `notholder`, if it has taken all steps before it: it
/// goes to a remove that has noticed that another file has its name.
pub fn not_holder_answers_are_taken()
    ensures { InEveryRun (StepsAreTaken is_not_holder) }
{}

/// In every run no server refuses a cut since its client doesn't hold the file. While the server
/// may serve such a request, it has the exclusive row of the client, under the grant that the
/// request names.
pub fn cut_files_are_held()
    ensures { InEveryRun CutFilesAreHeld }
{}

/// In every run a file that a server lacked as a step began, although it had given its inode,
/// doesn't exist after any later event.
pub fn gone_files_stay_gone()
    ensures { InEveryRun GoneFilesStayGone }
{}

/// In every run each request for a cut or a name that a server serves and does belongs to an ask of
/// its sender, which the ghost has under the key of the request. The ask wasn't answered yet, or
/// with `uncertain`.
pub fn requests_have_asks()
    ensures { InEveryRun RequestsHaveAsks }
{}

/// In every run each such request is that of its ask: it has the words of the ask, and the request
/// of a remove names a grant if the ask means a file.
pub fn requests_are_for_their_asks()
    ensures { InEveryRun RequestsAreForTheirAsks }
{}

/// In every run what is asked by such a request has an effect in the volume, if the volume has
/// taken the steps of all events before: a file that it cuts or removes exists, and no other client
/// has open entries of the file; and an ask for a name makes something of the tree.
pub fn requests_have_effects()
    ensures { InEveryRun RequestsHaveEffects }
{}

/// In every run the volume takes the effect of the ask as a server serves such a request. It does
/// so if it has taken the steps of all events before, the ask is open or orphaned, and no open ask
/// must take effect before it.
pub fn requests_take_effect_in_order()
    ensures { InEveryRun RequestsTakeEffectInOrder }
{}

/// In every run, after every event, of each client: no pending operation must take effect before a
/// later one whose request the client has sent. One case is left open: both mean no file, and the
/// earlier one was sent too, or needs a file.
pub fn requests_are_in_order()
    ensures { InEveryRun RequestsAreInOrder }
{}

/// In every run the ask to which such a request belongs is open or orphaned, and no open ask must
/// take effect before it, if the volume has taken the steps of all events before.
pub fn asks_of_requests_are_next()
    ensures { InEveryRun AsksOfRequestsAreNext }
{}

/// In every run the volume takes each effect, if it has taken all steps before it: that of a
/// request that a server serves and does, and that of each write and patch, at its line.
pub fn effects_are_taken()
    ensures { InEveryRun (StepsAreTaken is_effect) }
{}

/// In every run such a request finds that the open ask to which it belongs has no result yet: an
/// ask takes effect once.
pub fn requests_find_none()
    ensures { InEveryRun RequestsFindNone }
{}

/// In every run the volume takes each answer that tells the result of a cut or of an ask for a
/// name, if it has taken all steps before it: the ask that it answers is open, and has this result.
pub fn results_are_told()
    ensures { InEveryRun (StepsAreTaken gives_result) }
{}
