ghost use Rattle.std.specs.Prelude.{◌∷◌, []};
ghost use Rattle.st_promises.specs.Acknowledgements.{CutsAreAcknowledged};
ghost use Rattle.st_promises.specs.Counts.{TheCountsAreTrue};
ghost use Rattle.st_promises.specs.CutAsks.{CutsAreAsked};
ghost use Rattle.st_promises.specs.Faults.{FaultsHaveACause};
ghost use Rattle.st_promises.specs.Grants.{GrantNumbersAreGivenOnce, GrantNumbersRise};
ghost use Rattle.st_promises.specs.Held.{DisksHoldWhatIsHard};
ghost use Rattle.st_promises.specs.Losses.{LossesAreTold};
ghost use Rattle.st_promises.specs.NameAnswers.{NamesAnswerTruly};
ghost use Rattle.st_promises.specs.NameChanges.{NamesChangeAsAsked};
ghost use Rattle.st_promises.specs.NamesOnce.{NamesChangeOnce};
ghost use Rattle.st_promises.specs.Refusals.{RefusalsChangeNothing};
ghost use Rattle.st_rows_promises.specs.BrokenPromises.{IsKeptBut, answered_twice, beside_a_held_lock, beside_a_lock, conflict_sent, counted_and_not_told, created_again, created_and_not_asked, created_and_refused, created_and_told, created_as_asked, created_otherwise, creating, creating_too, cut_and_not_acknowledged, cut_and_not_asked, cut_and_not_logged, cut_and_refused, cut_as_asked, cut_without_a_lock, cutting, date_unknown, dated_from_the_arrival, done_and_quiesced, done_and_refused, done_and_told, dropped_by_another_command, dropped_without_a_crash, dropped_without_a_report, fault_without_a_report, full_without_operations, given_again, given_below, given_of_another_file, given_to_another_client, grace_never_begun, grace_of_other_clocks, grace_too_short, grace_unknown, grace_without_a_start, grant_unknown, hard_and_not_held, hard_and_pending, hard_no_more, hard_too_early, hard_twice, kept_after_the_end, looking, loss_not_told, loss_told_in_part, named_and_not_asked, named_and_not_created, named_truly, named_wrongly, past, past_answered, past_asked, past_created, past_cut, past_done, past_first, past_lost, past_met, past_refused, past_removed, past_sent, past_started, past_suspected, past_suspecting, past_told, read_after_the_end, reading, refused_without_a_refusal, removed_then, removing, replied_behind_a_timer, stale_read, stolen_as_another_life, stolen_early, submitted_after_the_end, syncing, timer_of_another_clock, timer_of_another_moment, timer_unknown, timer_without_a_suspect, told_and_not_lost, told_and_not_sent, told_first, told_too, writing, written_and_not_answered, written_and_not_logged, written_under_a_lesser_grant, written_under_another_number, written_without_a_lock};
ghost use Rattle.st_rules.specs.Safety.{AnswersAreLogged, AsksAreAnsweredOnce, ChangesAreLocked, ChangesGoInTheOrderOfLocks, DirtyPagesStandAlone, DropsHaveACause, ExpiredLeasesEmptyClients, GraceWaits, HardIsHard, HardStaysHard, LeasesAreDatedFromRequests, NoConflictIsSent, ReadsReturnLastWrites, TheHistoryIsTheWorlds, TheReportTellsTheLog, TheftsComeLate};

/// A page that is dirty while another client has a row of its file.
#[tactic(auto, unfolding(crate::specs::BrokenPromises::broken_open))]
pub fn a_dirty_page_beside_a_lock_is_refused()
    ensures broken { ¬ DirtyPagesStandAlone (past reading) beside_a_lock }
    ensures kept { IsKeptBut (1 ∷ []) (past reading) beside_a_lock }
{}

/// A page that is dirty while another client holds a lock on its file.
#[tactic(auto, unfolding(crate::specs::BrokenPromises::broken_open))]
pub fn a_dirty_page_beside_a_held_lock_is_refused()
    ensures broken { ¬ DirtyPagesStandAlone past_met beside_a_held_lock }
    ensures kept { IsKeptBut (1 ∷ []) past_met beside_a_held_lock }
{}

/// A read that is answered with another page's bytes.
#[tactic(auto, unfolding(crate::specs::BrokenPromises::broken_open))]
pub fn a_stale_read_is_refused()
    ensures broken { ¬ ReadsReturnLastWrites (past reading) stale_read }
    ensures kept { IsKeptBut (2 ∷ []) (past reading) stale_read }
{}

/// A write that is dropped by a crash that never was.
#[tactic(auto, unfolding(crate::specs::BrokenPromises::broken_open))]
pub fn a_drop_without_a_crash_is_refused()
    ensures broken { ¬ DropsHaveACause (past reading) dropped_without_a_crash }
    ensures kept { IsKeptBut (3 ∷ []) (past reading) dropped_without_a_crash }
{}

/// A write that is dropped by a failed command which was not its page's last write.
#[tactic(auto, unfolding(crate::specs::BrokenPromises::broken_open))]
pub fn a_drop_by_another_command_is_refused()
    ensures broken { ¬ DropsHaveACause (past reading) dropped_by_another_command }
    ensures kept { IsKeptBut (3 ∷ []) (past reading) dropped_by_another_command }
{}

/// A write that is dropped without a failed report.
#[tactic(auto, unfolding(crate::specs::BrokenPromises::broken_open))]
pub fn a_drop_without_a_report_is_refused()
    ensures broken { ¬ DropsHaveACause (past reading) dropped_without_a_report }
    ensures kept { IsKeptBut (3 ∷ []) (past reading) dropped_without_a_report }
{}

/// A write that was hard and no longer is. No line says so, so the report doesn't tell the log
/// either, and the counts are not true.
#[tactic(auto, unfolding(crate::specs::BrokenPromises::broken_open))]
pub fn a_write_that_is_hard_no_more_is_refused()
    ensures broken { ¬ HardStaysHard (past reading) hard_no_more }
    ensures kept { IsKeptBut (4 ∷ 10 ∷ 20 ∷ []) (past reading) hard_no_more }
{}

/// A sync that is answered hard while a write of its file is pending.
#[tactic(auto, unfolding(crate::specs::BrokenPromises::broken_open))]
pub fn a_sync_answered_too_early_is_refused()
    ensures broken { ¬ HardIsHard (past syncing) hard_too_early }
    ensures kept { IsKeptBut (5 ∷ []) (past syncing) hard_too_early }
{}

/// A theft before the victim's lease end.
#[tactic(auto, unfolding(crate::specs::BrokenPromises::broken_open))]
pub fn an_early_theft_is_refused()
    ensures broken { ¬ TheftsComeLate (past reading) stolen_early }
    ensures kept { IsKeptBut (6 ∷ []) (past reading) stolen_early }
{}

/// A theft that names a life without a lease, before the end of another lease of the victim.
#[tactic(auto, unfolding(crate::specs::BrokenPromises::broken_open))]
pub fn a_theft_under_another_life_is_refused()
    ensures broken { ¬ TheftsComeLate (past reading) stolen_as_another_life }
    ensures kept { IsKeptBut (6 ∷ []) (past reading) stolen_as_another_life }
{}

/// A lease that is dated from its reply's arrival.
#[tactic(auto, unfolding(crate::specs::BrokenPromises::broken_open))]
pub fn a_date_of_the_arrival_is_refused()
    ensures broken { ¬ LeasesAreDatedFromRequests (past reading) dated_from_the_arrival }
    ensures kept { IsKeptBut (7 ∷ []) (past reading) dated_from_the_arrival }
{}

/// A lease whose reply was sent after a timer of its client began.
#[tactic(auto, unfolding(crate::specs::BrokenPromises::broken_open))]
pub fn a_reply_behind_a_timer_is_refused()
    ensures broken { ¬ LeasesAreDatedFromRequests past_suspected replied_behind_a_timer }
    ensures kept { IsKeptBut (7 ∷ []) past_suspected replied_behind_a_timer }
{}

/// A grace that ends before a client's lease.
#[tactic(auto, unfolding(crate::specs::BrokenPromises::broken_open))]
pub fn a_grace_that_is_too_short_is_refused()
    ensures broken { ¬ GraceWaits past_started grace_too_short }
    ensures kept { IsKeptBut (8 ∷ []) past_started grace_too_short }
{}

/// A second epoch that begins without a grace, before the end of a client's lease of the first.
#[tactic(auto, unfolding(crate::specs::BrokenPromises::broken_open))]
pub fn an_epoch_without_a_grace_is_refused()
    ensures broken { ¬ GraceWaits (past reading) grace_never_begun }
    ensures kept { IsKeptBut (8 ∷ []) (past reading) grace_never_begun }
{}

/// A refusal of a reassertion for a conflict.
#[tactic(auto, unfolding(crate::specs::BrokenPromises::broken_open))]
pub fn a_conflict_that_is_sent_is_refused()
    ensures broken { ¬ NoConflictIsSent (past reading) conflict_sent }
    ensures kept { IsKeptBut (9 ∷ []) (past reading) conflict_sent }
{}

/// A write that is reported hard and stays pending. The counts are not true then.
#[tactic(auto, unfolding(crate::specs::BrokenPromises::broken_open))]
pub fn a_hard_entry_that_stays_pending_is_refused()
    ensures broken { ¬ TheReportTellsTheLog (past reading) hard_and_pending }
    ensures kept { IsKeptBut (10 ∷ 20 ∷ []) (past reading) hard_and_pending }
{}

/// A write that is reported hard and was hard before, on disks that carry zeros. The counts are
/// not true then.
#[tactic(auto, unfolding(crate::specs::BrokenPromises::broken_open))]
pub fn an_entry_told_hard_twice_is_refused()
    ensures broken { ¬ TheReportTellsTheLog (past reading) hard_twice }
    ensures kept { IsKeptBut (10 ∷ 18 ∷ 20 ∷ []) (past reading) hard_twice }
{}

/// A write that is reported under a number that isn't the next one.
#[tactic(auto, unfolding(crate::specs::BrokenPromises::broken_open))]
pub fn an_entry_under_another_number_is_refused()
    ensures broken { ¬ TheReportTellsTheLog (past reading) written_under_another_number }
    ensures kept { IsKeptBut (10 ∷ []) (past reading) written_under_another_number }
{}

/// A write that is answered and not logged.
#[tactic(auto, unfolding(crate::specs::BrokenPromises::broken_open))]
pub fn an_answer_that_is_not_logged_is_refused()
    ensures broken { ¬ AnswersAreLogged (past writing) written_and_not_logged }
    ensures kept { IsKeptBut (11 ∷ []) (past writing) written_and_not_logged }
{}

/// A cut that is answered and not logged.
#[tactic(auto, unfolding(crate::specs::BrokenPromises::broken_open))]
pub fn a_cut_that_is_not_logged_is_refused()
    ensures broken { ¬ AnswersAreLogged (past cutting) cut_and_not_logged }
    ensures kept { IsKeptBut (11 ∷ []) (past cutting) cut_and_not_logged }
{}

/// A cut that is answered and was logged only before it was asked.
#[tactic(auto, unfolding(crate::specs::BrokenPromises::broken_open))]
pub fn a_cut_from_before_the_ask_is_refused()
    ensures broken { ¬ AnswersAreLogged past_cut cut_and_not_logged }
    ensures kept { IsKeptBut (11 ∷ 28 ∷ []) past_cut cut_and_not_logged }
{}

/// A write that is logged and not answered.
#[tactic(auto, unfolding(crate::specs::BrokenPromises::broken_open))]
pub fn a_write_that_is_not_answered_is_refused()
    ensures broken { ¬ AsksAreAnsweredOnce (past reading) written_and_not_answered }
    ensures kept { IsKeptBut (12 ∷ []) (past reading) written_and_not_answered }
{}

/// An ask that is answered a second time.
#[tactic(auto, unfolding(crate::specs::BrokenPromises::broken_open))]
pub fn a_second_answer_is_refused()
    ensures broken { ¬ AsksAreAnsweredOnce (past reading) answered_twice }
    ensures kept { IsKeptBut (12 ∷ []) (past reading) answered_twice }
{}

/// A write that is logged for a client without a lease or a lock.
#[tactic(auto, unfolding(crate::specs::BrokenPromises::broken_open))]
pub fn a_write_without_a_lock_is_refused()
    ensures broken { ¬ ChangesAreLocked (past reading) written_without_a_lock }
    ensures kept { IsKeptBut (13 ∷ []) (past reading) written_without_a_lock }
{}

/// A cut of a file on which the server no longer has a row.
#[tactic(auto, unfolding(crate::specs::BrokenPromises::broken_open))]
pub fn a_cut_without_a_lock_is_refused()
    ensures broken { ¬ ChangesAreLocked (past cutting) cut_without_a_lock }
    ensures kept { IsKeptBut (13 ∷ []) (past cutting) cut_without_a_lock }
{}

/// A write that is accepted under a lesser grant number than the one before it.
#[tactic(auto, unfolding(crate::specs::BrokenPromises::broken_open))]
pub fn a_write_under_a_lesser_grant_is_refused()
    ensures broken { ¬ ChangesGoInTheOrderOfLocks (past reading) written_under_a_lesser_grant }
    ensures kept { IsKeptBut (14 ∷ []) (past reading) written_under_a_lesser_grant }
{}

/// A client that takes a step at its lease end and keeps what it had.
#[tactic(auto, unfolding(crate::specs::BrokenPromises::broken_open))]
pub fn a_client_that_keeps_what_it_had_is_refused()
    ensures broken { ¬ ExpiredLeasesEmptyClients (past reading) kept_after_the_end }
    ensures kept { IsKeptBut (15 ∷ []) (past reading) kept_after_the_end }
{}

/// A client that submits a command in the step in which it loses its lease.
#[tactic(auto, unfolding(crate::specs::BrokenPromises::broken_open))]
pub fn a_command_after_the_end_is_refused()
    ensures broken { ¬ ExpiredLeasesEmptyClients (past reading) submitted_after_the_end }
    ensures kept { IsKeptBut (15 ∷ []) (past reading) submitted_after_the_end }
{}

/// A client that answers a read in the step in which it loses its lease.
#[tactic(auto, unfolding(crate::specs::BrokenPromises::broken_open))]
pub fn a_read_after_the_end_is_refused()
    ensures broken { ¬ ExpiredLeasesEmptyClients (past reading) read_after_the_end }
    ensures kept { IsKeptBut (15 ∷ []) (past reading) read_after_the_end }
{}

/// A server that suspects a client while the history has no timer.
#[tactic(auto, unfolding(crate::specs::BrokenPromises::broken_open))]
pub fn a_timer_that_is_not_remembered_is_refused()
    ensures broken { ¬ TheHistoryIsTheWorlds (past reading) timer_unknown }
    ensures kept { IsKeptBut (16 ∷ []) (past reading) timer_unknown }
{}

/// A timer of the history while no server suspects the client.
#[tactic(auto, unfolding(crate::specs::BrokenPromises::broken_open))]
pub fn a_timer_without_a_suspect_is_refused()
    ensures broken { ¬ TheHistoryIsTheWorlds (past reading) timer_without_a_suspect }
    ensures kept { IsKeptBut (16 ∷ []) (past reading) timer_without_a_suspect }
{}

/// A timer of the history whose client's clock is not that of the step in which it started.
#[tactic(auto, unfolding(crate::specs::BrokenPromises::broken_open))]
pub fn a_timer_of_another_clock_is_refused()
    ensures broken { ¬ TheHistoryIsTheWorlds past_suspecting timer_of_another_clock }
    ensures kept { IsKeptBut (16 ∷ []) past_suspecting timer_of_another_clock }
{}

/// A timer of the history with more messages than were sent before it started.
#[tactic(auto, unfolding(crate::specs::BrokenPromises::broken_open))]
pub fn a_timer_of_another_moment_is_refused()
    ensures broken { ¬ TheHistoryIsTheWorlds past_suspecting timer_of_another_moment }
    ensures kept { IsKeptBut (16 ∷ []) past_suspecting timer_of_another_moment }
{}

/// A server whose epoch began with a grace while the history has none.
#[tactic(auto, unfolding(crate::specs::BrokenPromises::broken_open))]
pub fn a_grace_that_is_not_remembered_is_refused()
    ensures broken { ¬ TheHistoryIsTheWorlds past_started grace_unknown }
    ensures kept { IsKeptBut (16 ∷ []) past_started grace_unknown }
{}

/// A grace of the history while the server's epoch began without one.
#[tactic(auto, unfolding(crate::specs::BrokenPromises::broken_open))]
pub fn a_grace_that_never_began_is_refused()
    ensures broken { ¬ TheHistoryIsTheWorlds (past reading) grace_without_a_start }
    ensures kept { IsKeptBut (16 ∷ []) (past reading) grace_without_a_start }
{}

/// A grace of the history whose clients' clocks are not those of the step in which it began.
#[tactic(auto, unfolding(crate::specs::BrokenPromises::broken_open))]
pub fn a_grace_of_other_clocks_is_refused()
    ensures broken { ¬ TheHistoryIsTheWorlds past_started grace_of_other_clocks }
    ensures kept { IsKeptBut (16 ∷ []) past_started grace_of_other_clocks }
{}

/// A lease that isn't among the dates.
#[tactic(auto, unfolding(crate::specs::BrokenPromises::broken_open))]
pub fn a_lease_without_a_date_is_refused()
    ensures broken { ¬ TheHistoryIsTheWorlds (past reading) date_unknown }
    ensures kept { IsKeptBut (16 ∷ []) (past reading) date_unknown }
{}

/// An entry of the log that has no grant.
#[tactic(auto, unfolding(crate::specs::BrokenPromises::broken_open))]
pub fn an_entry_without_a_grant_is_refused()
    ensures broken { ¬ TheHistoryIsTheWorlds (past reading) grant_unknown }
    ensures kept { IsKeptBut (16 ∷ []) (past reading) grant_unknown }
{}

/// A sync that is answered hard though a page of its file was lost and nobody was told about it.
#[tactic(auto, unfolding(crate::specs::BrokenPromises::broken_open))]
pub fn a_loss_that_is_not_told_is_refused()
    ensures broken { ¬ LossesAreTold past_lost loss_not_told }
    ensures kept { IsKeptBut (17 ∷ []) past_lost loss_not_told }
{}

/// A sync that is answered with fewer pages than were lost.
#[tactic(auto, unfolding(crate::specs::BrokenPromises::broken_open))]
pub fn a_loss_that_is_told_in_part_is_refused()
    ensures broken { ¬ LossesAreTold past_lost loss_told_in_part }
    ensures kept { IsKeptBut (17 ∷ []) past_lost loss_told_in_part }
{}

/// A sync that is told about a page that was not lost.
#[tactic(auto, unfolding(crate::specs::BrokenPromises::broken_open))]
pub fn a_loss_that_never_was_is_refused()
    ensures broken { ¬ LossesAreTold (past syncing) told_and_not_lost }
    ensures kept { IsKeptBut (17 ∷ []) (past syncing) told_and_not_lost }
{}

/// A write that becomes hard while the disks carry zeros in its page.
#[tactic(auto, unfolding(crate::specs::BrokenPromises::broken_open))]
pub fn a_hard_page_of_zeros_is_refused()
    ensures broken { ¬ DisksHoldWhatIsHard (past reading) hard_and_not_held }
    ensures kept { IsKeptBut (18 ∷ []) (past reading) hard_and_not_held }
{}

/// A sync that is answered with a fault of a command that was not reported failed.
#[tactic(auto, unfolding(crate::specs::BrokenPromises::broken_open))]
pub fn a_fault_without_a_report_is_refused()
    ensures broken { ¬ FaultsHaveACause (past syncing) fault_without_a_report }
    ensures kept { IsKeptBut (19 ∷ []) (past syncing) fault_without_a_report }
{}

/// An ask that is refused because of pending operations, of which there is one.
#[tactic(auto, unfolding(crate::specs::BrokenPromises::broken_open))]
pub fn a_full_client_without_operations_is_refused()
    ensures broken { ¬ FaultsHaveACause (past syncing) full_without_operations }
    ensures kept { IsKeptBut (19 ∷ []) (past syncing) full_without_operations }
{}

/// A cut that is refused though no refusal came.
#[tactic(auto, unfolding(crate::specs::BrokenPromises::broken_open))]
pub fn a_refusal_that_did_not_come_is_refused()
    ensures broken { ¬ FaultsHaveACause (past cutting) refused_without_a_refusal }
    ensures kept { IsKeptBut (19 ∷ []) (past cutting) refused_without_a_refusal }
{}

/// The line of a message that was not sent.
#[tactic(auto, unfolding(crate::specs::BrokenPromises::broken_open))]
pub fn a_line_without_its_message_is_refused()
    ensures broken { ¬ TheCountsAreTrue (past reading) told_and_not_sent }
    ensures kept { IsKeptBut (20 ∷ []) (past reading) told_and_not_sent }
{}

/// A theft that is counted, but that no line reports.
#[tactic(auto, unfolding(crate::specs::BrokenPromises::broken_open))]
pub fn a_theft_without_a_line_is_refused()
    ensures broken { ¬ TheCountsAreTrue (past reading) counted_and_not_told }
    ensures kept { IsKeptBut (20 ∷ []) (past reading) counted_and_not_told }
{}

/// A cut that nobody asked for, of a file that only one client has.
#[tactic(auto, unfolding(crate::specs::BrokenPromises::broken_open))]
pub fn a_cut_that_is_not_asked_is_refused()
    ensures broken { ¬ CutsAreAsked (past reading) cut_and_not_asked }
    ensures kept { IsKeptBut (21 ∷ 28 ∷ []) (past reading) cut_and_not_asked }
{}

/// A cut whose ask was answered before, with a refusal. Before that answer it isn't a fault.
#[tactic(auto, unfolding(crate::specs::BrokenPromises::broken_open))]
pub fn a_cut_that_was_refused_is_refused()
    ensures broken { ¬ CutsAreAsked past_answered cut_as_asked }
    ensures kept { IsKeptBut (21 ∷ 28 ∷ []) past_answered cut_as_asked }
    ensures before { IsKeptBut [] (past cutting) cut_as_asked }
{}

/// A grant to one client under a number that another client has. That the same grant is sent again
/// isn't a fault.
#[tactic(auto, unfolding(crate::specs::BrokenPromises::broken_open))]
pub fn a_number_given_to_another_client_is_refused()
    ensures broken { ¬ GrantNumbersAreGivenOnce (past reading) given_to_another_client }
    ensures kept { IsKeptBut (22 ∷ []) (past reading) given_to_another_client }
    ensures again { IsKeptBut [] (past reading) given_again }
{}

/// A grant of one file under a number that the client has of another.
#[tactic(auto, unfolding(crate::specs::BrokenPromises::broken_open))]
pub fn a_number_given_of_another_file_is_refused()
    ensures broken { ¬ GrantNumbersAreGivenOnce (past reading) given_of_another_file }
    ensures kept { IsKeptBut (22 ∷ []) (past reading) given_of_another_file }
{}

/// A grant under a number that was never given, and that is below one that was.
#[tactic(auto, unfolding(crate::specs::BrokenPromises::broken_open))]
pub fn a_number_below_another_is_refused()
    ensures broken { ¬ GrantNumbersRise (past reading) given_below }
    ensures kept { IsKeptBut (23 ∷ []) (past reading) given_below }
{}

/// A cut that is done, and about which nothing is sent.
#[tactic(auto, unfolding(crate::specs::BrokenPromises::broken_open))]
pub fn a_cut_that_is_not_acknowledged_is_refused()
    ensures broken { ¬ CutsAreAcknowledged (past cutting) cut_and_not_acknowledged }
    ensures kept { IsKeptBut (24 ∷ []) (past cutting) cut_and_not_acknowledged }
{}

/// A cut that is done and acknowledged, and also refused.
#[tactic(auto, unfolding(crate::specs::BrokenPromises::broken_open))]
pub fn a_cut_that_is_done_and_refused_is_refused()
    ensures broken { ¬ CutsAreAcknowledged (past cutting) cut_and_refused }
    ensures kept { IsKeptBut (24 ∷ []) (past cutting) cut_and_refused }
{}

/// A name that is answered with an inode other than the one in the names. Their own inode isn't a
/// fault.
#[tactic(auto, unfolding(crate::specs::BrokenPromises::broken_open))]
pub fn a_name_that_was_not_said_is_refused()
    ensures broken { ¬ NamesAnswerTruly (past_asked looking) named_wrongly }
    ensures kept { IsKeptBut (25 ∷ []) (past_asked looking) named_wrongly }
    ensures said { IsKeptBut [] (past_asked looking) named_truly }
{}

/// A name that is answered with what the names said only before it was asked.
#[tactic(auto, unfolding(crate::specs::BrokenPromises::broken_open))]
pub fn a_name_from_before_the_ask_is_refused()
    ensures broken { ¬ NamesAnswerTruly (past looking) named_truly }
    ensures kept { IsKeptBut (25 ∷ []) (past looking) named_truly }
{}

/// An inode that is answered to an ask for no name.
#[tactic(auto, unfolding(crate::specs::BrokenPromises::broken_open))]
pub fn a_name_that_was_not_asked_is_refused()
    ensures broken { ¬ NamesAnswerTruly (past_asked syncing) named_and_not_asked }
    ensures kept { IsKeptBut (25 ∷ []) (past_asked syncing) named_and_not_asked }
{}

/// A create that is answered with the next inode, while the names stay without the new file.
#[tactic(auto, unfolding(crate::specs::BrokenPromises::broken_open))]
pub fn a_create_that_is_not_done_is_refused()
    ensures broken { ¬ NamesAnswerTruly (past_asked creating) named_and_not_created }
    ensures kept { IsKeptBut (25 ∷ 27 ∷ []) (past_asked creating) named_and_not_created }
{}

/// A new file that nobody asked for.
#[tactic(auto, unfolding(crate::specs::BrokenPromises::broken_open))]
pub fn a_change_of_names_that_is_not_asked_is_refused()
    ensures broken { ¬ NamesChangeAsAsked (past reading) created_and_not_asked }
    ensures kept { IsKeptBut (26 ∷ 27 ∷ []) (past reading) created_and_not_asked }
{}

/// A change of names other than the one that was asked.
#[tactic(auto, unfolding(crate::specs::BrokenPromises::broken_open))]
pub fn a_change_of_names_to_others_is_refused()
    ensures broken { ¬ NamesChangeAsAsked (past creating) created_otherwise }
    ensures kept { IsKeptBut (26 ∷ 27 ∷ []) (past creating) created_otherwise }
{}

/// A new file whose ask was answered before, with a refusal. Before that answer it isn't a fault.
#[tactic(auto, unfolding(crate::specs::BrokenPromises::broken_open))]
pub fn a_change_of_names_that_was_refused_is_refused()
    ensures broken { ¬ NamesChangeAsAsked past_refused created_as_asked }
    ensures kept { IsKeptBut (26 ∷ 27 ∷ []) past_refused created_as_asked }
    ensures before { IsKeptBut [] (past creating) created_as_asked }
{}

/// A new file whose ask is answered as if it had been there before, by a refusal that comes later.
/// That it was made isn't a fault.
#[tactic(auto, unfolding(crate::specs::BrokenPromises::broken_open))]
pub fn a_change_of_names_that_is_answered_as_another_is_refused()
    ensures broken { ¬ NamesChangeOnce past_created created_and_refused }
    ensures kept { IsKeptBut (27 ∷ []) past_created created_and_refused }
    ensures said { IsKeptBut [] past_created created_and_told }
{}

/// A new file that is removed, and then made again by the same ask. Up to the removal it isn't a
/// fault.
#[tactic(auto, unfolding(crate::specs::BrokenPromises::broken_open))]
pub fn a_second_change_of_names_by_one_ask_is_refused()
    ensures broken { ¬ NamesChangeOnce past_removed created_again }
    ensures kept { IsKeptBut (27 ∷ []) past_removed created_again }
    ensures before { IsKeptBut [] (past_first removing) removed_then }
{}

/// One new file that two asks are told about. That the first of them is told isn't a fault.
#[tactic(auto, unfolding(crate::specs::BrokenPromises::broken_open))]
pub fn one_change_of_names_for_two_asks_is_refused()
    ensures broken { ¬ NamesChangeOnce past_told told_too }
    ensures kept { IsKeptBut (27 ∷ []) past_told told_too }
    ensures before { IsKeptBut [] (past_first creating_too) told_first }
{}

/// A cut that was done, and whose ask is answered as if it had not been. That it was done isn't a
/// fault.
#[tactic(auto, unfolding(crate::specs::BrokenPromises::broken_open))]
pub fn a_cut_that_is_answered_as_not_done_is_refused()
    ensures broken { ¬ RefusalsChangeNothing past_done done_and_quiesced }
    ensures kept { IsKeptBut (28 ∷ []) past_done done_and_quiesced }
    ensures said { IsKeptBut [] past_done done_and_told }
{}

/// A cut that was done and acknowledged, and whose ask is answered by a refusal that comes later.
#[tactic(auto, unfolding(crate::specs::BrokenPromises::broken_open))]
pub fn a_cut_that_is_refused_later_is_refused()
    ensures broken { ¬ RefusalsChangeNothing past_sent done_and_refused }
    ensures kept { IsKeptBut (28 ∷ []) past_sent done_and_refused }
{}
