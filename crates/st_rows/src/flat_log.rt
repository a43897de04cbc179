ghost use Rattle.std.specs.Prelude.{◌≡◌, ◌∷◌, [], ◌++◌, Some, None};
ghost use Rattle.st_base.specs.Page.{filled};
ghost use Rattle.st_rules.specs.declared.log.Cause.TheVariants.{Crash, Failed};
ghost use Rattle.st_rules.specs.declared.log.EntryHead.TheVariants as heads;
ghost use Rattle.st_rules.specs.declared.log.Fate.TheVariants.{Gone, Hard, Pending};
ghost use Rattle.st_rules.specs.FlatLog as log;
ghost use Rattle.st_rows.specs.Logs.{crashed, failed, later_life, of_first_but, of_one_life, other_server, other_client, other_page, patched, the_patch, the_write};
ghost use Rattle.st_rows.specs.Words.{c, file, life, page};

/// What a page holds: its last write with the later patches; a patch over a dropped write applies
/// to zeros; a cut gives zeros to the pages from its first one on; an entry that is gone does not
/// count.
#[tactic(auto, unfolding(crate::specs::Logs::log_rows_open))]
pub fn pages_hold_their_last_changes()
    ensures empty { log.content [] (file 2) (page 0) ≡ filled 0 }
    ensures patched { log.content patched (file 2) (page 0) ≡ log.overlay 4094 (5 ∷ 5 ∷ []) (filled 77) }
    ensures over_dropped { log.content (log.gone patched 1 Crash) (file 2) (page 0) ≡ log.overlay 4094 (5 ∷ 5 ∷ []) (filled 0) }
    ensures dropped { log.content (log.gone patched 2 Crash) (file 2) (page 0) ≡ filled 77 }
    ensures cut { log.content (log.cut patched (file 2) (page 0)) (file 2) (page 0) ≡ filled 0 }
    ensures cut_behind { log.content (log.cut patched (file 2) (page 1)) (file 2) (page 0) ≡ log.overlay 4094 (5 ∷ 5 ∷ []) (filled 77) }
    ensures other_file { log.content patched (file 3) (page 0) ≡ filled 0 }
{}

/// The last entry of a page.
#[tactic(auto, unfolding(crate::specs::Logs::log_rows_open))]
pub fn pages_have_a_last_entry()
    ensures last { log.last patched (file 2) (page 0) ≡ Some 2 }
    ensures dropped { log.last (log.gone patched 2 Crash) (file 2) (page 0) ≡ Some 1 }
    ensures cut { log.last (log.cut patched (file 2) (page 0)) (file 2) (page 7) ≡ Some 3 }
    ensures none { log.last patched (file 2) (page 1) ≡ None }
{}

/// An entry hardens with the earlier ones of its client, life, file and page, and what is gone
/// stays gone.
#[tactic(auto, unfolding(crate::specs::Logs::log_rows_open))]
pub fn entries_harden_together()
    ensures both { log.harden patched 2 ≡ the_write Hard ∷ the_patch Hard ∷ [] }
    ensures first { log.harden patched 1 ≡ the_write Hard ∷ the_patch Pending ∷ [] }
    ensures own { log.harden (other_client Pending ∷ other_page Pending ∷ the_write (Gone Crash) ∷ the_patch Pending ∷ the_write Pending ∷ []) 4
        ≡ other_client Pending ∷ other_page Pending ∷ the_write (Gone Crash) ∷ the_patch Hard ∷ the_write Pending ∷ [] }
{}

/// Dropping reaches only pending entries: those that are picked, each with its page's cause.
#[tactic(auto, unfolding(crate::specs::Logs::log_rows_open))]
pub fn pending_entries_are_dropped()
    ensures one { log.gone patched 1 (Failed 3) ≡ the_write (Gone (Failed 3)) ∷ the_patch Pending ∷ [] }
    ensures hard { log.gone (the_write Hard ∷ []) 1 Crash ≡ the_write Hard ∷ [] }
    ensures spared { log.drop_picked (the_write Pending ∷ the_patch Pending ∷ other_client Pending ∷ other_page Pending ∷ []) (of_first_but 1) crashed
        ≡ the_write Pending ∷ the_patch (Gone Crash) ∷ other_client Pending ∷ other_page (Gone Crash) ∷ [] }
    ensures life { log.drop_picked (the_write Pending ∷ other_client Pending ∷ later_life Pending ∷ other_server Pending ∷ []) of_one_life failed
        ≡ the_write (Gone (Failed 4)) ∷ other_client Pending ∷ later_life Pending ∷ other_server Pending ∷ [] }
    ensures head { log.head_of (log.hard_cut (file 2) (page 4)) ≡ heads.Cut (file 2) (page 4) }
    ensures patch_head { log.head_of (the_patch Hard) ≡ heads.Patch (c 1) (life 1) (file 2) (page 0) }
{}
