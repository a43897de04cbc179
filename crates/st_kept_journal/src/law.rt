// What a keeper's calls are in the histories of a journal's file.
ghost use Rattle.std.specs.Prelude.{◌≡◌, ◌<◌, ◌^◌, ◌∷◌, ◌++◌, [], List, Some, not, ℕ, length};
ghost use Rattle.st_journal_file.specs.Histories.{Gate, IsReached, Keeper};
ghost use Rattle.st_journal_file.specs.Histories as phases;
ghost use Rattle.st_journal_file.specs.Layout.{File, Format, StandsFor, after_changes, area_of};
ghost use Rattle.st_journal_bytes.specs.Areas.{IsRead};
ghost use Rattle.st_journal_bytes.specs.Plain.{HasSum};
ghost use Rattle.st_journal_bytes.specs.declared.area.AreaEnd.{AreaEnd};
ghost use Rattle.st_kept_journal.specs.Driven.{GoesTo, IsDriven, IsPutInArea, IsPutInSwitch, KeepsGroupTo, MovesSwitchTo, OpensGateTo, SwitchesTo, WritesGroupTo, WritesSnapshotTo};
ghost use Rattle.st_kept_journal.specs.Keeping.{Keeping, MovesSwitch, OpensGate, WritesGroup, WritesSnapshot, added, group_begun, group_kept, switch_begun, switched};
ghost use Rattle.st_kept_journal.specs.declared.task.Task.TheVariants.{Group, Rest, Switch};
ghost use Rattle.st_kept_journal.specs.declared.task.Write.{Write};

/// Each call of a keeper, with the write and the sync that the program does then, is a move of the
/// histories of a journal's file. So a crash at any moment leaves a file that is opened, with each
/// change that is kept (`st_journal_file::a_file_outlives_crashes`).
pub fn a_keeper_keeps_the_file<S, C>()
    // The keeper is opened at the closed gate that was read in the area that counts.
    ensures opened { (f : Format S C) (start : S) (k : Keeper S C) (area : ℕ) (e : AreaEnd) → HasSum f → k.phase ≡ phases.Idle → k.waiting ≡ []
        → StandsFor f start (area_of k.current k.seen) k.kept → length (area_of k.current k.seen) < 2 ^ 32 → IsRead (area_of k.current k.seen) e
        → IsDriven f start (record { area = area; second = k.current; gate = e.gate; waiting = []; task = Rest }) k }
    // A change waits, whatever is under way.
    ensures added { (f : Format S C) (start : S) (header : List ℕ) (j : Keeping) (k : Keeper S C) (x : C) → HasSum f → IsDriven f start j k
        → GoesTo f start header (added j (f.spelled x)) k (record k { waiting = k.waiting ++ x ∷ [] }) }
    // All that waits is written as a group, and synced; its gate is opened, and synced.
    ensures group { (f : Format S C) (start : S) (header : List ℕ) (j : Keeping) (k : Keeper S C) (w : Write) (x : C) (xs : List C) (file : File) → HasSum f → IsDriven f start j k → j.task ≡ Rest
        → k.waiting ≡ x ∷ xs → WritesGroup j w → IsPutInArea w j.area j.second k.seen file → WritesGroupTo f start header (group_begun j) k file }
    ensures group_synced { (f : Format S C) (start : S) (header : List ℕ) (j : Keeping) (k : Keeper S C) (g : Gate S C) → HasSum f → IsDriven f start j k → k.phase ≡ phases.Writing g
        → GoesTo f start header j k (record k { phase = phases.Written g; synced = k.seen }) }
    ensures gate { (f : Format S C) (start : S) (header : List ℕ) (j : Keeping) (k : Keeper S C) (w : Write) (g : Gate S C) (file : File) → HasSum f → IsReached f start header k → IsDriven f start j k
        → k.phase ≡ phases.Written g → OpensGate j w → IsPutInArea w j.area j.second k.seen file → OpensGateTo f start header j k g file }
    ensures gate_synced { (f : Format S C) (start : S) (header : List ℕ) (j : Keeping) (k : Keeper S C) (g : Gate S C) (count : ℕ) → HasSum f → IsReached f start header k → IsDriven f start j k
        → k.phase ≡ phases.Opening g → j.task ≡ Group count → KeepsGroupTo f start header (group_kept j count) k g }
    // A snapshot with all that waits is written in the other area, and synced; the switch is moved,
    // and synced.
    ensures snapshot { (f : Format S C) (start : S) (header : List ℕ) (j : Keeping) (k : Keeper S C) (w : Write) (state : S) (file : File) → HasSum f → IsDriven f start j k → j.task ≡ Rest
        → WritesSnapshot j (f.snapshot state) w → IsPutInArea w j.area (not j.second) k.seen file → Some state ≡ after_changes f (Some start) (k.kept ++ k.waiting)
        → WritesSnapshotTo f start header (switch_begun j (f.snapshot state)) k file }
    ensures snapshot_synced { (f : Format S C) (start : S) (header : List ℕ) (j : Keeping) (k : Keeper S C) → HasSum f → IsDriven f start j k → k.phase ≡ phases.Idle
        → GoesTo f start header j k (record k { synced = k.seen }) }
    ensures prepared { (f : Format S C) (start : S) (header : List ℕ) (j : Keeping) (k : Keeper S C) (count gate : ℕ) → HasSum f → IsDriven f start j k → j.task ≡ Switch count gate → k.phase ≡ phases.Idle
        → k.synced ≡ k.seen → (group : List C) × GoesTo f start header j k (record k { phase = phases.Prepared group }) }
    ensures switch { (f : Format S C) (start : S) (header : List ℕ) (j : Keeping) (k : Keeper S C) (w : Write) (group : List C) (file : File) → HasSum f → IsDriven f start j k
        → k.phase ≡ phases.Prepared group → MovesSwitch j w → IsPutInSwitch w k.seen file → MovesSwitchTo f start header j k group file }
    ensures switch_synced { (f : Format S C) (start : S) (header : List ℕ) (j : Keeping) (k : Keeper S C) (count gate : ℕ) (group : List C) → HasSum f → IsDriven f start j k
        → j.task ≡ Switch count gate → k.phase ≡ phases.Switching group → SwitchesTo f start header (switched j count gate) k group }
{}
