// What a server's calls are in the histories of its journal's file.
ghost use Rattle.std.specs.Prelude.{◌≡◌, ◌≢◌, ◌⊎◌, ◌++◌, List, Option, Some, None, not, ℕ, length};
ghost use Rattle.st_base.specs.declared.ids.Stamp.{Stamp};
ghost use Rattle.st_extents.specs.Layout.{Shape};
ghost use Rattle.st_journal.specs.declared.change.Change.{Change};
ghost use Rattle.st_journal.specs.declared.change.Change.TheVariants.{Epoch};
ghost use Rattle.st_journal_bytes.specs.Moments.{Dated, dated};
ghost use Rattle.st_journal_bytes.specs.declared.header.Identity.{Identity};
ghost use Rattle.st_journal_file.specs.Histories.{IsLeft, IsReached};
ghost use Rattle.st_journal_file.specs.Layout.{File, after_changes};
ghost use Rattle.st_kept_journal.specs.Driven.{IsPutInArea, IsPutInSwitch};
ghost use Rattle.st_kept_journal.specs.declared.task.Task.TheVariants as tasks;
ghost use Rattle.st_kept_journal.specs.declared.task.Write.{Write};
ghost use Rattle.st_kept_histories.specs.Histories.{IsFileOf, IsKeptIn, Makes, MakesAny, Past, SyncsTo, WritesTo};
ghost use Rattle.st_kept_histories.specs.Kept.{BeginsGroup, BeginsSnapshot, Ends, KeptServer, Starves, Steps, synced, taken};
ghost use Rattle.st_kept_histories.specs.Opened.{Opens};
ghost use Rattle.st_kept_histories.specs.declared.stage.Stage.TheVariants as stages;
ghost use Rattle.st_kept_histories.specs.declared.stage.Stage.TheVariants.{Rest};
ghost use Rattle.st_rules.specs.declared.input.ServerInput.{ServerInput};
ghost use Rattle.st_server_states.specs.States.{Keeps, State, states};
ghost use Rattle.st_stable_file.specs.Formats.{IsOfStables, IsOpened};
ghost use Rattle.st_stable_file.specs.OpenedFile.{shape_of};

/// A server that is kept as told outlives a crash at any moment. What is left of its file can be
/// opened: it stands for the stable part after all changes whose frames could be taken, and after
/// the first ones of those that waited.
pub fn a_kept_server_outlives_crashes()
    // A server that is opened is beside its file, with the change that begins its epoch.
    ensures opened { (i : Identity) (k : Keeps (shape_of i)) (start : Dated (State (shape_of i))) (header : List ℕ) (p : Past (shape_of i)) (bytes : List ℕ) (now : Stamp)
        (limit : ℕ) (e : KeptServer)
        → IsReached (dated (states (shape_of i) k)) start header p → IsFileOf (shape_of i) i bytes p → (state : Dated (State (shape_of i)))
        → after_changes (dated (states (shape_of i) k)) (Some start) p.kept ≡ Some state → Opens bytes i now limit e
        → (q : Past (shape_of i)) × (Makes (shape_of i) p q now.0 Epoch × IsKeptIn (shape_of i) k start header (length p.kept) e q) }
    // A step makes a change, or none,
    ensures stepped { (s : Shape) (k : Keeps s) (start : Dated (State s)) (header : List ℕ) (first : ℕ) (old new : KeptServer) (p : Past s) (now : Stamp)
        (input : ServerInput)
        → IsKeptIn s k start header first old p → Steps old new now input →
        (q : Past s) × (MakesAny s p q now.0 new.server.changed × IsKeptIn s k start header first new q) }
    // also if memory runs out in it.
    ensures starved { (s : Shape) (k : Keeps s) (start : Dated (State s)) (header : List ℕ) (first : ℕ) (old new : KeptServer) (p : Past s) (now : Stamp)
        (input : ServerInput)
        → IsKeptIn s k start header first old p → Starves old new now input
        → (q : Past s) × ((change : Option Change) × (MakesAny s p q now.0 change × IsKeptIn s k start header first new q)) }
    // A group, a snapshot, a gate and the switch are written where they belong.
    ensures group { (s : Shape) (k : Keeps s) (start : Dated (State s)) (header : List ℕ) (first : ℕ) (old new : KeptServer) (p : Past s) (w : Write) (file : File)
        → IsKeptIn s k start header first old p → BeginsGroup old new w → IsPutInArea w old.journal.area old.journal.second p.seen file
        → (q : Past s) × (WritesTo s p q file × IsKeptIn s k start header first new q) }
    ensures snapshot { (s : Shape) (k : Keeps s) (start : Dated (State s)) (header : List ℕ) (first : ℕ) (old new : KeptServer) (p : Past s) (w : Write) (file : File)
        → IsKeptIn s k start header first old p → BeginsSnapshot old new w → IsPutInArea w old.journal.area (not old.journal.second) p.seen file
        → (q : Past s) × (WritesTo s p q file × IsKeptIn s k start header first new q) }
    ensures gate { (s : Shape) (k : Keeps s) (start : Dated (State s)) (header : List ℕ) (first : ℕ) (old new : KeptServer) (p : Past s) (w : Write) (file : File)
        (count : ℕ)
        → IsKeptIn s k start header first old p → Ends old new w → old.journal.task ≡ tasks.Group count →
        IsPutInArea w old.journal.area old.journal.second p.seen file
        → (q : Past s) × (WritesTo s p q file × IsKeptIn s k start header first new q) }
    ensures switch { (s : Shape) (k : Keeps s) (start : Dated (State s)) (header : List ℕ) (first : ℕ) (old new : KeptServer) (p : Past s) (w : Write) (file : File)
        (count gate : ℕ)
        → IsKeptIn s k start header first old p → Ends old new w → old.journal.task ≡ tasks.Switch count gate → IsPutInSwitch w p.seen file
        → (q : Past s) × (WritesTo s p q file × IsKeptIn s k start header first new q) }
    // What was written is synced.
    ensures synced { (s : Shape) (k : Keeps s) (start : Dated (State s)) (header : List ℕ) (first : ℕ) (e : KeptServer) (p : Past s)
        → IsKeptIn s k start header first e p → e.stage ≢ Rest → e.stage ≢ stages.Written →
        (q : Past s) × (SyncsTo s p q × IsKeptIn s k start header first (synced e) q) }
    // What steps gave is taken.
    ensures taken { (s : Shape) (k : Keeps s) (start : Dated (State s)) (header : List ℕ) (first : ℕ) (e : KeptServer) (p : Past s)
        → IsKeptIn s k start header first e p → IsKeptIn s k start header first (taken e) p }
    // A crash at any moment leaves a file that is opened.
    ensures crashed { (s : Shape) (k : Keeps s) (i : IsOfStables s (states s k)) (start : Dated (State s)) (header : List ℕ) (first : ℕ) (e : KeptServer) (p : Past s)
        (left : File)
        → IsKeptIn s k start header first e p → IsLeft p.synced p.seen left → IsOpened s (states s k) i start p left }
{}
