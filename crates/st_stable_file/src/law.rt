ghost use Rattle.std.specs.Prelude.{◌≡◌, ◌++◌, List, Some, ℕ};
ghost use Rattle.st_extents.specs.Layout.{Shape};
ghost use Rattle.st_journal_bytes.specs.Moments.{Dated, dated};
ghost use Rattle.st_journal_file.specs.Histories.{IsLeft, IsReached, Keeper};
ghost use Rattle.st_journal_file.specs.Layout.{File, Format, StandsFor, after_changes};
ghost use Rattle.st_stable_file.specs.Formats.{IsOfStables, IsOpened, state_of};
ghost use Rattle.st_stable_file.specs.Opened.{CanBeOpened};

/// A journal's file whose states are a server's stable parts. After whatever was written and
/// synced, and whatever crashed and was opened before, what a crash leaves at this moment can be
/// opened (`open_area`: `exact`): as the state after all changes that are kept, and after the first
/// ones of those that waited. No change is refused there that was not refused when it was made.
pub fn a_stable_file_outlives_crashes<S, C>()
    ensures area { (s : Shape) (f : Format S C) (i : IsOfStables s f) (bytes : List ℕ) (start state : Dated S) (changes : List (Dated C)) → StandsFor (dated f) start bytes changes
        → after_changes (dated f) (Some start) changes ≡ Some state → CanBeOpened s bytes (state_of s f i state) }
    ensures file { (s : Shape) (f : Format S C) (i : IsOfStables s f) (start : Dated S) (header : List ℕ) (k : Keeper (Dated S) (Dated C)) (left : File) (last : Dated S) → IsReached (dated f) start header k
        → IsLeft k.synced k.seen left → after_changes (dated f) (Some start) (k.kept ++ k.waiting) ≡ Some last → IsOpened s f i start k left }
{}
