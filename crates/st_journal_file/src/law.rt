ghost use Rattle.std.specs.Prelude.{◌≡◌, List, ℕ};
ghost use Rattle.st_journal_file.specs.Flips.{IsFlipped, IsProper};
ghost use Rattle.st_journal_file.specs.Histories.{IsFound, IsLeft, IsReached, Keeper};
ghost use Rattle.st_journal_file.specs.Layout.{File, Format, IsArea};

/// After whatever was written and synced, and whatever crashed and was opened before, a crash at
/// this moment leaves a file that is opened: it stands for the changes that are kept, whose frames
/// could be taken, and for some of those that waited, the first ones first.
#[tactic(auto, using(crate::proofs::Crashes::found))]
pub fn a_file_outlives_crashes<S, C>()
    ensures { (f : Format S C) (start : S) (header : List ℕ) (k : Keeper S C) (left : File) → IsReached f start header k → IsLeft k.synced k.seen left → IsFound f start header k left }
{}

/// A bit that flips in an area leaves what is opened: if the bytes are still an area, it has the
/// same snapshot and the same records.
pub fn a_flipped_bit_changes_nothing<S, C>()
    ensures { (f : Format S C) (bytes others : List ℕ) (s t : S) (xs ys : List C) → IsProper f → IsArea f bytes s xs → IsFlipped bytes others → IsArea f others t ys → (s ≡ t) × (xs ≡ ys) }
{}
