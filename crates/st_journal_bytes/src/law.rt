ghost use Rattle.std.specs.Prelude.{◌≡◌, ◌<◌, ◌^◌, List, Some, ℕ, length, map};
ghost use Rattle.st_journal_bytes.specs.Areas.{IsRead};
ghost use Rattle.st_journal_bytes.specs.Moments.{Dated, after_records, dated, moment_of};
ghost use Rattle.st_journal_bytes.specs.Plain.{HasSum, plain};
ghost use Rattle.st_journal_bytes.specs.declared.area.AreaEnd.{AreaEnd};
ghost use Rattle.st_journal_file.specs.Layout.{Format, IsArea, after_changes, front};

/// The bytes of an area have one snapshot and one list of records, and what is read is where these
/// end.
pub fn an_area_is_read_in_one_way()
    ensures one { (bytes s t : List ℕ) (xs ys : List (List ℕ)) → length bytes < 2 ^ 32 → IsArea plain bytes s xs → IsArea plain bytes t ys → (s ≡ t) × (xs ≡ ys) }
    ensures read { (bytes s : List ℕ) (xs : List (List ℕ)) (e : AreaEnd) → length bytes < 2 ^ 32 → IsRead bytes e → IsArea plain bytes s xs → e.gate ≡ length (front plain s xs) }
{}

/// If each change is spelled with its moment, moments never fall, and what is read in an area as
/// its last moment is the one of the state that it stands for.
pub fn a_journal_has_the_moment_of_its_last_change<S, C>()
    ensures area { (f : Format S C) (bytes : List ℕ) (s : Dated S) (xs : List (Dated C)) → HasSum f → IsArea (dated f) bytes s xs → IsArea plain bytes ((dated f).snapshot s) (map (dated f).spelled xs) }
    ensures moment { (f : Format S C) (s u : Dated S) (xs : List (Dated C)) → after_changes (dated f) (Some s) xs ≡ Some u → after_records (moment_of ((dated f).snapshot s)) (map (dated f).spelled xs) ≡ Some u.moment }
{}
