ghost use Rattle.std.specs.Prelude.{◌≡◌, ◌<◌, ◌≤◌, ◌+◌, ◌^◌, ◌∷◌, ◌++◌, List, ℕ};
ghost use Rattle.std.specs.List.{AllByRecursion};
ghost use Rattle.st_held_steps.specs.Histories.{Event, run, start};
ghost use Rattle.st_held_steps.specs.declared.held.Marked.{Marked};

/// Whatever happens, in whichever order: what was taken is what the first steps gave, each of which
/// has its change kept, and each change before it; what is held is what the other steps gave; if
/// the first of these waits, each of them does; and no more changes wait than may wait.
pub fn nothing_is_given_before_it_is_kept<T>()
    ensures order { (limit : ℕ) (es : List (Event T)) → (run es (start limit)).given ++ (run es (start limit)).held.steps ≡ (run es (start limit)).all }
    ensures kept { (limit : ℕ) (es : List (Event T)) → AllByRecursion (λ m. m.changes ≤ (run es (start limit)).held.kept) (run es (start limit)).given }
    ensures waits { (limit : ℕ) (es : List (Event T)) (m : Marked T) (ms : List (Marked T)) → (run es (start limit)).held.steps ≡ m ∷ ms → (run es (start limit)).held.kept < m.changes
        → AllByRecursion (λ n. (run es (start limit)).held.kept < n.changes) ms }
    ensures few { (limit : ℕ) (es : List (Event T)) → (run es (start limit)).held.made ≤ (run es (start limit)).held.kept + limit }
{}
