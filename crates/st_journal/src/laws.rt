// Laws of journals over plain lists of bytes.
ghost use Rattle.std.specs.Prelude.{◌≡◌, ◌⊎◌, ◌≤◌, ◌+◌, ◌++◌, ◌∷◌, [], ℕ, List, None, Result, true, length};
ghost use Rattle.st_rules.specs.Server.{Stable};
ghost use Rattle.st_journal.specs.Changes.{fits};
ghost use Rattle.st_store.specs.InMemory.{InMemory, MayLeave, Syncs, Writes, held, recorded, zeros};
ghost use Rattle.st_journal.specs.Journal.{IsDamaged, IsJournal, StandsFor, all_opened, framed};
ghost use Rattle.st_journal.specs.OpenedJournal.{Calls, Opened, Records, acked_after, under_way_after};
ghost use Rattle.st_journal.specs.Stops.{EndsAtStop, IsArmed};
ghost use Rattle.st_journal.specs.Appends.{IsTornAppend, with_open_gate};
ghost use Rattle.st_journal.specs.declared.change.Change.{Change};
ghost use Rattle.st_journal.specs.declared.fault.JournalFault.{JournalFault};

/// Bytes have one journal, and bytes that stand for a stable part are not damaged.
pub fn bytes_have_one_journal()
    ensures one { (bytes : List ℕ) (xs ys : List Change) → IsJournal bytes xs → IsJournal bytes ys → xs ≡ ys }
    ensures whole { (start : Stable) (bytes : List ℕ) (at : ℕ) (xs : List Change) (state : Stable) → StandsFor start bytes xs state → IsDamaged start bytes at → ⊥ }
{}

/// A crash at any moment of an append leaves the journal as it was, or with the change; and when
/// the append is done it has the change.
pub fn appends_survive_crashes()
    ensures any_moment { (bytes : List ℕ) (xs : List Change) (x : Change) (gate : ℕ) (c : List ℕ) → IsJournal bytes xs → gate ≡ length (all_opened xs) → fits x ≡ true
        → gate + 1 + length (framed x ++ 0 ∷ []) ≤ length bytes → IsTornAppend bytes gate (framed x ++ 0 ∷ []) c → IsJournal c xs ⊎ IsJournal c (xs ++ x ∷ []) }
    ensures done { (bytes : List ℕ) (xs : List Change) (x : Change) (gate : ℕ) → IsJournal bytes xs → gate ≡ length (all_opened xs) → fits x ≡ true
        → gate + 1 + length (framed x ++ 0 ∷ []) ≤ length bytes → IsJournal (with_open_gate bytes gate (framed x ++ 0 ∷ [])) (xs ++ x ∷ []) }
{}

/// A store of zeros is a journal with no change.
pub fn zeros_are_an_empty_journal()
    ensures journal { (size : ℕ) → 1 ≤ size → IsJournal (zeros size) [] }
    ensures length { (size : ℕ) → length (zeros size) ≡ size }
{}

/// An append in which a store in memory stops in one of the four calls keeps its change exactly if
/// the stop comes in the third or the fourth and leaves an open gate; or the store had no memory
/// for its record.
pub fn a_stop_keeps_by_its_byte()
    ensures { (old new : Opened InMemory) (acked : List Change) (x : Change) (call byte : ℕ) (result : Result Unit JournalFault)
        → Records (λ s. (held s.contents).seen) (λ s c. MayLeave (recorded s.contents) c) old acked None → IsArmed old.store.plan call byte → 1 ≤ call → call ≤ 4
        → Calls (λ s at bytes r t. Writes s t at bytes r) (λ s r t. Syncs s t r) old new x result
        → Records (λ s. (held s.contents).seen) (λ s c. MayLeave (recorded s.contents) c) new (acked_after result x acked) (under_way_after result x None)
        → EndsAtStop new.store acked x call byte result }
{}
