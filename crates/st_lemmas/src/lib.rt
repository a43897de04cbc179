//! Lemmas on the definitions of the protocol that several crates share: look-ups in tables after a
//! change, keys in rising order, places of lists, the content of pages, marks on the log, and facts
//! that every step of a run keeps.
#![tactic(auto)]

ghost use Rattle.std.specs.Prelude.{ℕ, List};
ghost use Rattle.st_rules.specs.Keys.{rising};
ghost use Rattle.st_lemmas.specs.Lists.{Has, Rises};

/// The keys of a table are listed in rising order, each once, and these are all.
pub fn keys_in_rising_order()
    ensures rises { (keys : List ℕ) → Rises (rising keys) }
    ensures told { (keys : List ℕ) (key : ℕ) → Has key keys → Has key (rising keys) }
    ensures there { (keys : List ℕ) (key : ℕ) → Has key (rising keys) → Has key keys }
{}
