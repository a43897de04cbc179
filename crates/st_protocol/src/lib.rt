//! The association of one client with one server, as a machine: the laws of one server that stops
//! and starts, and all its clients.
#![tactic(auto)]

ghost use Rattle.std.specs.Prelude.{ℕ};
ghost use Rattle.st_protocol.specs.Assoc.{Alone, Config, ConfigOk, Exactly, Exclusive, NoConflict, OneLife, Reached, TheftIsLate, World};

/// In every reached state: no two living clients hold conflicting locks; if one holds an
/// exclusive lock, no other has a row, the lock has its row's number, and what is written stays
/// under it; one life reasserts in an epoch, and conflicts with no row; and a timer that is over
/// finds the end of every lease of its client reached.
pub fn over_restarts()
    ensures exclusive { (k : Config) (w : World) → ConfigOk k → Reached k w → Exclusive k w }
    ensures alone { (k : Config) (w : World) → ConfigOk k → Reached k w → Alone k w }
    ensures exactly { (k : Config) (w : World) → ConfigOk k → Reached k w → (c : ℕ) → Exactly k (w.at c) }
    ensures one_life { (k : Config) (w : World) → ConfigOk k → Reached k w → (c : ℕ) → OneLife (w.at c) }
    ensures no_conflict { (k : Config) (w : World) → ConfigOk k → Reached k w → NoConflict w }
    ensures theft { (k : Config) (w : World) → ConfigOk k → Reached k w → (c : ℕ) → TheftIsLate k (w.at c) }
{}
