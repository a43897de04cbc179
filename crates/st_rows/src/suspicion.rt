ghost use Rattle.std.specs.Prelude.{◌≡◌, ◌∷◌, [], true, false, Some, None};
ghost use Rattle.st_base.specs.declared.mode.Mode.TheVariants as modes;
ghost use Rattle.st_rules.specs.Authority as authority;
ghost use Rattle.st_rules.specs.Grace as grace;
ghost use Rattle.st_rows.specs.Script.{settings};
ghost use Rattle.st_rows.specs.Tables.{authority, lock, suspect_since, table};
ghost use Rattle.st_rows.specs.Words.{c, life, stamp};

/// Suspects are in rising order and keep their start; a timer is over at exactly its start and the
/// wait.
#[tactic(auto, unfolding(crate::specs::Tables::tables_open))]
pub fn timers_run_for_the_wait()
    ensures placed { authority.suspect (authority (suspect_since 1 3 ∷ suspect_since 4 1 ∷ [])) (c 2) (stamp 9)
        ≡ authority (suspect_since 1 3 ∷ suspect_since 2 9 ∷ suspect_since 4 1 ∷ []) }
    ensures keeps { authority.suspect (authority (suspect_since 1 3 ∷ [])) (c 1) (stamp 9) ≡ authority (suspect_since 1 3 ∷ []) }
    ensures running { authority.over (authority (suspect_since 1 3 ∷ suspect_since 4 1 ∷ [])) (stamp 1010) ≡ [] }
    ensures over { authority.over (authority (suspect_since 1 3 ∷ suspect_since 2 1 ∷ suspect_since 4 1 ∷ [])) (stamp 1011) ≡ c 2 ∷ c 4 ∷ [] }
    ensures rest { authority.still_running (authority (suspect_since 1 3 ∷ suspect_since 2 1 ∷ suspect_since 4 1 ∷ [])) (stamp 1011)
        ≡ authority (suspect_since 1 3 ∷ []) }
{}

/// Grace is on below its start and the wait, and never if it did not begin.
#[tactic(auto, unfolding(crate::specs::Tables::tables_open))]
pub fn grace_lasts_for_the_wait()
    ensures on { grace.is_on (grace.begin_grace (stamp 5) settings) (stamp 1014) ≡ true }
    ensures off { grace.is_on (grace.begin_grace (stamp 5) settings) (stamp 1015) ≡ false }
    ensures none { grace.is_on (grace.no_grace) (stamp 0) ≡ false }
{}

/// A client's own row is in the way of a reassertion if it has a lower life, and its least file
/// is reported.
#[tactic(auto, unfolding(crate::specs::Tables::tables_open))]
pub fn own_older_rows_are_found()
    ensures least { grace.own_older (table 0 (lock 5 1 9 modes.S None ∷ lock 3 1 8 modes.S None ∷ lock 2 2 7 modes.S None ∷ []) []) (c 1) (life 2) ≡ Some 3 }
    ensures same_life { grace.own_older (table 0 (lock 5 1 9 modes.S None ∷ []) []) (c 1) (life 1) ≡ None }
    ensures other_client { grace.own_older (table 0 (lock 5 2 9 modes.S None ∷ []) []) (c 1) (life 2) ≡ None }
{}
