ghost use Rattle.std.specs.Prelude.{◌≡◌, ◌∷◌, [], true, false, Ok, Err, Some, None};
ghost use Rattle.st_base.specs.declared.mode.Mode.TheVariants as modes;
ghost use Rattle.st_rules.specs.declared.locks.AcquireRefusal.TheVariants.{TooManyLocks};
ghost use Rattle.st_rules.specs.declared.locks.InstallRefusal.TheVariants.{Conflict};
ghost use Rattle.st_rules.specs.declared.locks.Verdict.TheVariants.{Granted, Queued};
ghost use Rattle.st_rules.specs.Keys as keys;
ghost use Rattle.st_rules.specs.Locks as locks;
ghost use Rattle.st_rows.specs.Script.{settings};
ghost use Rattle.st_rows.specs.Tables.{demand, lock, shared_files, table, wait};
ghost use Rattle.st_rows.specs.Words.{c, g, life, stamp};

/// A lock in nobody's way is granted; after a holder or a waiter it is queued, and those are named
/// in rising order; in grace it is queued though nobody is in its way; a held lock is granted once
/// more.
#[tactic(auto, unfolding(crate::specs::Tables::tables_open))]
pub fn locks_are_granted_or_queued()
    ensures granted { locks.acquire (table 0 [] []) (c 2) (life 1) 2 modes.S true
        ≡ Ok (record { locks = table 1 (lock 2 2 4294967297 modes.S None ∷ []) []; verdict = Granted (g 4294967297) modes.S }) }
    ensures queued { locks.acquire (table 1 (lock 2 3 4294967297 modes.X None ∷ []) (wait 2 1 modes.X ∷ [])) (c 2) (life 1) 2 modes.S true
        ≡ Ok (record {
          locks = table 1 (lock 2 3 4294967297 modes.X None ∷ []) (wait 2 1 modes.X ∷ wait 2 2 modes.S ∷ []);
          verdict = Queued (c 1 ∷ c 3
              ∷ []);
        }) }
    ensures waits_longer { locks.acquire (table 1 (lock 2 3 4294967297 modes.X None ∷ []) (wait 2 2 modes.X ∷ wait 2 1 modes.X
        ∷ [])) (c 2) (life 1) 2 modes.S true
        ≡ Ok (record {
          locks = table 1 (lock 2 3 4294967297 modes.X None ∷ []) (wait 2 2 modes.X ∷ wait 2 1 modes.X ∷ []);
          verdict = Queued (c 1 ∷ c 3
              ∷ []);
        }) }
    ensures told_once { locks.in_the_way (table 1 (lock 2 3 4294967297 modes.S None ∷ []) (wait 2 3 modes.X ∷ wait 3 4 modes.X ∷ [])) (c 2) 2 modes.X
        ≡ c 3 ∷ [] }
    ensures in_grace { locks.acquire (table 0 [] []) (c 2) (life 1) 2 modes.S false
        ≡ Ok (record { locks = table 0 [] (wait 2 2 modes.S ∷ []); verdict = Queued [] }) }
    ensures held { locks.acquire (table 1 (lock 2 2 4294967297 modes.X None ∷ []) []) (c 2) (life 1) 2 modes.S false
        ≡ Ok (record { locks = table 1 (lock 2 2 4294967297 modes.X None ∷ []) []; verdict = Granted (g 4294967297) modes.X }) }
    ensures raised { locks.acquire (table 1 (lock 2 2 4294967297 modes.S (Some (demand modes.None 0 None)) ∷ []) []) (c 2) (life 1) 2 modes.X true
        ≡ Ok (record { locks = table 2 (lock 2 2 4294967298 modes.X None ∷ []) []; verdict = Granted (g 4294967298) modes.X }) }
{}

/// Keys are listed in rising order, each once.
#[tactic(auto, unfolding(crate::specs::Tables::tables_open))]
pub fn keys_rise()
    ensures rising { keys.rising (3 ∷ 1 ∷ 3 ∷ 2 ∷ []) ≡ 1 ∷ 2 ∷ 3 ∷ [] }
    ensures least { keys.least (3 ∷ 1 ∷ 2 ∷ []) ≡ Some 1 }
    ensures none { keys.least [] ≡ None }
{}

/// A client has locks and waits on 1,024 files at most.
#[tactic(auto, unfolding(crate::specs::Tables::tables_open))]
pub fn locks_are_counted_by_files()
    ensures refused { locks.acquire (shared_files 1024) (c 1) (life 1) 1026 modes.S true ≡ Err TooManyLocks }
    ensures below { locks.has_place (shared_files 1023) (c 1) 1026 ≡ true }
{}

/// A release wants the row's life and grant number; sharing meets a demand to share, and answers a
/// demand for all.
#[tactic(auto, unfolding(crate::specs::Tables::tables_open))]
pub fn releases_name_their_grant()
    ensures other_grant { locks.released (table 2 (lock 2 1 4294967298 modes.X None ∷ []) []) (c 1) (life 1) 2 (g 4294967297) modes.None
        ≡ record { locks = table 2 (lock 2 1 4294967298 modes.X None ∷ []) []; found = false } }
    ensures other_life { locks.released (table 2 (lock 2 1 4294967298 modes.X None ∷ []) []) (c 1) (life 2) 2 (g 4294967298) modes.None
        ≡ record { locks = table 2 (lock 2 1 4294967298 modes.X None ∷ []) []; found = false } }
    ensures gone { locks.released (table 2 (lock 2 1 4294967298 modes.X None ∷ []) []) (c 1) (life 1) 2 (g 4294967298) modes.None
        ≡ record { locks = table 2 [] []; found = true } }
    ensures met { locks.released (table 1 (lock 2 1 4294967297 modes.X (Some (demand modes.S 5 (Some 5))) ∷ []) []) (c 1) (life 1) 2 (g 4294967297) modes.S
        ≡ record { locks = table 1 (lock 2 1 4294967297 modes.S None ∷ []) []; found = true } }
    ensures not_met { locks.released (table 1 (lock 2 1 4294967297 modes.X (Some (demand modes.None 5 (Some 5)))
        ∷ []) []) (c 1) (life 1) 2 (g 4294967297) modes.S
        ≡ record { locks = table 1 (lock 2 1 4294967297 modes.S (Some (demand modes.None 5 None)) ∷ []) []; found = true } }
{}

/// All locks and waits of a client are forgotten, or only its waits, or all waits for a file.
#[tactic(auto, unfolding(crate::specs::Tables::tables_open))]
pub fn locks_are_forgotten()
    ensures all { locks.forget (table 3 (lock 2 1 7 modes.S None ∷ lock 2 2 8 modes.S None ∷ []) (wait 3 2 modes.S ∷ wait 3 1 modes.X ∷ [])) (c 1)
        ≡ table 3 (lock 2 2 8 modes.S None ∷ []) (wait 3 2 modes.S ∷ []) }
    ensures waits { locks.drop_waits (table 3 (lock 2 1 7 modes.S None ∷ []) (wait 3 2 modes.S ∷ wait 3 1 modes.X ∷ [])) (c 1)
        ≡ table 3 (lock 2 1 7 modes.S None ∷ []) (wait 3 2 modes.S ∷ []) }
    ensures of_a_file { locks.drop_file_waits (table 3 (lock 2 1 7 modes.S None ∷ []) (wait 3 2 modes.S ∷ wait 2 3 modes.X ∷ [])) 2
        ≡ table 3 (lock 2 1 7 modes.S None ∷ []) (wait 3 2 modes.S ∷ []) }
{}

/// Rows are installed all or none.
#[tactic(auto, unfolding(crate::specs::Tables::tables_open))]
pub fn rows_are_installed_all_or_none()
    ensures conflict { locks.install (table 0 (lock 3 3 9 modes.S None ∷ lock 3 1 8 modes.S None ∷ []) []) (c 2) (life 4) ((2, g 5, modes.X)
        ∷ (3, g 6, modes.X) ∷ [])
        ≡ Err (Conflict 3 (c 1)) }
    ensures installed { locks.rows_of (locks.with_rows (table 0 [] []) (c 2) (life 4) ((2, g 5, modes.X) ∷ (3, g 6, modes.S) ∷ [])) (c 2)
        ≡ (2, g 5, modes.X) ∷ (3, g 6, modes.S) ∷ [] }
    ensures holders { locks.holders (table 0 (lock 3 3 9 modes.S None ∷ lock 2 1 7 modes.X None ∷ lock 3 1 8 modes.S None ∷ []) []) 3
        ≡ (c 1, g 8, modes.S) ∷ (c 3, g 9, modes.S) ∷ [] }
{}

/// A demand is unanswered from the settings' time on, and not before.
#[tactic(auto, unfolding(crate::specs::Tables::tables_open))]
pub fn demands_grow_old()
    ensures young { locks.unanswered (table 1 (lock 2 1 4294967297 modes.X (Some (demand modes.S 5 (Some 5))) ∷ []) []) (stamp 104) settings ≡ [] }
    ensures old { locks.unanswered (table 1 (lock 2 1 4294967297 modes.X (Some (demand modes.S 5 (Some 5))) ∷ []) []) (stamp 105) settings ≡ c 1 ∷ [] }
    ensures seen { locks.unanswered (locks.demand_seen (table 1 (lock 2 1 4294967297 modes.X (Some (demand modes.S 5 (Some 5)))
        ∷ []) []) (c 1) 2 (g 4294967297)) (stamp 105) settings
        ≡ [] }
{}

/// A demand is seen by the row's own client, under its grant number, on its file.
#[tactic(auto, unfolding(crate::specs::Tables::tables_open))]
pub fn seen_demands_name_their_grant()
    ensures seen { locks.demand_seen (table 1 (lock 2 1 7 modes.X (Some (demand modes.S 5 (Some 5))) ∷ []) []) (c 1) 2 (g 7)
        ≡ table 1 (lock 2 1 7 modes.X (Some (demand modes.S 5 None)) ∷ []) [] }
    ensures other_grant { locks.demand_seen (table 1 (lock 2 1 7 modes.X (Some (demand modes.S 5 (Some 5))) ∷ []) []) (c 1) 2 (g 6)
        ≡ table 1 (lock 2 1 7 modes.X (Some (demand modes.S 5 (Some 5))) ∷ []) [] }
    ensures other_file { locks.demand_seen (table 1 (lock 2 1 7 modes.X (Some (demand modes.S 5 (Some 5))) ∷ []) []) (c 1) 3 (g 7)
        ≡ table 1 (lock 2 1 7 modes.X (Some (demand modes.S 5 (Some 5))) ∷ []) [] }
    ensures other_client { locks.demand_seen (table 1 (lock 2 1 7 modes.X (Some (demand modes.S 5 (Some 5))) ∷ []) []) (c 2) 2 (g 7)
        ≡ table 1 (lock 2 1 7 modes.X (Some (demand modes.S 5 (Some 5))) ∷ []) [] }
{}

/// A demand goes to every row that is in the first waiter's way, except for those of suspects, in
/// rising order of clients; a wish for more than was demanded changes nothing; and a lower one
/// lowers it.
#[tactic(auto, unfolding(crate::specs::Tables::tables_open))]
pub fn demands_follow_the_first_waiter()
    ensures all { locks.demands_due (table 3 (lock 2 4 7 modes.S None ∷ lock 2 3 8 modes.S None ∷ lock 2 2 9 modes.S None ∷ []) (wait 2 1 modes.X
        ∷ [])) (stamp 6) false (c 3 ∷ []) settings
        ≡ record {
          locks = table 3 (lock 2 4 7 modes.S (Some (demand modes.None 6 (Some 6))) ∷ lock 2 3 8 modes.S None
              ∷ lock 2 2 9 modes.S (Some (demand modes.None 6 (Some 6))) ∷ []) (wait 2 1 modes.X ∷ []);
          due = (c 2, life 1, 2, g 9, modes.None) ∷ (c 4, life 1, 2, g 7, modes.None) ∷ [];
        } }
    ensures kept { locks.demands_due (table 1 (lock 2 4 7 modes.X (Some (demand modes.None 0 None)) ∷ []) (wait 2 1 modes.S ∷ [])) (stamp 50) true [] settings
        ≡ record {
          locks = table 1 (lock 2 4 7 modes.X (Some (demand modes.None 50 (Some 50))) ∷ []) (wait 2 1 modes.S ∷ []);
          due = (c 4, life 1, 2, g 7, modes.None) ∷ [];
        } }
    ensures quiet { locks.demands_due (table 1 (lock 2 4 7 modes.X (Some (demand modes.None 0 None)) ∷ []) (wait 2 1 modes.S ∷ [])) (stamp 50) false [] settings
        ≡ record { locks = table 1 (lock 2 4 7 modes.X (Some (demand modes.None 0 None)) ∷ []) (wait 2 1 modes.S ∷ []); due = [] } }
    ensures lowered { locks.demands_due (table 1 (lock 2 4 7 modes.X (Some (demand modes.S 0 (Some 0))) ∷ []) (wait 2 1 modes.X
        ∷ [])) (stamp 5) false [] settings
        ≡ record {
          locks = table 1 (lock 2 4 7 modes.X (Some (demand modes.None 5 (Some 0))) ∷ []) (wait 2 1 modes.X ∷ []);
          due = (c 4, life 1, 2, g 7, modes.None) ∷ [];
        } }
{}
