ghost use Rattle.std.specs.Prelude.{◌≡◌, ◌∷◌, [], true, false, Ok, Err};
ghost use Rattle.st_rules.specs.declared.lease.Phase.TheVariants.{Valid, Renewal, Quiesce, Flush, Expired};
ghost use Rattle.st_rules.specs.Leases as leases;
ghost use Rattle.st_rows.specs.Script.{settings, grainy_settings};
ghost use Rattle.st_rows.specs.Words.{stamp};

/// The wait before a theft, without a grain, with one, and if the division leaves a remainder.
#[tactic(auto, unfolding(st_rules::specs::Rules::rules_open))]
pub fn a_server_waits_for_the_slowest_clock()
    ensures plain { leases.steal_wait settings ≡ 1010 }
    ensures grain { leases.steal_wait grainy_settings ≡ 1015 }
    ensures rest { leases.steal_wait (record settings { lease = 1001 }) ≡ 1012 }
{}

/// Each phase begins at its own age, and a condemned lease is in quiesce at least.
#[tactic(auto, unfolding(st_rules::specs::Rules::rules_open))]
pub fn phases_begin_at_their_ages()
    ensures valid { leases.phase settings (stamp 7) false (stamp 506) ≡ Valid }
    ensures renewal { leases.phase settings (stamp 7) false (stamp 507) ≡ Renewal }
    ensures last_renewal { leases.phase settings (stamp 7) false (stamp 706) ≡ Renewal }
    ensures quiesce { leases.phase settings (stamp 7) false (stamp 707) ≡ Quiesce }
    ensures flush { leases.phase settings (stamp 7) false (stamp 857) ≡ Flush }
    ensures last_flush { leases.phase settings (stamp 7) false (stamp 1006) ≡ Flush }
    ensures expired { leases.phase settings (stamp 7) false (stamp 1007) ≡ Expired }
    ensures condemned { leases.phase settings (stamp 7) true (stamp 7) ≡ Quiesce }
    ensures condemned_flush { leases.phase settings (stamp 7) true (stamp 857) ≡ Flush }
{}

/// Increments are in bound up to the rate, and each is at least 1.
#[tactic(auto, unfolding(st_rules::specs::Rules::rules_open))]
pub fn rates_are_bounded()
    ensures within { leases.rate_ok (101 ∷ 100 ∷ 100 ∷ []) 101 100 ≡ true }
    ensures above { leases.rate_ok (102 ∷ 100 ∷ 100 ∷ []) 101 100 ≡ false }
    ensures least { leases.rate_ok (1 ∷ 1 ∷ []) 101 100 ≡ true }
    ensures still { leases.rate_ok (0 ∷ 0 ∷ []) 101 100 ≡ false }
{}

/// Clocks drift apart over intervals: a node may gain 6 and then 1 on the others, and not 2 more; a
/// node whose clock stands still is overtaken at once.
#[tactic(auto, unfolding(st_rules::specs::Rules::rules_open))]
pub fn drift_adds_up_over_intervals()
    ensures first { leases.drift_step (leases.no_drift 3) (106 ∷ 100 ∷ 100 ∷ []) 101 100 5
        ≡ Ok ((0 ∷ 500 ∷ 500 ∷ []) ∷ ((0 ∷ 0 ∷ 0 ∷ []) ∷ ((0 ∷ 0 ∷ 0 ∷ []) ∷ []))) }
    ensures second { leases.drift_step ((0 ∷ 500 ∷ 500 ∷ []) ∷ ((0 ∷ 0 ∷ 0 ∷ []) ∷ ((0 ∷ 0 ∷ 0 ∷ []) ∷ []))) (101 ∷ 100 ∷ 100 ∷ []) 101 100 5
        ≡ Ok ((0 ∷ 500 ∷ 500 ∷ []) ∷ ((0 ∷ 0 ∷ 0 ∷ []) ∷ ((0 ∷ 0 ∷ 0 ∷ []) ∷ []))) }
    ensures third { leases.drift_step ((0 ∷ 500 ∷ 500 ∷ []) ∷ ((0 ∷ 0 ∷ 0 ∷ []) ∷ ((0 ∷ 0 ∷ 0 ∷ []) ∷ []))) (102 ∷ 100 ∷ 100 ∷ []) 101 100 5
        ≡ Err (record { m = 0; n = 1; excess = 600 }) }
    ensures still { leases.drift_step (leases.drift_after (leases.no_drift 3) (0 ∷ 0 ∷ 5 ∷ []) 101 100) (0 ∷ 0 ∷ 1 ∷ []) 101 100 5
        ≡ Err (record { m = 2; n = 0; excess = 600 }) }
    ensures limit { leases.drift_step (leases.no_drift 3) (0 ∷ 0 ∷ 5 ∷ []) 101 100 5
        ≡ Ok ((0 ∷ 0 ∷ 0 ∷ []) ∷ ((0 ∷ 0 ∷ 0 ∷ []) ∷ ((500 ∷ 500 ∷ 0 ∷ []) ∷ []))) }
{}
