// The steal wait, and the bound on the rates of one advance.
ghost use Rattle.std.specs.Prelude.{◌≡◌, ◌≤◌, ◌<◌, IsOk, length, nat_le};
ghost use Rattle.std.specs.List.{list_all};
ghost use Rattle.st_base.specs.Config as settings;
ghost use Rattle.st_rules.specs.Leases.{IsStealWait};
ghost use Rattle.st_rules.specs.Leases as leases;
ghost use Rattle.st_clock.specs.Drifts.{InBoundWhereRated};

use st_base::{Config, Stamp};
use st_rules::{advances_in_bound_are_rated, rated_advances_are_in_bound, steal_wait_is_least};

/// How many ticks of its own clock a server waits before it steals a client's locks: the least `w`
/// with `w * den >= lease * num + den * grain`. It takes no memory.
#[tactic(auto, unfolding(st_rules::specs::Leases::steal_wait))]
pub fn steal_wait(config: &Config) -> u64
    requires checked { IsOk (settings.check config.now) }
    ensures exact { result ≡ leases.steal_wait config.now }
    ensures least { IsStealWait config.now result }
{
    steal_wait_is_least();
    let total = config.lease * config.num + config.den * config.grain;
    total.div_ceil(config.den)
}

fn greatest(steps: &[u64]) -> u64
    requires { 0 < length steps.now }
    ensures { result ≡ leases.greatest_of steps.now }
{
    let mut most = steps[0];
    for step in &steps[1..] {
        most = most.max(*step);
    }
    most
}

fn least(steps: &[u64]) -> u64
    requires { 0 < length steps.now }
    ensures { result ≡ leases.least_of steps.now }
{
    let mut fewest = steps[0];
    for step in &steps[1..] {
        fewest = fewest.min(*step);
    }
    fewest
}

fn all_moving(steps: &[u64]) -> bool
    ensures { result ≡ list_all (nat_le 1) steps.now }
{
    steps.iter().all(|step| *step >= 1)
}

/// Whether one advance of all clocks is in bound without a grain: each step is at least 1, and
/// `den * greatest <= num * least`. It takes no memory.
pub fn rate_ok(steps: &[u64], num: u64, den: u64) -> bool
    requires some { 0 < length steps.now }
    ensures exact { result ≡ leases.rate_ok steps.now num den }
    // Without a grain, a run in which every clock moves at each advance is in bound exactly if
    // each advance is.
    ensures law { InBoundWhereRated }
{
    rated_advances_are_in_bound();
    advances_in_bound_are_rated();
    all_moving(steps) && den as u128 * greatest(steps) as u128 <= num as u128 * least(steps) as u128
}

/// How many ticks a clock gained between two of its readings. It takes no memory.
pub fn elapsed(from: Stamp, now: Stamp) -> u64
    requires in_order { from.0 ≤ now.0 }
    ensures exact { result ≡ leases.elapsed from now }
{
    now.0 - from.0
}
