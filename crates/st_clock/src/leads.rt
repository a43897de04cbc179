// How far one node's clock ran ahead of each other clock.
ghost use Rattle.std.specs.Prelude.{◌≡◌, ◌≤◌, ◌<◌, ◌+◌, ◌*◌, ◌^◌, IfOk, length, replicate};
ghost use Rattle.st_rules.specs.Leases as leases;
ghost use Rattle.st_clock.specs.Drifts.{IsLow};

use st_rules::Excess;
use std::alloc::{AllocError, Global};
use std::marker::Model;

/// How far the clock of one node ran ahead of each clock: number `n` is the lead over node `n`, at
/// most 2^60. Contracts see it as the list of its numbers.
#[derive(Drop)]
pub struct Leads {
    numbers: Vec<u128>,
}

impl Model for Leads {
    ghost use Rattle.std.specs.Prelude.{List, ℕ};
    ghost use Rattle.st_clock.specs.Drifts.{IsLow};

    ghost Value = { List ℕ };

    ghost view = { λ r. r.numbers.items };

    ghost invariant = { λ r. IsLow r.numbers.items };
}

/// The lead of a node that gained `sm` over one that gained `sn`, if it was `e` before.
fn raised(e: u128, sm: u64, sn: u64, num: u64, den: u64) -> u128
    requires { e ≤ 2 ^ 60 }
    ensures { result ≡ leases.raised num den e sm sn }
{
    (e + den as u128 * sm as u128).saturating_sub(num as u128 * sn as u128)
}

#[tactic(auto, unfolding(st_rules::specs::Leases::leases_open))]
fn first_above(
    numbers: &[u128],
    limit: u128,
    m: usize,
    sm: u64,
    steps: &[u64],
    num: u64,
    den: u64,
) -> Option<Excess>
    requires whole { length steps.now ≡ length numbers.now }
    requires low { IsLow numbers.now }
    ensures { result ≡ leases.excess_in_row limit m 0 (leases.raise_row num den sm steps.now numbers.now) }
{
    let mut n = 0;
    for e in numbers {
        let excess = raised(*e, sm, steps[n], num, den);
        if limit < excess {
            return Some(Excess { m, n, excess });
        }
        n += 1;
    }
    None
}

#[tactic(auto, unfolding(st_rules::specs::Leases::leases_open))]
fn raise_all(numbers: &mut Vec<u128>, sm: u64, steps: &[u64], num: u64, den: u64)
    requires whole { length steps.now ≡ length numbers.old.items }
    requires low { IsLow numbers.old.items }
    ensures { numbers.new.items ≡ leases.raise_row num den sm steps.now numbers.old.items }
{
    for n in 0..steps.len() {
        numbers[n] = raised(numbers[n], sm, steps[n], num, den);
    }
}

impl Leads {
    /// The leads before the first advance: zeros, one for each of `nodes` clocks.
    pub fn new(alloc: Global, nodes: usize) -> Result<Leads, AllocError>
        ensures { IfOk result (λ r. r ≡ replicate nodes 0) }
    {
        Ok(Leads {
            numbers: vec![in alloc; 0u128; nodes]?,
        })
    }

    /// The first lead that is above the limit after one more advance, in which this node `m` gains
    /// `sm` and node `n` gains `steps[n]`. It changes nothing and takes no memory.
    pub fn excess(
        &self,
        limit: u128,
        m: usize,
        sm: u64,
        steps: &[u64],
        num: u64,
        den: u64,
    ) -> Option<Excess>
        requires whole { length steps.now ≡ length self.now }
        ensures { result ≡ leases.excess_in_row limit m 0 (leases.raise_row num den sm steps.now self.now) }
    {
        first_above(&self.numbers, limit, m, sm, steps, num, den)
    }

    /// Takes one more advance, in which this node gains `sm` and node `n` gains `steps[n]`. It
    /// takes no memory.
    pub fn raise(&mut self, sm: u64, steps: &[u64], num: u64, den: u64)
        requires whole { length steps.now ≡ length self.old }
        requires low { IsLow (leases.raise_row num den sm steps.now self.old) }
        ensures { self.new ≡ leases.raise_row num den sm steps.now self.old }
    {
        raise_all(&mut self.numbers, sm, steps, num, den);
    }
}
