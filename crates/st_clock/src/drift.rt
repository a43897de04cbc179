// Drift: how far clocks ran apart, with a grain.
ghost use Rattle.std.specs.Prelude.{◌≡◌, ◌≤◌, ◌<◌, ◌+◌, ◌*◌, ◌^◌, ◌↔◌, ◌∷◌, ◌++◌, [], ℕ, List, IsOk, IfOk, IfErr, OnOk, OnErr, length, replicate};
ghost use Rattle.std.specs.List.{AllByRecursion};
ghost use Rattle.st_base.specs.declared.config.Config.{Config};
ghost use Rattle.st_rules.specs.Leases as leases;
ghost use Rattle.st_clock.specs.Drifts.{Accepts, AllLow, HasAccepted, IsWide, Judges, after_step};

use crate::leads::Leads;
use st_rules::{Excess, accepted_advances_are_in_bound, advances_in_bound_are_accepted};
use std::alloc::{AllocError, Global};
use std::marker::Model;

/// How far clocks ran apart: one number for each ordered pair of nodes. Contracts see it as a list
/// of rows, one row for each node, with one number for each node.
#[derive(Drop)]
pub struct Drift {
    rows: Vec<Leads>,
}

impl Model for Drift {
    ghost use Rattle.std.specs.Prelude.{List, ℕ, length};
    ghost use Rattle.st_clock.specs.Drifts.{IsWide};

    ghost Value = { List (List ℕ) };

    ghost view = { λ d. d.rows.items };

    ghost invariant = { λ d. IsWide (length d.rows.items) d.rows.items };
}

/// The first pair whose number is above `den * grain` after one more advance.
#[tactic(auto, unfolding(st_rules::specs::Leases::leases_open))]
fn first_excess(rows: &[Leads], steps: &[u64], num: u64, den: u64, grain: u64) -> Option<Excess>
    requires nodes { length steps.now ≡ length rows.now }
    requires wide { IsWide (length steps.now) rows.now }
    ensures { result ≡ leases.first_excess (leases.drift_after rows.now steps.now num den) den grain }
{
    let limit = den as u128 * grain as u128;
    let mut m = 0;
    for row in rows {
        let found = row.excess(limit, m, steps[m], steps, num, den);
        if found.is_some() {
            return found;
        }
        m += 1;
    }
    None
}

/// Takes one more advance into all numbers.
#[tactic(auto, unfolding(st_rules::specs::Leases::leases_open))]
fn raise_rows(rows: &mut Vec<Leads>, steps: &[u64], num: u64, den: u64)
    requires nodes { length steps.now ≡ length rows.old.items }
    requires wide { IsWide (length steps.now) rows.old.items }
    requires low { AllLow (leases.drift_after rows.old.items steps.now num den) }
    ensures exact { rows.new.items ≡ leases.drift_after rows.old.items steps.now num den }
    ensures nodes { length rows.new.items ≡ length rows.old.items }
{
    for m in 0..steps.len() {
        let row = &mut rows[m];
        row.raise(steps[m], steps, num, den);
    }
}

impl Drift {
    /// The drift of this many nodes before the first advance: every number is 0.
    #[tactic(auto, using(crate::proofs::Numbers::square_zeros), unfolding(st_rules::specs::Leases::no_drift))]
    pub fn new(alloc: Global, nodes: usize) -> Result<Drift, AllocError>
        ensures exact { IfOk result (λ d. d ≡ leases.no_drift nodes) }
        ensures nodes { IfOk result (λ d. length d ≡ nodes) }
        // No advance was accepted yet.
        ensures none { (k : Config) → IfOk result (λ d. HasAccepted k nodes [] d) }
    {
        let mut rows = Vec::new(alloc);
        'rows: while rows.len() < nodes {
            rows.push(Leads::new(alloc, nodes)?)?;
        }
        Ok(Drift { rows })
    }

    /// Whether one more advance keeps every number within the limit, or the first pair that is
    /// above it.
    #[tactic(auto, unfolding(st_rules::specs::Leases::leases_open))]
    fn judge(&self, steps: &[u64], num: u64, den: u64, grain: u64) -> Result<(), Excess>
        requires nodes { length steps.now ≡ length self.now }
        ensures { after_step result (leases.drift_after self.now steps.now num den) ≡ leases.drift_step self.now steps.now num den grain }
    {
        match first_excess(&self.rows, steps, num, den, grain) {
            None => Ok(()),
            Some(excess) => Err(excess),
        }
    }

    /// Takes one more advance if `judge` accepts it.
    #[tactic(auto, unfolding(st_rules::specs::Leases::leases_open))]
    fn advance(&mut self, steps: &[u64], num: u64, den: u64, grain: u64) -> Result<(), Excess>
        requires nodes { length steps.now ≡ length self.old }
        requires rate { den ≤ 1048576 }
        requires grain { grain ≤ 2 ^ 40 }
        ensures exact { after_step result self.new ≡ leases.drift_step self.old steps.now num den grain }
        ensures nodes { length self.new ≡ length self.old }
        ensures still { OnErr result (self.new ≡ self.old) }
    {
        match first_excess(&self.rows, steps, num, den, grain) {
            None => {
                raise_rows(&mut self.rows, steps, num, den);
                Ok(())
            }
            Some(excess) => Err(excess),
        }
    }

    /// What `step` would return for this advance. It changes nothing and takes no memory.
    pub fn check(&self, steps: &[u64], num: u64, den: u64, grain: u64) -> Result<(), Excess>
        requires nodes { length steps.now ≡ length self.now }
        requires rate { den ≤ 1048576 }
        requires grain { grain ≤ 2 ^ 40 }
        ensures exact { after_step result (leases.drift_after self.now steps.now num den) ≡ leases.drift_step self.now steps.now num den grain }
        // The answer judges the advances that were accepted under these settings, and this one
        // after them.
        ensures law { Judges num den grain self.now steps.now result }
    {
        accepted_advances_are_in_bound();
        advances_in_bound_are_accepted();
        self.judge(steps, num, den, grain)
    }

    /// Takes one more advance of all clocks: `steps[n]` is what clock `n` gains, in ticks. At Ok
    /// the clocks are in bound over every interval of the accepted advances. An error changes
    /// nothing; it names the first pair of nodes that ran apart by more than `den * grain`, and by
    /// how much. Pairs are ordered by the node that gained more and then by the other one. Every
    /// call on one drift must pass the same `num`, `den` and `grain`. It takes no memory.
    pub fn step(&mut self, steps: &[u64], num: u64, den: u64, grain: u64) -> Result<(), Excess>
        requires nodes { length steps.now ≡ length self.old }
        requires rate { den ≤ 1048576 }
        requires grain { grain ≤ 2 ^ 40 }
        ensures exact { after_step result self.new ≡ leases.drift_step self.old steps.now num den grain }
        ensures nodes { length self.new ≡ length self.old }
        // The answer judges the advances that were accepted under these settings, and this one
        // after them.
        ensures law { Judges num den grain self.old steps.now result }
        // At Ok this advance is one of those that were accepted.
        ensures kept { Accepts num den grain self.old steps.now result self.new }
        ensures still { OnErr result (self.new ≡ self.old) }
    {
        accepted_advances_are_in_bound();
        advances_in_bound_are_accepted();
        self.advance(steps, num, den, grain)
    }
}
