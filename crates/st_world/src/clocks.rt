// Advances that take clocks apart too far.
ghost use Rattle.std.specs.Prelude.{◌≡◌, ◌≤◌, ◌<◌, ◌^◌, IfSome, length};
ghost use Rattle.st_rules.specs.Admissible as admissible;
ghost use Rattle.st_rules.specs.Leases as leases;
ghost use Rattle.st_rules.specs.World as world;
ghost use Rattle.st_world.specs.AdvanceTests.{IsPair, IsTimed, excess_in};

use st_base::{ClientId, Config, NodeId, ServerId};
use st_clock::{Drift, rate_ok};
use st_rules::{Excess, WorldRefusal};
use st_world_events::WorldTurn;
use st_world_parts::stands;

fn greatest(steps: &[u64]) -> u64
    requires { 0 < length steps.now }
    ensures { result ≡ leases.greatest_of steps.now }
{
    let mut most = steps[0];
    for step in &steps[1..] {
        most = most.max(*step);
    }
    most
}

fn least(steps: &[u64]) -> u64
    requires { 0 < length steps.now }
    ensures { result ≡ leases.least_of steps.now }
{
    let mut fewest = steps[0];
    for step in &steps[1..] {
        fewest = fewest.min(*step);
    }
    fewest
}

fn excess_in(judged: Result<(), Excess>) -> Option<Excess>
    ensures { result ≡ excess_in judged }
{
    match judged {
        Ok(()) => None,
        Err(excess) => Some(excess),
    }
}

/// The first pair of clocks that an advance takes apart too far.
#[tactic(auto, using(crate::proofs::Excesses::first_is))]
fn excess_after(drift: &Drift, steps: &[u64], config: &Config) -> Option<Excess>
    requires nodes { length steps.now ≡ length drift.now }
    requires rate { config.now.den ≤ 1048576 }
    requires grain { config.now.grain ≤ 2 ^ 40 }
    ensures { result ≡ leases.first_excess (leases.drift_after drift.now steps.now config.now.num config.now.den) config.now.den config.now.grain }
{
    excess_in(drift.check(steps, config.num, config.den, config.grain))
}

/// The node of a place among the clocks, from 0.
#[tactic(auto, unfolding(st_rules::specs::World::node_of_place))]
fn node_of_place(machine: &WorldTurn, place: usize) -> NodeId
    requires { place < 20 }
    ensures { result ≡ world.node_of_place machine.now.world place }
{
    if place < machine.clients.len() {
        NodeId::Client(ClientId((place + 1) as u16))
    } else {
        NodeId::Server(ServerId((place + 1 - machine.clients.len()) as u16))
    }
}

fn drift_refused(machine: &WorldTurn, excess: Option<Excess>) -> Option<WorldRefusal>
    requires { IfSome excess (IsPair 20) }
    ensures { result ≡ admissible.drift_refused machine.now.world excess }
{
    match excess {
        None => None,
        Some(excess) => Some(WorldRefusal::ClockDrift(
            node_of_place(machine, excess.m),
            node_of_place(machine, excess.n),
            excess.excess,
        )),
    }
}

/// Clocks that would run apart too far.
#[tactic(auto, unfolding(st_rules::specs::Admissible::clocks_refused))]
pub(crate) fn clocks_refused(machine: &WorldTurn, steps: &[u64]) -> Option<WorldRefusal>
    requires { IsTimed machine.now.world steps.now }
    ensures { result ≡ admissible.clocks_refused machine.now.world steps.now }
{
    if machine.form == 1 {
        stands(
            !rate_ok(steps, machine.config.num, machine.config.den),
            WorldRefusal::ClockRate(greatest(steps), least(steps)),
        )
    } else {
        drift_refused(
            machine,
            excess_after(&machine.drift, steps, &machine.config),
        )
    }
}
