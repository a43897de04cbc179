// Advances that take a client to a lease end before it was flushed.
ghost use Rattle.std.specs.Prelude.{◌≡◌, ◌≤◌, ◌<◌, ◌^◌, true, Some, length};
ghost use Rattle.std.specs.List.{list_all};
ghost use Rattle.std.specs.Option.{option_copied};
ghost use Rattle.st_world_parts.specs.Clocks.{is_at_most, is_step};
ghost use Rattle.st_rules.specs.Admissible as admissible;
ghost use Rattle.st_rules.specs.World as world;
ghost use Rattle.st_world.specs.AdvanceTests.{IsTimed};

use st_base::{ClientId, NodeId, ServerId, Stamp};
use st_rules::{FlushStep, WorldRefusal};
use st_world_events::{WorldClient, WorldTurn, site_at};
use st_world_parts::stands;

fn reaches(clock: Stamp, step: u64, end: Option<Stamp>) -> bool
    requires clock { clock.0 ≤ 2 ^ 62 }
    requires step { step < 2 ^ 32 }
    ensures { result ≡ admissible.reaches clock step end }
{
    match end {
        None => false,
        Some(end) => clock.0 < end.0 && end.0 <= clock.0 + step,
    }
}

fn is_flush_under(client: ClientId, server: ServerId, end: Option<Stamp>, step: &FlushStep) -> bool
    ensures { result ≡ admissible.is_flush_under client server end step.now }
{
    match end {
        None => false,
        Some(end) => {
            (step.client.0 == client.0 && step.server.0 == server.0) && step.end.0 == end.0
        }
    }
}

/// A client's increment, or 0.
fn step_of(client: ClientId, steps: &[u64]) -> u64
    requires small { list_all is_step steps.now ≡ true }
    ensures exact { result ≡ admissible.step_of client steps.now }
    ensures small { result < 2 ^ 32 }
{
    if client.0 == 0 || client.0 as usize > steps.len() {
        return 0;
    }
    steps[(client.0 - 1) as usize]
}

fn has_flushed(machine: &WorldTurn, client: ClientId, server: ServerId, end: Option<Stamp>) -> bool
    ensures { result ≡ admissible.has_flushed machine.now.world client server end }
{
    machine
        .flushed
        .iter()
        .any(|step| is_flush_under(client, server, end, step))
}

fn misses(
    machine: &WorldTurn,
    client: ClientId,
    server: ServerId,
    step: u64,
    site: &WorldClient,
    end: Option<Stamp>,
) -> bool
    requires few { length machine.now.world.clients ≤ 16 }
    requires clocks { list_all (is_at_most (2 ^ 62)) machine.now.world.clocks ≡ true }
    requires step { step < 2 ^ 32 }
    ensures { result ≡ admissible.misses machine.now.world client server step site.now end }
{
    site.running()
        && (reaches(machine.clock_of(NodeId::Client(client)), step, end)
            && (site.has_dirty(server)
                && (!has_flushed(machine, client, server, end)
                    || machine
                        .commands
                        .has_write_out(client, server, site.starts(), site.life(server)))))
}

fn site_missed(
    machine: &WorldTurn,
    steps: &[u64],
    client: ClientId,
    server: ServerId,
    site: &WorldClient,
) -> Option<WorldRefusal>
    requires few { length machine.now.world.clients ≤ 16 }
    requires timed { IsTimed machine.now.world steps.now }
    ensures { result ≡ admissible.missed_at machine.now.world steps.now client server (Some site.now) }
{
    let step = step_of(client, steps);
    let end = site.lease_end(server);
    stands(
        misses(machine, client, server, step, site, end),
        WorldRefusal::FlushMissed(client, server),
    )
}

fn missed_at(
    machine: &WorldTurn,
    steps: &[u64],
    client: ClientId,
    server: ServerId,
    site: Option<&WorldClient>,
) -> Option<WorldRefusal>
    requires few { length machine.now.world.clients ≤ 16 }
    requires timed { IsTimed machine.now.world steps.now }
    ensures { result ≡ admissible.missed_at machine.now.world steps.now client server (option_copied site.entry) }
{
    match site {
        None => None,
        Some(site) => site_missed(machine, steps, client, server, site),
    }
}

fn missed(
    machine: &WorldTurn,
    steps: &[u64],
    client: ClientId,
    server: ServerId,
) -> Option<WorldRefusal>
    requires few { length machine.now.world.clients ≤ 16 }
    requires timed { IsTimed machine.now.world steps.now }
    ensures { result ≡ admissible.missed_at machine.now.world steps.now client server (world.site_of machine.now.world client) }
{
    missed_at(
        machine,
        steps,
        client,
        server,
        site_at(&machine.clients, client),
    )
}

/// A client that misses its flush, by the servers in order.
#[tactic(auto, unfolding(st_rules::specs::Admissible::missed_by))]
fn missed_by(machine: &WorldTurn, steps: &[u64], client: ClientId) -> Option<WorldRefusal>
    requires few { length machine.now.world.clients ≤ 16 }
    requires servers { length machine.now.world.servers ≤ 4 }
    requires timed { IsTimed machine.now.world steps.now }
    ensures { result ≡ admissible.missed_by machine.now.world steps.now client (world.all_servers machine.now.world) }
{
    let servers = machine.servers.len() as u16;
    for i in 0..servers {
        match missed(machine, steps, client, ServerId(i + 1)) {
            None => {}
            Some(refusal) => return Some(refusal),
        }
    }
    None
}

/// A missed flush, by the clients in order.
#[tactic(auto, unfolding(st_rules::specs::Admissible::flush_missed))]
pub(crate) fn flush_missed(machine: &WorldTurn, steps: &[u64]) -> Option<WorldRefusal>
    requires few { length machine.now.world.clients ≤ 16 }
    requires servers { length machine.now.world.servers ≤ 4 }
    requires timed { IsTimed machine.now.world steps.now }
    ensures { result ≡ admissible.flush_missed machine.now.world steps.now (world.all_clients machine.now.world) }
{
    let clients = machine.clients.len() as u16;
    for i in 0..clients {
        match missed_by(machine, steps, ClientId(i + 1)) {
            None => {}
            Some(refusal) => return Some(refusal),
        }
    }
    None
}
