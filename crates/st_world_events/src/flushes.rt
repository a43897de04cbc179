// Flush steps: the last step of each client that ended in the flush phase at each server.
ghost use Rattle.std.specs.Prelude.{◌≡◌, map, OnOk};
ghost use Rattle.std.specs.List.{position};
ghost use Rattle.st_rules.specs.Extents.{numbers};
ghost use Rattle.st_rules.specs.Keys as keys;
ghost use Rattle.st_rules.specs.World as world;
ghost use Rattle.st_world_events.specs.FlushSteps.{flush_each, flush_end, with_end};

use st_base::{ClientId, ServerId, Stamp};
use st_client::ClientNode;
use st_rules::{FlushStep, Phase};
use std::alloc::AllocError;

fn index_of_step(flushed: &[FlushStep], client: ClientId, server: ServerId) -> Option<usize>
    ensures { result ≡ position (world.is_flush_of client server) flushed.now }
{
    flushed.iter().position(|step| step.client.0 == client.0 && step.server.0 == server.0)
}

/// Puts a step in the place of the client's older one at this server, or last.
fn put_step(flushed: &mut Vec<FlushStep>, step: FlushStep) -> Result<(), AllocError>
    ensures { OnOk result (flushed.new.items ≡ keys.put (world.is_flush_of step.client step.server) step flushed.old.items) }
{
    match index_of_step(flushed.as_slice(), step.client, step.server) {
        None => flushed.push(step)?,
        Some(index) => flushed[index] = step,
    }
    Ok(())
}

fn flush_end(node: &ClientNode, server: ServerId, clock: Stamp) -> Option<Stamp>
    ensures { result ≡ flush_end node.now.state server clock }
{
    match node.phase(server, clock) {
        Some(Phase::Flush) => node.lease_end(server),
        _ => None,
    }
}

fn put_end(
    flushed: &mut Vec<FlushStep>,
    client: ClientId,
    server: ServerId,
    end: Option<Stamp>,
) -> Result<(), AllocError>
    ensures { OnOk result (flushed.new.items ≡ with_end client server end flushed.old.items) }
{
    match end {
        None => Ok(()),
        Some(end) => put_step(
            flushed,
            FlushStep {
                client,
                server,
                end,
            },
        ),
    }
}

/// The flush steps after a step of a client, at each server in order.
pub(crate) fn flush_all(
    flushed: &mut Vec<FlushStep>,
    client: ClientId,
    node: &ClientNode,
    clock: Stamp,
    servers: u16,
) -> Result<(), AllocError>
    ensures { OnOk result (flushed.new.items ≡ flush_each client node.now.state clock (map world.server (numbers 1 servers)) flushed.old.items) }
{
    for i in 0..servers {
        let server = ServerId(i + 1);
        let end = flush_end(node, server, clock);
        put_end(flushed, client, server, end)?;
    }
    Ok(())
}
