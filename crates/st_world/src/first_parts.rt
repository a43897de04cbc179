// The parts of a world at the start.
ghost use Rattle.std.specs.Prelude.{◌≡◌, ◌++◌, map, IsOk, OnOk};
ghost use Rattle.st_base.specs.Config as settings;
ghost use Rattle.st_rules.specs.Extents.{numbers};
ghost use Rattle.st_rules.specs.World as world;
ghost use Rattle.st_world.specs.Heads.{HasCounts, nodes_at_start};

use st_base::{ClientId, Config, ServerId, Stamp};
use st_client::ClientNode;
use st_messages::Counts;
use st_server::ServerNode;
use st_world_events::WorldClient;
use std::alloc::{AllocError, Global};

/// Adds the clocks of clients.
pub(crate) fn push_client_clocks(clocks: &mut Vec<Stamp>, count: u16) -> Result<(), AllocError>
    ensures { OnOk result (clocks.new.items ≡ clocks.old.items ++ map world.client_clock (numbers 1 count)) }
{
    for i in 0..count {
        clocks.push(Stamp(0))?;
    }
    Ok(())
}

/// Adds the clocks of servers.
pub(crate) fn push_server_clocks(clocks: &mut Vec<Stamp>, count: u16) -> Result<(), AllocError>
    ensures { OnOk result (clocks.new.items ≡ clocks.old.items ++ map world.server_clock (numbers 1 count)) }
{
    for i in 0..count {
        clocks.push(Stamp(1000 * (i as u64 + 1)))?;
    }
    Ok(())
}

/// Adds the clients.
pub(crate) fn push_sites(
    alloc: Global,
    sites: &mut Vec<WorldClient>,
    config: &Config,
    counts: &Counts,
) -> Result<(), AllocError>
    requires checked { IsOk (settings.check config.now) }
    requires counts { HasCounts counts.now }
    ensures { OnOk result (sites.new.items ≡ sites.old.items ++ map (world.fresh_site config.now counts.now.servers) (numbers 1 counts.now.clients)) }
{
    for i in 0..counts.clients {
        sites.push(WorldClient {
            node: ClientNode::fresh(alloc, ClientId(i + 1), config, counts.servers)?,
            asks: 0,
            starts: 0,
        })?;
    }
    Ok(())
}

/// Adds the servers.
pub(crate) fn push_nodes(
    alloc: Global,
    nodes: &mut Vec<ServerNode>,
    config: &Config,
    counts: &Counts,
) -> Result<(), AllocError>
    requires checked { IsOk (settings.check config.now) }
    requires counts { HasCounts counts.now }
    ensures { OnOk result (nodes.new.items ≡ nodes.old.items ++ nodes_at_start config.now counts.now) }
{
    for i in 0..counts.servers {
        nodes.push(ServerNode::fresh(
            alloc,
            ServerId(i + 1),
            config,
            counts.servers,
            counts.disks,
            counts.blocks,
        )?)?;
    }
    Ok(())
}
